//! Serves the desk in a file on a port.
ghost use Rattle.std.specs.Prelude.{◌≡◌};
ghost use Rattle.pt_http_request.specs.Targets.{desk_routes};
ghost use Rattle.pt_tables_keeper.specs.Keeper.{store_of};
ghost use Rattle.pt_app_files.specs.Desk.{DoesAndLeaves, OverDesk, WithDesk};
ghost use Rattle.pt_app_files.specs.Serve.{EndsUnopened, ServesFile, ServesOn, ServesPort};

use crate::faults::fault_of_refusal;
use crate::files::DeskFiles;
use crate::known::open_known;
use crate::ports::DeskPorts;
use matchit::Router;
use pt_app_commands::Ending;
use pt_app_serve::{Accepts, TellsTime, moment_at};
use pt_base_values::{Cause, Fault};
use pt_desk_store::Keeper;
use pt_http_request::{Path, desk_router};
use pt_tables::{SqlKeeper, adopt};
use sqlite::{Alter, Connection};
use std::alloc::Global;
use std::time::Clock;

/// Serves the connections of a port, one after the other, and prints to standard error how many failed.
fn serve_port<R: Clock + Eprint, K: Keeper, A: Accepts + Drop>(
    rt: &R,
    alloc: Global,
    router: &Router<Path>,
    keeper: &mut K,
    zone: &str,
    port: A,
    connections: u32,
) -> Result<Ending, Fault>
    requires { router.now ≡ desk_routes }
    ensures { ServesPort A.Stream.shows A.Stream.fails A.comes A.replied A.ending zone.now port result
        (K.store keeper.old) (K.store keeper.new) }
{
    let mut port = port;
    match pt_app_serve::serve(rt, alloc, router, keeper, zone, &mut port) {
        Ok(failed) => {
            let _shown = eprintln!(rt; "connections: {connections}, failed: {failed}");
            Ok(Ending::Done)
        }
        Err(fault) => Err(fault),
    }
}

/// Serves this number of connections on a port.
fn serve_on<R: Clock + Eprint, K: Keeper, A: Accepts + Drop, P: DeskPorts<Opened = A>>(
    rt: &R,
    alloc: Global,
    ports: &mut P,
    keeper: &mut K,
    zone: &str,
    number: u16,
    connections: u32,
) -> Result<Ending, Fault>
    ensures { ServesOn K.store A.Stream.shows A.Stream.fails A.comes A.replied A.ending P.opens zone.now
        number connections result ports.old ports.new keeper.old keeper.new }
{
    let Ok(router) = desk_router(alloc) else {
        return Err(Fault::of(Cause::Memory));
    };
    match ports.open(number, connections) {
        Ok(port) => serve_port(rt, alloc, &router, keeper, zone, port, connections),
        Err(fault) => Err(fault),
    }
}

/// The same with a desk, which is left then.
fn serve_and_leave<
    R: Clock + Eprint,
    S: Alter + Drop,
    F: DeskFiles<Connected = Connection<S>>,
    A: Accepts + Drop,
    P: DeskPorts<Opened = A>,
>(
    rt: &R,
    alloc: Global,
    files: &mut F,
    ports: &mut P,
    keeper: SqlKeeper<S>,
    zone: &str,
    number: u16,
    connections: u32,
) -> Result<Ending, Fault>
    ensures { DoesAndLeaves F.leaves
        (ServesOn (store_of S.Store) A.Stream.shows A.Stream.fails A.comes A.replied A.ending P.opens zone.now
        number connections result ports.old ports.new) keeper files.old files.new }
{
    let mut keeper = keeper;
    let ended = serve_on(rt, alloc, ports, &mut keeper, zone, number, connections);
    files.leave(keeper.release());
    ended
}

/// The same with the database of a connection, which must be a desk's, in a sound state.
fn serve_desk<
    R: Clock + Eprint,
    S: Alter + Drop,
    F: DeskFiles<Connected = Connection<S>>,
    A: Accepts + Drop,
    P: DeskPorts<Opened = A>,
>(
    rt: &R,
    alloc: Global,
    files: &mut F,
    ports: &mut P,
    conn: Connection<S>,
    zone: &str,
    number: u16,
    connections: u32,
) -> Result<Ending, Fault>
    ensures { WithDesk S.Store F.leaves
        (ServesOn (store_of S.Store) A.Stream.shows A.Stream.fails A.comes A.replied A.ending P.opens zone.now
        number connections result ports.old ports.new) (EndsUnopened ports.old ports.new result)
        conn files.old files.new }
{
    match adopt(alloc, conn) {
        Ok(keeper) => {
            serve_and_leave(rt, alloc, files, ports, keeper, zone, number, connections)
        }
        Err((_store, refused)) => Err(fault_of_refusal(refused)),
    }
}

/// The same with the database in a file, which must exist.
fn serve_known<
    R: Clock + Eprint,
    S: Alter + Drop,
    F: DeskFiles<Connected = Connection<S>>,
    A: Accepts + Drop,
    P: DeskPorts<Opened = A>,
>(
    rt: &R,
    alloc: Global,
    files: &mut F,
    ports: &mut P,
    file: &str,
    zone: &str,
    number: u16,
    connections: u32,
) -> Result<Ending, Fault>
    ensures { OverDesk S.Store F.finds F.connects F.leaves file.now
        (ServesOn (store_of S.Store) A.Stream.shows A.Stream.fails A.comes A.replied A.ending P.opens zone.now
        number connections result ports.old ports.new) (EndsUnopened ports.old ports.new result)
        files.old files.new }
{
    match open_known(files, file) {
        Ok(conn) => serve_desk(rt, alloc, files, ports, conn, zone, number, connections),
        Err(fault) => Err(fault),
    }
}

/// Serves this number of connections on a port, one after the other, in a time zone, with the desk in a file, which must
/// exist. A clock that gives no moment in the zone ends it before a file is opened.
pub fn serve_file<
    T: TellsTime,
    R: Clock + Eprint,
    S: Alter + Drop,
    F: DeskFiles<Connected = Connection<S>>,
    A: Accepts + Drop,
    P: DeskPorts<Opened = A>,
>(
    clock: &T,
    rt: &R,
    alloc: Global,
    files: &mut F,
    ports: &mut P,
    file: &str,
    zone: &str,
    number: u16,
    connections: u32,
) -> Result<Ending, Fault>
    ensures { ServesFile S.Store T.unread T.shows F.finds F.connects F.leaves file.now zone.now
        (ServesOn (store_of S.Store) A.Stream.shows A.Stream.fails A.comes A.replied A.ending P.opens zone.now
        number connections result ports.old ports.new) ports.old ports.new result files.old files.new }
{
    match moment_at(clock, zone) {
        Ok(_) => serve_known(rt, alloc, files, ports, file, zone, number, connections),
        Err(fault) => Err(fault),
    }
}
