//! Makes the database of a new desk in a file.
ghost use Rattle.pt_app_files.specs.Init.{Inits, MakesAndLeaves, MakesIn};

use crate::faults::{fault_of_connecting, fault_of_making, fault_of_refusal};
use crate::files::DeskFiles;
use pt_base_values::Fault;
use pt_tables::create;
use sqlite::{Alter, Connection};
use std::alloc::Global;

/// Makes the database of a connection that of a new desk, whose only caller is the admin with this key, and leaves it.
fn make_desk<S: Alter + Drop, F: DeskFiles<Connected = Connection<S>>>(
    alloc: Global,
    files: &mut F,
    conn: Connection<S>,
    key: &str,
) -> Result<(), Fault>
    ensures { MakesAndLeaves S.Store F.leaves key.now conn result files.old files.new }
{
    match create(alloc, conn, key.as_bytes()) {
        Ok(keeper) => {
            files.leave(keeper.release());
            Ok(())
        }
        Err((conn, refused)) => {
            files.leave(conn);
            Err(fault_of_refusal(refused))
        }
    }
}

/// The same in a file, which is opened.
fn make_desk_in<S: Alter + Drop, F: DeskFiles<Connected = Connection<S>>>(
    alloc: Global,
    files: &mut F,
    file: &str,
    key: &str,
) -> Result<(), Fault>
    ensures { MakesIn S.Store F.connects F.leaves file.now key.now result files.old files.new }
{
    match files.connect(file) {
        Ok(conn) => make_desk(alloc, files, conn, key),
        Err(error) => Err(fault_of_connecting(&error)),
    }
}

/// Makes a file, which must not exist, with the database of a new desk, whose only caller is the admin with this key.
pub fn init_file<S: Alter + Drop, F: DeskFiles<Connected = Connection<S>>>(
    alloc: Global,
    files: &mut F,
    file: &str,
    key: &str,
) -> Result<(), Fault>
    ensures { Inits S.Store F.makes F.connects F.leaves file.now key.now result files.old files.new }
{
    match files.make(file) {
        Ok(()) => make_desk_in(alloc, files, file, key),
        Err(error) => Err(fault_of_making(&error)),
    }
}
