//! Migrates the database in a file to the tables of this version.
ghost use Rattle.pt_app_files.specs.Migrate.{MigratesAndLeaves, MigratesFile};

use crate::faults::fault_of_refusal;
use crate::files::DeskFiles;
use crate::known::open_known;
use pt_app_commands::{Ending, print_done};
use pt_base_values::Fault;
use sqlite::{Alter, Connection};
use std::alloc::Global;
use std::io::Write;

/// Migrates the database of a connection, prints `done`, and leaves it.
fn migrate_desk<S: Alter + Drop, F: DeskFiles<Connected = Connection<S>>, W: Write>(
    alloc: Global,
    files: &mut F,
    conn: Connection<S>,
    out: &mut W,
) -> Result<Ending, Fault>
    ensures { MigratesAndLeaves S.Store F.leaves (W.contents out.old) (W.contents out.new) result conn
        files.old files.new }
{
    let mut conn = conn;
    match pt_tables::migrate(alloc, &mut conn) {
        Ok(()) => {
            let ended = print_done(alloc, out);
            files.leave(conn);
            ended
        }
        Err(refused) => {
            files.leave(conn);
            Err(fault_of_refusal(refused))
        }
    }
}

/// Migrates the tables of an earlier version in a file to this version, and prints `done`. The file must exist.
pub fn migrate_file<S: Alter + Drop, F: DeskFiles<Connected = Connection<S>>, W: Write>(
    alloc: Global,
    files: &mut F,
    file: &str,
    out: &mut W,
) -> Result<Ending, Fault>
    ensures { MigratesFile S.Store F.finds F.connects F.leaves file.now (W.contents out.old) (W.contents out.new)
        result files.old files.new }
{
    match open_known(files, file) {
        Ok(conn) => migrate_desk(alloc, files, conn, out),
        Err(fault) => Err(fault),
    }
}
