//! Opens the database in a file that must exist.
ghost use Rattle.pt_app_files.specs.Known.{Connects, OpensKnown};

use crate::faults::{fault_of_connecting, fault_of_reading};
use crate::files::DeskFiles;
use pt_base_values::Fault;

/// Opens the database in a file.
fn connect<F: DeskFiles>(files: &mut F, file: &str) -> Result<F::Connected, Fault>
    ensures { Connects F.connects file.now result files.old files.new }
{
    match files.connect(file) {
        Ok(conn) => Ok(conn),
        Err(error) => Err(fault_of_connecting(&error)),
    }
}

/// Opens the database in a file, which must exist.
pub(crate) fn open_known<F: DeskFiles>(files: &mut F, file: &str) -> Result<F::Connected, Fault>
    ensures { OpensKnown F.finds F.connects file.now result files.old files.new }
{
    match files.find(file) {
        Ok(()) => connect(files, file),
        Err(error) => Err(fault_of_reading(&error)),
    }
}
