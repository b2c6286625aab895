//! The fault of a call that fails.
ghost use Rattle.std.specs.Prelude.{◌≡◌};
ghost use Rattle.std.specs.IoError.{error_kind};
ghost use Rattle.pt_app_files.specs.Faults.{IsFaultOfConnecting, IsFaultOfMaking, IsFaultOfReading, told_as};

use pt_base_values::{Cause, Fault};
use pt_tables::OpenFault;
use sqlite::{Error, ErrorCode};
use std::io::{self, ErrorKind};

/// The fault for a database that is refused.
pub(crate) fn fault_of_refusal(refused: OpenFault) -> Fault
    ensures { result ≡ told_as refused }
{
    Fault {
        code: refused.code,
        row: u32::from(refused.table),
    }
}

/// The fault if the store cannot open a file.
pub(crate) fn fault_of_connecting(error: &Error) -> Fault
    ensures { IsFaultOfConnecting error.now result }
{
    match error {
        Error::SqliteFailure(ErrorCode::OutOfMemory) => Fault::of(Cause::Memory),
        _ => Fault::of(Cause::StoreFailed),
    }
}

/// The fault if a file cannot be made.
pub(crate) fn fault_of_making(error: &io::Error) -> Fault
    ensures { IsFaultOfMaking (error_kind error.now) result }
{
    match error.kind() {
        ErrorKind::AlreadyExists => Fault::of(Cause::FileExists),
        ErrorKind::OutOfMemory => Fault::of(Cause::Memory),
        _ => Fault::of(Cause::StoreFailed),
    }
}

/// The fault if a file that must exist cannot be read.
pub(crate) fn fault_of_reading(error: &io::Error) -> Fault
    ensures { IsFaultOfReading (error_kind error.now) result }
{
    match error.kind() {
        ErrorKind::OutOfMemory => Fault::of(Cause::Memory),
        _ => Fault::of(Cause::NoSuchFile),
    }
}
