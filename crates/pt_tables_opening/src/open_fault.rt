ghost use Rattle.std.specs.Prelude.{◌≡◌, ◌≢◌, IfSome, IsNone};
ghost use Rattle.pt_base_values.specs.Fault.{code_of};
ghost use Rattle.pt_base_values.specs.declared.fault.Cause.{Cause};
ghost use Rattle.pt_base_values.specs.declared.fault.Cause.TheVariants as cause;
ghost use Rattle.pt_desk_rules.specs.TableNames.{number_of};
ghost use Rattle.pt_tables_opening.specs.Faults.{IsRefusal, fault, unsound};

use pt_base_values::Cause;
use pt_desk_rules::TableName;
use sqlite::{Error, ErrorCode};

/// Why a database is not opened.
#[derive(Clone, Copy)]
pub struct OpenFault {
    /// The code of the cause: out of memory, other tables, unsound rows, or a failure of the store.
    pub code: u16,
    /// The number of the first table at fault, or 0 if none is.
    pub table: u8,
}

impl OpenFault {
    /// Out of memory.
    pub const MEMORY: OpenFault = OpenFault { code: 0, table: 0 };

    /// The store refused or failed.
    pub const STORE: OpenFault = OpenFault { code: 32, table: 0 };

    /// The tables are not the desk's, or are of another version.
    pub const OTHER_TABLES: OpenFault = OpenFault { code: 30, table: 0 };

    /// The cause; `None` if no cause has this code.
    pub fn cause(self) -> Option<Cause>
        ensures known { IfSome result (λ cause. code_of cause ≡ self.code) }
        ensures unknown { IsNone result → (cause : Cause) → ¬ (code_of cause ≡ self.code) }
    {
        Cause::of(self.code)
    }

    /// No sound state has the rows of this table.
    pub(crate) fn unsound(table: TableName) -> OpenFault
        ensures value { result ≡ unsound (number_of table) }
    {
        OpenFault {
            code: Cause::UnsoundRows.code(),
            table: table.number() as u8,
        }
    }
}

/// The fault of an error of the store.
pub fn fault_of(error: &Error) -> OpenFault
    ensures memory { error.now ≡ Error.SqliteFailure ErrorCode.OutOfMemory → result ≡ fault cause.Memory }
    ensures store { error.now ≢ Error.SqliteFailure ErrorCode.OutOfMemory → result ≡ fault cause.StoreFailed }
    ensures refusal { IsRefusal result }
{
    match error {
        Error::SqliteFailure(ErrorCode::OutOfMemory) => OpenFault::MEMORY,
        _ => OpenFault::STORE,
    }
}
