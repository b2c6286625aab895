ghost use Rattle.std.specs.Prelude.{◌≡◌, ◌⊎◌, ◌∷◌, [], None, IfOk, IfErr};
ghost use Rattle.sqlite.specs.Held.{state};
ghost use Rattle.pt_base_values.specs.declared.fault.Cause.TheVariants as cause;
ghost use Rattle.pt_base_values.specs.declared.policy.Policy.{Policy};
ghost use Rattle.pt_tables_opening.specs.Faults.{fault, unsound};
ghost use Rattle.pt_tables_opening.specs.Opening.{IsCaused, ReadsTables, Rests};
ghost use Rattle.pt_tables_reading.specs.Reading.{agency_row, FitsAgency};
ghost use Rattle.pt_tables_opening.specs.Refused.{SparesOtherVersion};
ghost use Rattle.pt_tables_opening.specs.Standing.{NoneStandsTo};
ghost use Rattle.pt_tables_opening.specs.Agency.{IsAgencyOf, HasOtherVersion, IsOtherVersion, TellsNoAgency};

use crate::OpenFault;
use crate::open_fault::fault_of;
use crate::table_rows::desk_rows;
use crate::version::has_version;
use pt_base_values::Policy;
use pt_desk_rules::TableName;
use pt_tables_reading::agency_of;
use pt_tables_rows::TABLE_VERSION;
use sqlite::{Alter, Connection, Row};

/// The policy and the number last given to a trip, from the only row. Code 30: the row has another version of the
/// tables. Code 31: there is not exactly one row, or it has no policy.
fn agency_from(rows: &[Row]) -> Result<(Policy, u32), OpenFault>
    ensures told { IfOk result (λ agency. (agency_row agency ∷ [] ≡ rows.now) × FitsAgency agency) }
    ensures faults { IfErr result (λ refused. ((refused ≡ fault cause.OtherTables) × IsOtherVersion rows.now)
        ⊎ ((refused ≡ unsound 1) × TellsNoAgency rows.now)) }
{
    let [row] = rows else {
        return Err(OpenFault::unsound(TableName::Desk));
    };
    if !has_version(row, TABLE_VERSION) {
        return Err(OpenFault::OTHER_TABLES);
    }
    match agency_of(row) {
        Some(agency) => Ok(agency),
        None => Err(OpenFault::unsound(TableName::Desk)),
    }
}

/// The agency's policy and the number last given to a trip, read from the only row of the desk's table. Code 30: the
/// row has another version of the tables. Code 31: there is not exactly one row, or it has no policy. Code 32: the
/// store refused or failed. Code 0: out of memory.
pub(crate) fn agency_in<S: Alter>(conn: &mut Connection<S>) -> Result<(Policy, u32), OpenFault>
    ensures told { ReadsTables (state S.Store conn.old) (state S.Store conn.new)
        (λ trees. IfOk result (IsAgencyOf trees)) }
    ensures faults { IfErr result (λ refused. (refused ≡ fault cause.Memory) ⊎ ((refused ≡ fault cause.StoreFailed)
        ⊎ (((refused ≡ fault cause.OtherTables) × (ReadsTables (state S.Store conn.old) (state S.Store conn.new)
        HasOtherVersion))
        ⊎ ((refused ≡ unsound 1) × (ReadsTables (state S.Store conn.old) (state S.Store conn.new)
        (NoneStandsTo 1)))))) }
    ensures version { ReadsTables (state S.Store conn.old) (state S.Store conn.new)
        (λ trees. IfErr result (SparesOtherVersion trees)) }
    ensures caused { IfErr result (IsCaused (state S.Store conn.old) (state S.Store conn.new)) }
    ensures rests { Rests (state S.Store conn.old) (state S.Store conn.new) result }
{
    let rows = match desk_rows(conn) {
        Ok(rows) => rows,
        Err(error) => return Err(fault_of(&error)),
    };
    agency_from(&rows)
}
