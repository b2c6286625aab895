ghost use Rattle.std.specs.Prelude.{◌≡◌, ℕ, ◌⊎◌, ◌↔◌, List, [], ◌∷◌, ◌++◌, length, slice_index_or};
ghost use Rattle.std.specs.Prelude.{IsTrue, IfOk, OnOk, IfErr};
ghost use Rattle.csv.specs.Records.{fields_of};
ghost use Rattle.pt_base_values.specs.Fault.{code_of, fault_at};
ghost use Rattle.pt_base_values.specs.declared.fault.Cause.TheVariants as cause;
ghost use Rattle.pt_travel.specs.Places.{list_of};
ghost use Rattle.pt_travel.specs.Table.{Rises};
ghost use Rattle.pt_travel.specs.Text.{AddsRow, HasFault, IsNextFault, IsReadSoFar, IsSound, Record};
ghost use Rattle.pt_travel.specs.Text.{header, number_after, row_of};

use crate::places::Places;
use crate::raw::Row;
use crate::{fields, sorted};
use csv::ByteRecord;
use pt_base_values::{Cause, Fault};

/// Takes the record of this number: the header row, or a row that is put among the others in order.
pub(crate) fn take(
    rows: &mut Vec<Row>,
    places: &Places,
    given: &ByteRecord,
    number: u32,
) -> Result<(), Fault>
    requires { Rises rows.old.items }
    ensures taken { OnOk result ((seen : List Record) → number ≡ number_after (length seen)
        → IsReadSoFar (list_of places.now) seen rows.old.items
        → IsReadSoFar (list_of places.now) (seen ++ fields_of given.now ∷ []) rows.new.items) }
    ensures faulty { IfErr result (λ fault. (seen : List Record) → number ≡ number_after (length seen)
        → IsReadSoFar (list_of places.now) seen rows.old.items
        → ((fault ≡ fault_at cause.Memory 0) × AddsRow (list_of places.now) seen (fields_of given.now))
        ⊎ IsNextFault (list_of places.now) seen (fields_of given.now) fault) }
{
    if number == 1 {
        return header(given);
    }
    match row(given, places) {
        Ok(row) => sorted::put(rows, row, number),
        Err(cause) => Err(Fault::at(cause, number)),
    }
}

// Checks that the record is the header row.
#[tactic(auto, using(crate::proofs::RecordLemmas::header_from))]
fn header(given: &ByteRecord) -> Result<(), Fault>
    ensures header { OnOk result (fields_of given.now ≡ header) }
    ensures other { IfErr result (λ fault. (fault ≡ fault_at cause.TravelHeader 1)
        × (fields_of given.now ≡ header → ⊥)) }
{
    if given.len() == 3
        && has_field(given, 0, b"from")
        && has_field(given, 1, b"to")
        && has_field(given, 2, b"minutes")
    {
        return Ok(());
    }
    Err(Fault::at(Cause::TravelHeader, 1))
}

// The row that a record spells, or the cause of its fault.
fn row(given: &ByteRecord, places: &Places) -> Result<Row, Cause>
    ensures sound { IfOk result (λ row. IsSound (list_of places.now) (fields_of given.now)
        × (row ≡ row_of (fields_of given.now))) }
    ensures faulty { IfErr result (λ why. (earlier : List Record)
        → HasFault (list_of places.now) earlier (fields_of given.now) (code_of why)) }
{
    if given.len() != 3 {
        return Err(Cause::TravelRecord);
    }
    let (Some(from), Some(to)) = (
        fields::place(field(given, 0), places),
        fields::place(field(given, 1), places),
    ) else {
        return Err(Cause::TravelPlace);
    };
    match fields::minutes(field(given, 2)) {
        Some(minutes) => Ok((from, to, minutes)),
        None => Err(Cause::TravelMinutes),
    }
}

fn has_field(given: &ByteRecord, i: usize, name: &[u8]) -> bool
    ensures { IsTrue result ↔ (slice_index_or (fields_of given.now) i [] ≡ name.now) }
{
    field(given, i) == name
}

// The bytes of a field; empty past the last field.
fn field(given: &ByteRecord, i: usize) -> &[u8]
    ensures { result.now ≡ slice_index_or (fields_of given.now) i [] }
{
    match given.get(i) {
        Some(field) => field,
        None => &[],
    }
}
