ghost use Rattle.std.specs.Prelude.{◌≡◌, ◌≤◌, ◌⊎◌, true, length, IfOk, IfErr, OnOk};
ghost use Rattle.csv.specs.Reading.{ReadRecord, Ready, has_failed, is_flexible, reader_source, reader_trim};
ghost use Rattle.csv.specs.Records.{fields_of};
ghost use Rattle.csv.specs.declared.reader.Trim.TheVariants as trim;
ghost use Rattle.pt_base_values.specs.Fault.{code_of, fault_at};
ghost use Rattle.pt_base_values.specs.declared.fault.Cause.TheVariants as cause;
ghost use Rattle.pt_travel.specs.Places.{list_of};
ghost use Rattle.pt_travel.specs.Reader.{BytesReader, IsAtStart, LacksMemory, bytes_of};
ghost use Rattle.pt_travel.specs.Table.{most_places};
ghost use Rattle.pt_travel.specs.Text.{IsFirstFault, ReadsAs};

use crate::places::Places;
use crate::raw::{MOST_PLACES, Raw, Row};
use crate::record;
use csv::{ByteRecord, ErrorKind, Reader, ReaderBuilder};
use pt_base_values::{Cause, Fault, PlaceId};
use std::alloc::Global;

impl Raw {
    /// Reads a table of these places from CSV: the header `from,to,minutes`, and below it one record
    /// for each row, in any order. A byte order mark before the header is skipped.
    ///
    /// The first fault is returned. More than 100 places are 25 in row 0; another header is 21. Then
    /// each record is checked. It has three fields, else 20. The places are 1 to 10 digits and in the
    /// list, else 22. The minutes are 1 to 4 digits, at most 1439, else 23. A pair that came earlier
    /// with other minutes is 24. Rows count records, and the header is row 1.
    pub fn read(alloc: Global, text: &[u8], places: &[PlaceId]) -> Result<Self, Fault>
        ensures reads { IfOk result (λ raw. ReadsAs text.now places.now raw) }
        ensures faulty { IfErr result (λ fault. (fault ≡ fault_at cause.Memory 0)
            ⊎ IsFirstFault text.now places.now fault) }
        ensures memory { IfErr result (λ fault. fault.code ≡ code_of cause.Memory
            → (length places.now ≤ most_places) × (reader : BytesReader) × LacksMemory text.now places.now reader) }
    {
        if places.len() > MOST_PLACES {
            return Err(Fault::of(Cause::TravelPlaces));
        }
        let places = Places::from_list(places);
        let mut reader = ReaderBuilder::new()
            .has_headers(false)
            .flexible(true)
            .from_reader(alloc, text);
        let rows = read_rows(alloc, &mut reader, &places)?;
        Ok(Raw::naming(rows, places))
    }
}

// The rows of the records below the header, in order and each once.
fn read_rows(alloc: Global, reader: &mut Reader<&[u8]>, places: &Places) -> Result<Vec<Row>, Fault>
    requires start { IsAtStart (reader_source reader.old).now reader.old }
    requires flexible { is_flexible reader.old ≡ true }
    ensures reads { IfOk result (λ rows. ReadsAs (reader_source reader.old).now (list_of places.now) rows.items) }
    ensures faulty { IfErr result (λ fault. ((fault ≡ fault_at cause.Memory 0)
        × LacksMemory (reader_source reader.old).now (list_of places.now) reader.new)
        ⊎ IsFirstFault (reader_source reader.old).now (list_of places.now) fault) }
{
    let mut record = ByteRecord::new(alloc);
    let mut rows = Vec::new(alloc);
    let mut number: u32 = 0;
    while next_record(reader, &mut record)? {
        number = number.saturating_add(1);
        record::take(&mut rows, places, &record, number)?;
    }
    if number == 0 {
        return Err(Fault::at(Cause::TravelHeader, 1));
    }
    Ok(rows)
}

// Reads the next record of a text in memory, if there is one. A record may have any length.
fn next_record(reader: &mut Reader<&[u8]>, given: &mut ByteRecord) -> Result<bool, Fault>
    requires untrimmed { reader_trim reader.old ≡ trim.None }
    requires ready { Ready reader.old }
    requires flexible { is_flexible reader.old ≡ true }
    ensures reads { IfOk result
        (λ found. ReadRecord bytes_of reader.old reader.new found (fields_of given.new)) }
    ensures ready { IfOk result (λ found. found ≡ true → Ready reader.new) }
    ensures flexible { OnOk result (is_flexible reader.new ≡ true) }
    ensures refused { IfErr result (λ fault. (fault ≡ fault_at cause.Memory 0)
        × (has_failed reader.new ≡ true)) }
{
    match reader.read_byte_record(given) {
        Ok(found) => Ok(found),
        Err(error) => match error.kind() {
            // Why there is an arm for a failed read: csv does not say that bytes in memory can always be read.
            ErrorKind::OutOfMemory | ErrorKind::Io(_) => Err(Fault::of(Cause::Memory)),
            _ => unreachable!(),
        },
    }
}
