ghost use Rattle.std.specs.Prelude.{◌≡◌, ℕ, [], IfOk};
ghost use Rattle.pt_travel.specs.Chain.{IsTime};
ghost use Rattle.pt_travel.specs.Table.{IsTable};
ghost use Rattle.pt_travel.specs.Times.{time_in};
ghost use Rattle.std.specs.List.{list_any};
ghost use Rattle.std.specs.Option.{option_copied};
ghost use Rattle.pt_desk_rules.specs.Travel.{is_newer, table_on};

use pt_base_records::{Key, Keyed};
use pt_base_values::Day;
use pt_travel::{Closed, Raw, Row};
use std::alloc::{AllocError, Global};
use std::marker::Model;

/// The agency's travel table from a day on, with its driving times, which are computed once.
///
/// A contract sees its day and its rows.
#[derive(Drop)]
pub struct TravelTable {
    from_day: Day,
    rows: Raw,
    times: Closed,
}

impl Model for TravelTable {
    ghost use Rattle.std.specs.Prelude.{ℕ};
    ghost use Rattle.pt_travel.specs.Chain.{IsTime};
    ghost use Rattle.pt_travel.specs.Times.{time_in};
    ghost use Rattle.pt_desk_rules.specs.Travel.{TravelTable};

    ghost Value = { TravelTable };

    ghost view = { λ table. record {
      from_day = table.from_day;
      rows = table.rows;
    } };

    ghost invariant = { λ table. (from to : ℕ) → IsTime table.rows from to (time_in table.times from to) };
}

impl TravelTable {
    /// The table of these rows from this day on.
    pub fn of(alloc: Global, from_day: Day, rows: Raw) -> Result<Self, AllocError>
        ensures value { IfOk result (λ table. table ≡ record { from_day = from_day; rows = rows }) }
        ensures table { IfOk result (λ table. IsTable table.rows) }
    {
        let Ok(times) = Closed::of(alloc, &rows) else {
            return Err(AllocError);
        };
        let _ = rows.rows();
        Ok(TravelTable {
            from_day,
            rows,
            times,
        })
    }

    /// A table of no rows: it gives no driving time between different places.
    pub fn none(alloc: Global, from_day: Day) -> Result<Self, AllocError>
        ensures value { IfOk result (λ table. table ≡ record { from_day = from_day; rows = [] }) }
    {
        let no_rows = Raw::of(Vec::new(alloc)).unwrap();
        TravelTable::of(alloc, from_day, no_rows)
    }

    /// A copy.
    pub fn copy(&self, alloc: Global) -> Result<Self, AllocError>
        ensures value { IfOk result (λ copy. copy ≡ self.now) }
    {
        Ok(TravelTable {
            from_day: self.from_day,
            rows: self.rows.copy(alloc)?,
            times: self.times.copy(alloc)?,
        })
    }

    /// Its first day.
    pub fn from_day(&self) -> Day
        ensures value { result ≡ self.now.from_day }
    {
        self.from_day
    }

    /// The rows, in order of their places.
    pub fn rows(&self) -> &[Row]
        ensures value { result.now ≡ self.now.rows }
        ensures table { IsTable result.now }
    {
        self.rows.rows()
    }

    /// The driving times, by the shortest chains of its rows.
    pub fn times(&self) -> &Closed
        ensures least { (from to : ℕ) → IsTime self.now.rows from to (time_in result.now from to) }
    {
        &self.times
    }
}

impl Keyed for TravelTable {
    ghost key = { λ table. table.from_day };

    fn key(&self) -> Key {
        Key::of(self.from_day.number())
    }
}

/// Whether the day of a later table has come by `day`.
fn has_newer(tables: &[TravelTable], table: &TravelTable, day: Day) -> bool
    ensures value { result ≡ list_any (is_newer day table.now) tables.now }
{
    for other in tables {
        if table.from_day() < other.from_day() && other.from_day() <= day {
            return true;
        }
    }
    false
}

/// The table that holds on the day, if one does.
pub fn table_on(tables: &[TravelTable], day: Day) -> Option<&TravelTable>
    ensures value { option_copied result ≡ table_on day tables.now }
{
    for table in tables {
        if table.from_day() <= day && !has_newer(tables, table, day) {
            return Some(table);
        }
    }
    None
}
