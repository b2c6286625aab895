ghost use Rattle.std.specs.Prelude.{◌≡◌, ◌≤◌, [], length, OnOk};
ghost use Rattle.std.specs.Option.{option_copied};
ghost use Rattle.pt_base_records.specs.Records.{IsInOrder, edited, record_at, within};

use crate::edits::{put_records, take_spans};
use crate::searching::{find_record, find_within};
use crate::{Edits, Key, Keyed, Rows, Span};
use std::alloc::{AllocError, Global};
use std::marker::Model;

/// A table of records in the order of their keys, no key twice.
#[derive(Drop)]
pub struct Table<T: Keyed> {
    rows: Vec<T>,
}

impl<T: Keyed> Model for Table<T> {
    ghost use Rattle.std.specs.Prelude.{◌-◌, vec_len, vec_capacity};
    ghost use Rattle.pt_base_records.specs.Records.{Contents, IsInOrder};

    ghost Value = { Contents T };

    ghost view = { λ table. record {
      items = table.rows.items;
      room = vec_capacity table.rows - vec_len table.rows;
    } };

    ghost invariant = { λ table. IsInOrder T.key table.rows.items };
}

impl<T: Keyed> Table<T> {
    /// No record.
    pub fn none(alloc: Global) -> Self
        ensures value { result.items ≡ [] }
    {
        Table {
            rows: Vec::new(alloc),
        }
    }

    /// The records, in order.
    pub fn as_slice(&self) -> &[T]
        ensures value { result.now ≡ self.now.items }
        ensures order { IsInOrder T.key result.now }
    {
        self.rows.as_slice()
    }

    /// The records, as rows that were read.
    pub fn into_rows(self) -> Rows<T>
        ensures value { result ≡ self.items }
    {
        Rows::of(self.rows)
    }

    /// The record with this key.
    pub fn find(&self, key: &Key) -> Option<&T>
        ensures value { option_copied result ≡ record_at T.key key.now self.now.items }
    {
        find_record(&self.rows, key)
    }

    /// The records with these keys.
    pub fn within(&self, span: &Span) -> &[T]
        ensures value { result.now ≡ within T.key span.now self.now.items }
    {
        find_within(&self.rows, span)
    }

    /// Reserves memory for what an edit puts.
    pub fn reserve(&mut self, edits: &Edits<T>) -> Result<(), AllocError>
        ensures items { self.new.items ≡ self.old.items }
        ensures room { OnOk result (length edits.now.puts ≤ self.new.room) }
    {
        Ok(self.rows.reserve(edits.put_count())?)
    }

    /// Makes the edit. `reserve` must have made room for what it puts.
    pub fn edit(&mut self, edits: Edits<T>)
        requires { length edits.puts ≤ self.old.room }
        ensures items { self.new.items ≡ edited T.key edits self.old.items }
    {
        let Edits { away, puts } = edits;
        take_spans(&mut self.rows, &away);
        put_records(&mut self.rows, puts);
    }
}
