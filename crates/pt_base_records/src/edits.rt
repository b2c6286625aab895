ghost use Rattle.std.specs.Prelude.{◌≡◌, ℕ, ◌+◌, ◌<◌, ◌≤◌, [], ◌∷◌, ◌++◌, length, MatchResult, OnOk, vec_len};
ghost use Rattle.std.specs.Prelude.{vec_capacity, insert, slice_set};
ghost use Rattle.pt_base_records.specs.Records.{IsInOrder, put, put_all, take_away, take_all};

use crate::searching::position_of;
use crate::{Keyed, Span};
use std::alloc::{AllocError, Global};
use std::marker::Model;

/// An edit of a table: what is taken away first, and then what is put into it.
#[derive(Drop)]
pub struct Edits<T> {
    pub(crate) away: Vec<Span>,
    pub(crate) puts: Vec<T>,
}

impl<T> Model for Edits<T> {
    ghost use Rattle.pt_base_records.specs.Records.{Edit};

    ghost Value = { Edit T };

    ghost view = { λ edits. record { away = edits.away.items; puts = edits.puts.items } };
}

impl<T: Keyed> Edits<T> {
    /// An edit that changes nothing.
    pub fn none(alloc: Global) -> Self
        ensures value { result ≡ record { away = []; puts = [] } }
    {
        Edits {
            away: Vec::new(alloc),
            puts: Vec::new(alloc),
        }
    }

    /// Adds a record to put.
    pub fn put(&mut self, new: T) -> Result<(), AllocError>
        ensures value { OnOk result (self.new ≡ record { away = self.old.away; puts = self.old.puts ++ new ∷ [] }) }
    {
        Ok(self.puts.push(new)?)
    }

    /// Adds a span of keys whose records are taken away.
    pub fn take_away(&mut self, span: Span) -> Result<(), AllocError>
        ensures value { OnOk result (self.new ≡ record { away = self.old.away ++ span ∷ []; puts = self.old.puts }) }
    {
        Ok(self.away.push(span)?)
    }

    /// The keys of the records that are taken away.
    pub fn spans(&self) -> &[Span]
        ensures value { result.now ≡ self.now.away }
    {
        self.away.as_slice()
    }

    /// The records that are put, in their order.
    pub fn puts(&self) -> &[T]
        ensures value { result.now ≡ self.now.puts }
    {
        self.puts.as_slice()
    }

    /// How many records are put.
    pub fn put_count(&self) -> usize
        ensures value { result ≡ length self.now.puts }
    {
        self.puts.len()
    }
}

/// The record's position: of the record with its key, which it replaces (`Ok`), or before which it goes (`Err`).
fn place_for<T: Keyed>(records: &[T], added: &T) -> Result<usize, usize>
    requires { IsInOrder T.key records.now }
    ensures { MatchResult result
        (λ at. (at < length records.now) × (slice_set records.now at added.now ≡ put T.key added.now records.now))
        (λ at. (at ≤ length records.now) × (insert records.now at added.now ≡ put T.key added.now records.now)) }
{
    position_of(records, &added.key())
}

/// Puts a record in its place. There must be room for one more.
fn put_record<T: Keyed>(records: &mut Vec<T>, added: T)
    requires order { IsInOrder T.key records.old.items }
    requires room { vec_len records.old < vec_capacity records.old }
    ensures items { records.new.items ≡ put T.key added records.old.items }
    ensures order { IsInOrder T.key records.new.items }
    ensures len { vec_len records.new ≤ vec_len records.old + 1 }
    ensures capacity { vec_capacity records.old ≤ vec_capacity records.new }
{
    match place_for(records, &added) {
        Ok(at) => records[at] = added,
        Err(at) => {
            let _ = records.insert(at, added);
        }
    }
}

/// Puts each of the records in its place. There must be room for all of them.
pub(crate) fn put_records<T: Keyed>(records: &mut Vec<T>, news: Vec<T>)
    requires order { IsInOrder T.key records.old.items }
    requires room { vec_len records.old + length news.items ≤ vec_capacity records.old }
    ensures { records.new.items ≡ put_all T.key news.items records.old.items }
{
    for new in news {
        put_record(records, new);
    }
}

fn take_span<T: Keyed>(records: &mut Vec<T>, span: &Span)
    ensures items { records.new.items ≡ take_away T.key span.now records.old.items }
    ensures len { vec_len records.new ≤ vec_len records.old }
    ensures capacity { vec_capacity records.old ≤ vec_capacity records.new }
{
    records.retain(|there| !span.has(&there.key()));
}

/// Takes away all records with the keys of these spans.
pub(crate) fn take_spans<T: Keyed>(records: &mut Vec<T>, spans: &[Span])
    ensures items { records.new.items ≡ take_all T.key spans.now records.old.items }
    ensures len { vec_len records.new ≤ vec_len records.old }
    ensures capacity { vec_capacity records.old ≤ vec_capacity records.new }
{
    for span in spans {
        take_span(records, span);
    }
}
