//! Whether the schema of a database is the desk's. It is compared, field by field, with a schema made in memory.
//!
//! The desk's schema, of any version, has no default, no CHECK and no view, so any of these makes a difference.

ghost use Rattle.std.specs.Prelude.{◌≡◌, ◌↔◌, ◌≤◌, IsTrue, IfOk, IfErr, OnOk, false, []};
ghost use Rattle.std.specs.List.{AllByRecursion};
ghost use Rattle.sqlite.specs.Held.{state};
ghost use Rattle.sqlite.specs.State.{HasCleanDisk};
ghost use Rattle.pt_base_values.specs.declared.fault.Cause.TheVariants as cause;
ghost use Rattle.pt_tables_opening.specs.Faults.{fault};
ghost use Rattle.pt_tables_opening.specs.Plain.{IsPlainColumn, IsPlainTable, IsPlainSchema, no_stamps};
ghost use Rattle.pt_tables_rows.specs.Schema.{desk_schema, no_schema, schema_of, table_version};

use crate::OpenFault;
use pt_tables_rows::{TABLE_VERSION, add_versions};
use sqlite::{Alter, Connection, Error};
use sqlite_items::Items;
use sqlite_schema::code::Terms;
use sqlite_schema::schema::{Column, Index, Reference, Schema, Stamps, Table};
use sqlite_value::keys::Order;
use sqlite_value::value::{Bytes, Value};
use std::alloc::Global;

/// A part of a schema.
trait Part {
    /// What is true of each such part of the desk's schema.
    ghost IsPlain: { Self → Type 0 };

    /// Whether it is the same as a plain one.
    fn is_same(&self, plain: &Self) -> bool
        requires plain { IsPlain plain.now }
        ensures value { IsTrue result ↔ (self.now ≡ plain.now) };
}

/// Whether these parts are the same as plain ones, in the same order.
fn are_same<T: Part>(parts: &[T], plain: &[T]) -> bool
    requires plain { AllByRecursion T.IsPlain plain.now }
    ensures value { IsTrue result ↔ (parts.now ≡ plain.now) }
{
    let [part, parts @ ..] = parts else {
        return plain.is_empty();
    };
    let [first, rest @ ..] = plain else {
        return false;
    };
    part.is_same(first) && are_same(parts, rest)
}

impl Part for usize {
    ghost IsPlain = { λ _. Unit {0} };

    fn is_same(&self, plain: &usize) -> bool {
        *self == *plain
    }
}

impl Part for Order {
    ghost IsPlain = { λ _. Unit {0} };

    fn is_same(&self, plain: &Order) -> bool {
        self.digits == plain.digits
    }
}

impl Part for Bytes {
    ghost IsPlain = { λ _. Unit {0} };

    fn is_same(&self, plain: &Bytes) -> bool {
        self.as_slice() == plain.as_slice()
    }
}

impl<T: Part> Part for Items<T> {
    ghost IsPlain = { λ parts. AllByRecursion T.IsPlain parts };

    fn is_same(&self, plain: &Items<T>) -> bool {
        are_same(self.as_slice(), plain.as_slice())
    }
}

impl Part for Column {
    ghost IsPlain = { IsPlainColumn };

    fn is_same(&self, plain: &Column) -> bool {
        self.name.is_same(&plain.name)
            && self.kind == plain.kind
            && self.is_strict == plain.is_strict
            && self.not_null == plain.not_null
            && matches!(self.default, Value::Null)
            && self.collation == plain.collation
    }
}

impl Part for Reference {
    ghost IsPlain = { λ _. Unit {0} };

    fn is_same(&self, plain: &Reference) -> bool {
        self.columns.is_same(&plain.columns)
            && self.parent.is_same(&plain.parent)
            && self.parent_columns.is_same(&plain.parent_columns)
            && self.on_delete == plain.on_delete
            && self.on_update == plain.on_update
            && self.is_deferred == plain.is_deferred
    }
}

impl Part for Index {
    ghost IsPlain = { λ _. Unit {0} };

    fn is_same(&self, plain: &Index) -> bool {
        self.name.is_same(&plain.name)
            && self.tree == plain.tree
            && self.table == plain.table
            && self.columns.is_same(&plain.columns)
            && self.order.is_same(&plain.order)
            && self.is_unique == plain.is_unique
    }
}

/// Whether there is no term.
fn is_no_term(terms: &Terms) -> bool
    ensures value { IsTrue result ↔ (terms.now ≡ []) }
{
    terms.roots.is_empty()
}

/// Whether no default reads the time.
fn is_no_stamp(stamps: &Stamps) -> bool
    ensures value { IsTrue result ↔ (stamps.now ≡ no_stamps) }
{
    stamps.places.is_empty() && is_no_term(&stamps.terms) && stamps.formats.is_empty()
}

/// Whether two tables have the same name, tree, rowid column and counting of rowids.
fn have_same_heads(table: &Table, plain: &Table) -> bool
    ensures value { IsTrue result ↔ ((table.now.name ≡ plain.now.name) × (table.now.tree ≡ plain.now.tree)
        × (table.now.key ≡ plain.now.key) × (table.now.is_counted ≡ plain.now.is_counted)) }
{
    table.name.is_same(&plain.name)
        && table.tree == plain.tree
        && table.key == plain.key
        && table.is_counted == plain.is_counted
}

/// Whether two tables have the same columns and keys.
fn have_same_columns(table: &Table, plain: &Table) -> bool
    requires plain { AllByRecursion IsPlainColumn plain.now.columns }
    ensures value { IsTrue result ↔ ((table.now.columns ≡ plain.now.columns)
        × (table.now.primary ≡ plain.now.primary) × (table.now.uniques ≡ plain.now.uniques)
        × (table.now.orders ≡ plain.now.orders)) }
{
    table.columns.is_same(&plain.columns)
        && table.primary.is_same(&plain.primary)
        && table.uniques.is_same(&plain.uniques)
        && table.orders.is_same(&plain.orders)
}

/// Whether a table has the references and computed defaults of another, no CHECK and no default that reads the time.
fn have_same_rules(table: &Table, plain: &Table) -> bool
    ensures value { IsTrue result ↔ ((table.now.references ≡ plain.now.references)
        × (table.now.computed ≡ plain.now.computed) × (table.now.checks ≡ []) × (table.now.stamps ≡ no_stamps)) }
{
    table.references.is_same(&plain.references)
        && table.computed.is_same(&plain.computed)
        && is_no_term(&table.checks)
        && is_no_stamp(&table.stamps)
}

impl Part for Table {
    ghost IsPlain = { IsPlainTable };

    fn is_same(&self, plain: &Table) -> bool {
        have_same_heads(self, plain)
            && have_same_columns(self, plain)
            && have_same_rules(self, plain)
    }
}

/// Whether a schema is the same as a plain one.
pub(crate) fn is_same_schema(schema: &Schema, plain: &Schema) -> bool
    requires plain { IsPlainSchema plain.now }
    ensures value { IsTrue result ↔ (schema.now ≡ plain.now) }
{
    schema.tables.is_same(&plain.tables)
        && schema.indexes.is_same(&plain.indexes)
        && schema.views.is_empty()
}

/// Creates the tables of a version in an empty database.
fn make_tables<S: Alter>(conn: &mut Connection<S>, version: u32) -> Result<(), Error>
    requires known { version ≤ table_version }
    requires settled { conn.old.in_transaction ≡ false }
    requires blank { conn.old.schema ≡ no_schema }
    ensures made { HasCleanDisk (state S.Store conn.new) → OnOk result (conn.new.schema ≡ schema_of version) }
{
    let mut tx = conn.transaction();
    add_versions(&mut tx, 0, version)?;
    tx.commit()
}

/// Whether a schema is that of the tables of a version. Fails only if out of memory.
pub(crate) fn is_schema_of(alloc: Global, schema: &Schema, version: u32) -> Result<bool, OpenFault>
    requires known { version ≤ table_version }
    ensures value { IfOk result (λ is. IsTrue is ↔ (schema.now ≡ schema_of version)) }
    ensures faults { IfErr result (λ refused. refused ≡ fault cause.Memory) }
{
    let Ok(mut conn) = Connection::open_in_memory(alloc) else {
        return Err(OpenFault::MEMORY);
    };
    match make_tables(&mut conn, version) {
        Ok(()) => Ok(is_same_schema(schema, conn.schema())),
        // A new database in memory has no disk that can fail. Making its tables fails only if memory runs out.
        Err(_) => Err(OpenFault::MEMORY),
    }
}

/// Whether a schema is that of the desk's tables. Fails only if out of memory.
pub(crate) fn is_desk_schema(alloc: Global, schema: &Schema) -> Result<bool, OpenFault>
    ensures value { IfOk result (λ is. IsTrue is ↔ (schema.now ≡ desk_schema)) }
    ensures faults { IfErr result (λ refused. refused ≡ fault cause.Memory) }
{
    is_schema_of(alloc, schema, TABLE_VERSION)
}
