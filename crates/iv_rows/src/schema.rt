//! `Schema`: the columns of a relation, their rules, and whether a row fits them; `Column`; `RelId`, a relation's number.
ghost use Rattle.std.specs.Prelude.{◌≡◌, ◌&&◌, IfOk, true};
ghost use Rattle.std.specs.Prelude.{bytes_eq};
ghost use Rattle.std.specs.List.{list_all, list_any};
ghost use Rattle.iv_rows.specs.Columns.{accepts, kinds_of, has_columns, has_distinct_names, is_wide};
ghost use Rattle.iv_rows.specs.Names.{is_name};
ghost use Rattle.iv_rows.specs.View.{cells_of};

use crate::name::name_ok;
use crate::row::Row;
use crate::value::{Kind, Value};
use std::alloc::{AllocError, Global};
use std::marker::Model;

/// The number of a table or a view.
#[derive(Clone, Copy, Debug, PartialEq, Eq, PartialOrd, Ord, Hash)]
pub struct RelId(pub u32);

/// A column of a table or a view.
#[derive(Drop)]
pub struct Column {
    /// What queries and policies call it.
    pub name: String,
    /// The kind of its values.
    pub kind: Kind,
}

impl Model for Column {
    ghost use Rattle.std.specs.Prelude.{string_bytes};
    ghost use Rattle.iv_rows.specs.Columns.{Column};

    ghost Value = { Column };

    ghost view = { λ c. record { name = string_bytes c.name; kind = c.kind } };
}

/// The columns of a table or a view, from the left: 1 to 16, with distinct names.
///
/// Source: PostgreSQL 16, CREATE TABLE, in the profile of docs/PROTOCOL.md.
#[derive(Drop)]
pub struct Schema {
    /// The columns, from the left.
    columns: Vec<Column>,
}

impl Model for Schema {
    ghost use Rattle.std.specs.Prelude.{List, IsTrue, ◌&&◌};
    ghost use Rattle.iv_rows.specs.Columns.{Column, has_columns, has_distinct_names};

    ghost Value = { List Column };

    ghost view = { λ s. s.columns.items };

    ghost invariant = { λ s. IsTrue (has_columns s.columns.items && has_distinct_names s.columns.items) };
}

impl Schema {
    /// The schema with these columns, which are those of one ([`columns_ok`]). It takes no memory.
    pub fn new(columns: Vec<Column>) -> Schema
        requires { (has_columns columns.items && has_distinct_names columns.items) ≡ true }
        ensures { result ≡ columns.items }
    {
        Schema { columns }
    }

    /// The same schema: equal columns in their order.
    ///
    /// # Errors
    /// `AllocError` if a growth of memory was refused.
    pub fn copy(&self, alloc: Global) -> Result<Schema, AllocError>
        ensures { IfOk result (λ copy. copy ≡ self.now) }
    {
        let mut columns = Vec::with_capacity(alloc, self.columns.len())?;
        for column in self.columns() {
            columns.push(Column {
                name: String::from_str(alloc, column.name.as_str())?,
                kind: column.kind,
            })?;
        }
        Ok(Schema { columns })
    }

    /// The columns of the schema, from the left.
    pub fn columns(&self) -> &[Column]
        ensures columns { result.now ≡ self.now }
        ensures schema { (has_columns self.now && has_distinct_names self.now) ≡ true }
    {
        &self.columns
    }

    /// Whether the row fits the schema: as many values as columns, each of its column's kind.
    pub fn accepts(&self, row: &Row) -> bool
        ensures { result ≡ accepts (kinds_of self.now) row.now }
    {
        are_of(&self.columns, row.values())
    }
}

/// Whether they are the columns of a schema: 1 to 16, each with a name (see [`crate::name_ok`]), and none twice.
///
/// Source: PostgreSQL 16, CREATE TABLE, in the profile of docs/PROTOCOL.md.
pub fn columns_ok(columns: &[Column]) -> bool
    ensures { result ≡ (has_columns columns.now && has_distinct_names columns.now) }
{
    has_columns(columns) && are_distinct(columns)
}

/// Whether a row's values fit the columns of a schema: as many, each of its column's kind.
fn are_of(columns: &[Column], values: &[Value]) -> bool
    ensures { result ≡ accepts (kinds_of columns.now) (cells_of values.now) }
{
    if values.len() != columns.len() {
        return false;
    }
    for place in 0..columns.len() {
        let column = &columns[place];
        if !values[place].is_of(column.kind) {
            return false;
        }
    }
    true
}

/// Whether there are 1 to 16 columns, as a schema has.
fn is_wide(columns: &[Column]) -> bool
    ensures { result ≡ is_wide columns.now }
{
    1 <= columns.len() && columns.len() <= 16
}

/// Whether there are 1 to 16 columns, each with a name, as a schema has.
fn has_columns(columns: &[Column]) -> bool
    ensures { result ≡ has_columns columns.now }
{
    if !is_wide(columns) {
        return false;
    }
    are_named(columns)
}

/// Whether each column's name is one, as those of a schema are.
fn are_named(columns: &[Column]) -> bool
    ensures { result ≡ list_all (λ c. is_name c.name) columns.now }
{
    columns.iter().all(|column| name_ok(column.name.as_str()))
}

/// Whether one of these columns of a schema has the name.
fn has_name(columns: &[Column], name: &str) -> bool
    ensures { result ≡ list_any (λ c. bytes_eq name.now c.name) columns.now }
{
    columns.iter().any(|column| name == column.name.as_str())
}

/// Whether no two columns have one name, as in a schema.
fn are_distinct(columns: &[Column]) -> bool
    ensures { result ≡ has_distinct_names columns.now }
{
    for place in 0..columns.len() {
        let column = &columns[place];
        if has_name(&columns[place + 1..], column.name.as_str()) {
            return false;
        }
    }
    true
}
