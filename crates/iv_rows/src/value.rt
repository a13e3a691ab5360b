//! `Value` and `Kind`: a value of a row and its kind, copies of values, and which texts a table may hold.
ghost use Rattle.std.specs.Prelude.{◌≡◌, ◌==◌, IfOk, nat_le, length};
ghost use Rattle.std.specs.List.{list_any};
ghost use Rattle.iv_rows.specs.Columns.{is_kind};
ghost use Rattle.iv_rows.specs.Texts.{is_well_cell, is_well_text};
ghost use Rattle.iv_rows.specs.View.{cell_of};

use std::alloc::AllocError;

/// The kind of the values in a column.
#[derive(Clone, Copy, Debug, PartialEq, Eq)]
pub enum Kind {
    /// Whole numbers of 64 bits with a sign.
    Int,
    /// Texts.
    Text,
    /// Truth values.
    Flag,
}

/// A value in a column of a row.
///
/// Values of one kind are ordered: numbers by size, texts by their bytes, false before true. Between kinds a number
/// comes before a text and a text before a flag.
#[derive(Drop, PartialEq, Eq, PartialOrd, Ord)]
pub enum Value {
    /// A whole number.
    Int(i64),
    /// A text in UTF-8. In a table it has at most 1,024 bytes and no U+0000 (see [`crate::Row::well`]).
    Text(String),
    /// A truth value.
    Flag(bool),
}

impl Value {
    /// An equal value, in memory of the same allocator.
    ///
    /// # Errors
    /// `AllocError` if a growth of memory was refused.
    pub fn copy(&self) -> Result<Value, AllocError>
        ensures { IfOk result (λ value. cell_of value ≡ cell_of self.now) }
    {
        match self {
            Value::Int(n) => Ok(Value::Int(*n)),
            Value::Text(text) => Ok(Value::Text(String::from_str(*text.allocator(), text)?)),
            Value::Flag(b) => Ok(Value::Flag(*b)),
        }
    }

    /// Whether the value is of the kind.
    pub fn is_of(&self, kind: Kind) -> bool
        ensures { result ≡ is_kind kind (cell_of self.now) }
    {
        match kind {
            Kind::Int => matches!(self, Value::Int(_)),
            Kind::Text => matches!(self, Value::Text(_)),
            Kind::Flag => matches!(self, Value::Flag(_)),
        }
    }

    /// Whether a table may hold the value: a text has at most 1,024 bytes and no U+0000.
    pub fn well(&self) -> bool
        ensures { result ≡ is_well_cell (cell_of self.now) }
    {
        match self {
            Value::Int(_) => true,
            Value::Text(text) => is_well_text(text),
            Value::Flag(_) => true,
        }
    }
}

/// Whether the text has at most 1,024 bytes, as one that a table may hold.
fn is_short(text: &str) -> bool
    ensures { result ≡ nat_le (length text.now) 1024 }
{
    text.len() <= 1024
}

/// Whether the text has U+0000, which no table may hold.
fn has_zero(text: &str) -> bool
    ensures { result ≡ list_any (λ b. b == 0) text.now }
{
    text.as_bytes().iter().any(|byte| *byte == 0)
}

/// Whether a table may hold the text.
pub fn is_well_text(text: &str) -> bool
    ensures { result ≡ is_well_text text.now }
{
    if !is_short(text) {
        return false;
    }
    !has_zero(text)
}
