//! `SentRows`: rows with their weights and their JSON text, which the lines of all readers of a circuit share.
//!
//! The text is written once, token by token, however many lines send it. The token writer on which `serde_json` is built says that
//! what it writes of a value's tokens is the value's compact text, so an answer is still what `serde_json` writes of its value.
ghost use Rattle.std.specs.Prelude.{◌≡◌, ◌==◌, IfOk, OnOk, length};
ghost use Rattle.iv_rows.specs.View.{cell_of, cells_of};
ghost use Rattle.iv_command.specs.RowTexts.{cell_data, entry_data, row_data, rows_data, rows_text};
ghost use Rattle.iv_command.specs.Tokens.{AddsValue};

use iv_rows::{Row, Value};
use json::Writer;
use std::alloc::{AllocError, Global};
use std::marker::Model;

/// The space that a text is begun with, in bytes: that of a row or two.
const SHORT_TEXT: usize = 64;

/// Rows with their weights, and their JSON text.
#[derive(Drop)]
pub struct SentRows {
    /// The rows with their weights.
    rows: Vec<(Row, i64)>,
    /// The JSON text of these, as bytes.
    text: Vec<u8>,
}

impl Model for SentRows {
    ghost use Rattle.std.specs.Prelude.{◌≡◌};
    ghost use Rattle.iv_zset.specs.Weights.{Weighed};
    ghost use Rattle.iv_command.specs.RowTexts.{rows_text};

    ghost Value = { Weighed };

    ghost view = { λ s. s.rows.items };

    ghost invariant = { λ s. s.text.items ≡ rows_text s.rows.items };
}

impl SentRows {
    /// The rows that are sent, with their weights, whose JSON text is written now.
    ///
    /// # Errors
    /// `AllocError` if a growth of memory was refused.
    pub fn new(alloc: Global, rows: Vec<(Row, i64)>) -> Result<SentRows, AllocError>
        ensures { IfOk result (λ sent. sent ≡ rows.items) }
    {
        let text = write_rows(alloc, &rows)?;
        Ok(SentRows { rows, text })
    }

    /// Whether there is no row among those that are sent.
    pub fn is_empty(&self) -> bool
        ensures { result ≡ (length self.now == 0) }
    {
        self.rows.is_empty()
    }

    /// The compact JSON text of the rows that are sent.
    pub fn text(&self) -> &[u8]
        ensures { result.now ≡ rows_text self.now }
    {
        &self.text
    }
}

/// Writes one value of a row as JSON.
fn put_cell(out: &mut Writer, cell: &Value) -> Result<(), AllocError>
    ensures { OnOk result (AddsValue out.old out.new (cell_data (cell_of cell.now))) }
{
    match cell {
        Value::Int(n) => out.i64(*n),
        Value::Text(text) => out.string(text.as_str()),
        Value::Flag(flag) => out.boolean(*flag),
    }
}

/// Writes the values of a row as a JSON array, without the row's weight.
fn put_cells(out: &mut Writer, cells: &[Value]) -> Result<(), AllocError>
    ensures { OnOk result (AddsValue out.old out.new (row_data (cells_of cells.now))) }
{
    out.begin_array()?;
    for cell in cells {
        put_cell(out, cell)?;
    }
    out.end_array()
}

/// Writes the weight of a row and then its values, as a JSON array.
fn put_weighed(out: &mut Writer, weight: i64, cells: &[Value]) -> Result<(), AllocError>
    ensures { OnOk result (AddsValue out.old out.new (entry_data (cells_of cells.now, weight))) }
{
    out.begin_array()?;
    out.i64(weight)?;
    put_cells(out, cells)?;
    out.end_array()
}

/// Writes an entry of the rows that are sent, a row and its weight, as a JSON array.
fn put_entry(out: &mut Writer, entry: &(Row, i64)) -> Result<(), AllocError>
    ensures { OnOk result (AddsValue out.old out.new (entry_data entry.now)) }
{
    put_weighed(out, entry.1, entry.0.values())
}

/// Writes the rows that are sent, each with its weight, as a JSON array.
fn put_rows(out: &mut Writer, rows: &[(Row, i64)]) -> Result<(), AllocError>
    ensures { OnOk result (AddsValue out.old out.new (rows_data rows.now)) }
{
    out.begin_array()?;
    for entry in rows {
        put_entry(out, entry)?;
    }
    out.end_array()
}

/// The compact JSON text of the rows that are sent, with their weights.
fn write_rows(alloc: Global, rows: &[(Row, i64)]) -> Result<Vec<u8>, AllocError>
    ensures { IfOk result (λ text. text.items ≡ rows_text rows.now) }
{
    let room = Vec::with_capacity(alloc, SHORT_TEXT)?;
    let mut out = Writer::new(room);
    put_rows(&mut out, rows)?;
    Ok(out.into_inner())
}
