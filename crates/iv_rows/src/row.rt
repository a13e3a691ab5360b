//! `Row`: values that its copies share; how rows are compared and ordered, and what of them a hasher is fed.
//!
//! A row never changes, so a copy of it shares its values: a row is in memory once, however many tables, totals,
//! indexes and lines have it. Comparisons of a row are written by hand over those that are derived for `Value`: a derive on a
//! type with such a view asks for an inverse of the view, and there is none.
ghost use Rattle.std.specs.Prelude.{◌≡◌, ◌++◌, IfOk, OnOk, refl};
ghost use Rattle.std.specs.Cmp.{partial_equiv_from_equiv, partial_order_from_total};
ghost use Rattle.std.specs.List.{fold, list_all};
ghost use Rattle.std.specs.Ordering.{as_partial_cmp};
ghost use Rattle.iv_rows.specs.Fed.{cell_fed, row_fed, text_fed};
ghost use Rattle.iv_rows.specs.Order.{row_cmp, row_eq};
ghost use Rattle.iv_rows.specs.OrderLaws.{row_cmp_total, row_eq_equiv, row_fed_alike};
ghost use Rattle.iv_rows.specs.Texts.{is_well, is_well_cell};
ghost use Rattle.iv_rows.specs.View.{cell_of, cells_of};

use crate::value::Value;
use std::alloc::{AllocError, Global};
use std::cmp::Ordering;
use std::hash::{Hash, Hasher};
use std::marker::Model;
use std::rc::Rc;

/// The values of the columns of a row, from the left.
///
/// Rows compare from the left, column by column; a row that is the front of another comes before it.
#[derive(Drop)]
pub struct Row(Rc<Vec<Value>>);

impl Model for Row {
    ghost use Rattle.std.specs.Prelude.{List};
    ghost use Rattle.iv_rows.specs.Cell.{Cell};

    ghost Value = { List Cell };

    ghost use Rattle.iv_rows.specs.View.{cells_of};

    ghost view = { λ r. cells_of r.0.value.items };
}

impl Row {
    /// The row of these values.
    ///
    /// # Errors
    /// `AllocError` if a growth of memory was refused.
    pub fn new(values: Vec<Value>) -> Result<Row, AllocError>
        ensures { IfOk result (λ row. row ≡ cells_of values.items) }
    {
        let alloc = *values.allocator();
        let values = Rc::new(alloc, values)?;
        Ok(Row(values))
    }

    /// The values of the row's columns, from the left.
    pub fn values(&self) -> &[Value]
        ensures { cells_of result.now ≡ self.now }
    {
        self.0.as_slice()
    }

    /// What the row took its memory from.
    pub fn allocator(&self) -> Global {
        *self.0.allocator()
    }

    /// An equal row, which shares the values. It takes no memory.
    ///
    /// # Errors
    /// `AllocError` if a row has as many copies as can be counted.
    pub fn copy(&self) -> Result<Row, AllocError>
        ensures { IfOk result (λ row. row ≡ self.now) }
    {
        Ok(Row(self.0.clone()?))
    }

    /// Values equal to the row's, in memory of the same allocator, with space for so many more.
    ///
    /// # Errors
    /// `AllocError` if a growth of memory was refused.
    pub fn copied_values(&self, more: usize) -> Result<Vec<Value>, AllocError>
        ensures { IfOk result (λ values. cells_of values.items ≡ self.now) }
    {
        let values = self.values();
        let mut copies = Vec::with_capacity(self.allocator(), values.len().saturating_add(more))?;
        copy_values(values, &mut copies)?;
        Ok(copies)
    }

    /// Whether a table may hold the row: each text has at most 1,024 bytes and no U+0000.
    pub fn well(&self) -> bool
        ensures { result ≡ is_well self.now }
    {
        are_well(self.values())
    }
}

/// Appends values equal to a row's, in their order.
pub fn copy_values(values: &[Value], copies: &mut Vec<Value>) -> Result<(), AllocError>
    ensures { OnOk result (cells_of copies.new.items ≡ cells_of copies.old.items ++ cells_of values.now) }
{
    for value in values {
        copies.push(value.copy()?)?;
    }
    Ok(())
}

/// Whether a table may hold all the values of a row.
fn are_well(values: &[Value]) -> bool
    ensures { result ≡ list_all (λ v. is_well_cell (cell_of v)) values.now }
{
    values.iter().all(Value::well)
}

/// Whether the values of two rows are equal, column by column. std's comparison of slices takes twice the instructions.
fn are_equal(left: &[Value], right: &[Value]) -> bool
    ensures { result ≡ row_eq (cells_of left.now) (cells_of right.now) }
{
    if left.len() != right.len() {
        return false;
    }
    for place in 0..left.len() {
        if left[place] != right[place] {
            return false;
        }
    }
    true
}

impl PartialEq for Row {
    ghost eq = { row_eq };

    ghost laws = { partial_equiv_from_equiv row_eq_equiv };

    /// Whether two rows have equal values, column by column.
    fn eq(&self, other: &Row) -> bool {
        are_equal(self.values(), other.values())
    }
}

impl Eq for Row {
    ghost laws = { row_eq_equiv };
}

impl PartialOrd for Row {
    ghost partial_cmp = { as_partial_cmp row_cmp };

    ghost laws = { partial_order_from_total row_cmp_total };

    /// How two rows are ordered, as `cmp` says: any two rows have an order.
    fn partial_cmp(&self, other: &Row) -> Option<Ordering> {
        Some(self.cmp(other))
    }
}

impl Ord for Row {
    ghost cmp = { row_cmp };

    ghost total = { row_cmp_total };

    ghost matches_partial_cmp = { λ _ _. refl };

    ghost matches_eq = { λ _ _. refl };

    /// How two rows are ordered: by their values from the left, column by column.
    fn cmp(&self, other: &Row) -> Ordering {
        self.values().cmp(other.values())
    }
}

/// Feeds a hasher a text of a row: the number of its bytes, and the bytes.
fn feed_text<H: Hasher>(bytes: &[u8], state: &mut H)
    ensures { state.new ≡ fold H.write state.old (text_fed bytes.now) }
{
    state.write_usize(bytes.len());
    state.write(bytes);
}

/// Feeds a hasher a value of a row.
fn feed<H: Hasher>(value: &Value, state: &mut H)
    ensures { state.new ≡ fold H.write state.old (cell_fed (cell_of value.now)) }
{
    match value {
        Value::Int(number) => state.write_i64(*number),
        Value::Text(text) => feed_text(text.as_bytes(), state),
        Value::Flag(flag) => state.write_u64(*flag as u64),
    }
}

/// Feeds a hasher the values of a row, in their order.
fn feed_all<H: Hasher>(values: &[Value], state: &mut H)
    ensures { state.new ≡ fold H.write state.old (row_fed (cells_of values.now)) }
{
    for value in values {
        feed(value, state);
    }
}

/// Rows that meet in one collection have the same kinds in the same columns, so neither these nor their number are fed; and all that
/// is fed but a text's bytes are whole words.
impl Hash for Row {
    ghost hash_input = { row_fed };

    ghost respects_eq = { row_fed_alike };

    /// Feeds a hasher the values of the row, in their order.
    fn hash<H: Hasher>(&self, state: &mut H) {
        feed_all(self.values(), state);
    }
}
