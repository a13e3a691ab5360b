//! Two tables of two numbers each, and changes of their rows.
ghost use Rattle.std.specs.Prelude.{◌+ℤ◌, ◌≤ℤ◌, pos, IsTrue, IfSome, List};
ghost use Rattle.iv_algebra.specs.declared.tables.Table.{Table};
ghost use Rattle.iv_algebra.specs.Contents.{rows_of};
ghost use Rattle.iv_circuit.specs.Deltas.{change_in};
ghost use Rattle.tests_circuits.specs.Worlds.{AreSound, HasMore, LeadTo, SameHeads};

use iv_algebra::Tables;
use iv_circuit::Deltas;
use iv_rows::{Column, Kind, RelId, Row, Schema, Value, columns_ok};
use iv_zset::{Meter, Seed};
use std::alloc::{AllocError, Global};

/// A row of a table, and how many copies of it come.
pub(crate) type Entry = (u32, [i64; 2], i64);

fn column(alloc: Global, name: &str) -> Result<Column, AllocError> {
    let name = String::from_str(alloc, name)?;
    Ok(Column {
        name,
        kind: Kind::Int,
    })
}

/// The columns k and v.
fn columns(alloc: Global) -> Result<Vec<Column>, AllocError> {
    let k = column(alloc, "k")?;
    let v = column(alloc, "v")?;
    Ok(Vec::from_array(alloc, [k, v])?)
}

/// Adds a table without rows.
fn add_table(alloc: Global, tables: &mut Tables, table: RelId) -> bool
    requires { AreSound tables.old }
    ensures { AreSound tables.new }
{
    let Ok(columns) = columns(alloc) else {
        return false;
    };
    if !columns_ok(&columns) || tables.has(table) {
        return false;
    }
    match tables.add_table(table, Schema::new(columns)) {
        Ok(()) => true,
        Err(_) => false,
    }
}

/// Tables 0 and 1, without rows.
pub(crate) fn two_tables(alloc: Global) -> Option<Tables>
    ensures { IfSome result (λ tables. AreSound tables) }
{
    two_tables_under(alloc, Seed::known())
}

/// Tables 0 and 1, without rows, under a seed.
pub(crate) fn two_tables_under(alloc: Global, seed: Seed) -> Option<Tables>
    ensures { IfSome result (λ tables. AreSound tables) }
{
    let mut tables = Tables::with_seed(alloc, seed);
    if add_table(alloc, &mut tables, RelId(0)) && add_table(alloc, &mut tables, RelId(1)) {
        Some(tables)
    } else {
        None
    }
}

/// Whether there are at least none.
fn is_enough(copies: i64, more: i64) -> bool
    ensures { IsTrue result → pos 0 ≤ℤ (copies +ℤ more) }
{
    match copies.checked_add(more) {
        Some(sum) => sum >= 0,
        None => false,
    }
}

/// Adds copies of a row to a table, if there are then at least none.
fn put(tables: &mut Tables, table: RelId, row: Row, copies: i64) -> bool
    requires { AreSound tables.old }
    ensures sound { AreSound tables.new }
    ensures heads { SameHeads tables.old tables.new }
    ensures rows { IsTrue result → HasMore table.0 row copies (rows_of tables.old) (rows_of tables.new) }
{
    if !tables.accepts(table, &row) || !tables.has(table) {
        return false;
    }
    let had = tables.table(table).weight(&row, &mut Meter::new());
    if !is_enough(had, copies) {
        return false;
    }
    match tables.change(table, row, copies, &mut Meter::new()) {
        Ok(()) => {
            let _ = tables.table(table);
            true
        }
        Err(_) => false,
    }
}

/// A row of two numbers.
fn row(alloc: Global, numbers: [i64; 2]) -> Result<Row, AllocError> {
    let values = [Value::Int(numbers[0]), Value::Int(numbers[1])];
    Row::new(Vec::from_array(alloc, values)?)
}

/// Adds a change to a table and to the changes of tables.
fn enter(alloc: Global, tables: &mut Tables, deltas: &mut Deltas, entry: Entry) -> bool
    requires { AreSound tables.old }
    ensures sound { AreSound tables.new }
    ensures heads { SameHeads tables.old tables.new }
    ensures leads { IsTrue result → (base : List Table) → LeadTo base tables.old (change_in deltas.old) → LeadTo base tables.new (change_in deltas.new) }
{
    let (number, numbers, copies) = entry;
    let table = RelId(number);
    let Ok(row) = row(alloc, numbers) else {
        return false;
    };
    let Ok(same) = row.copy() else {
        return false;
    };
    if !put(tables, table, row, copies) {
        return false;
    }
    match deltas.add(table, same, copies, &mut Meter::new()) {
        Ok(()) => true,
        Err(_) => false,
    }
}

/// Changes tables, and tells the changes.
pub(crate) fn turn(alloc: Global, tables: &mut Tables, batch: &[Entry]) -> Option<Deltas>
    requires { AreSound tables.old }
    ensures sound { AreSound tables.new }
    ensures heads { SameHeads tables.old tables.new }
    ensures leads { IfSome result (λ deltas. LeadTo tables.old tables.new (change_in deltas)) }
{
    let mut deltas = Deltas::new(alloc);
    for entry in batch {
        if !enter(alloc, tables, &mut deltas, *entry) {
            return None;
        }
    }
    Some(deltas)
}
