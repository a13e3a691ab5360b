//! Tests of `eval` of a group at the limits of sums.
ghost use Rattle.std.specs.Prelude.{◌≡◌};
ghost use Rattle.iv_zset.specs.Weights.{weight_of};

use crate::plans::scan;
use iv_algebra::{Agg, Plan, Tables};
use iv_reference::{AlgFault, eval, fits};
use iv_rows::{Column, Kind, RelId, Row, Schema, Value, columns_ok};
use iv_zset::{Meter, ZSet};
use std::alloc::{AllocError, Global};
use std::test::Fail;

const NOTES: RelId = RelId(0);

/// 2^62.
const HALF: i64 = 4_611_686_018_427_387_904;

/// A note, and its copies.
type Note = (&'static str, i64, i64);

/// A row of a text and a number.
fn row(alloc: Global, key: &str, number: i64) -> Result<Row, AllocError> {
    let key = Value::Text(String::from_str(alloc, key)?);
    Row::new(Vec::from_array(alloc, [key, Value::Int(number)])?)
}

fn column(alloc: Global, name: &str, kind: Kind) -> Result<Column, AllocError> {
    let name = String::from_str(alloc, name)?;
    Ok(Column { name, kind })
}

/// The columns k, a text, and x, a number.
fn columns(alloc: Global) -> Result<Vec<Column>, AllocError> {
    let k = column(alloc, "k", Kind::Text)?;
    let x = column(alloc, "x", Kind::Int)?;
    Ok(Vec::from_array(alloc, [k, x])?)
}

/// The notes, without rows.
fn no_notes(alloc: Global) -> Result<Tables, Fail> {
    let columns = columns(alloc)?;
    if !columns_ok(&columns) {
        drop(columns);
        return Err(Fail::from("columns of no table"));
    }
    let mut tables = Tables::new(alloc);
    match tables.add_table(NOTES, Schema::new(columns)) {
        Ok(()) => Ok(tables),
        Err(fault) => {
            drop(tables);
            Err(Fail::from(fault))
        }
    }
}

fn weight(rows: &ZSet, row: &Row) -> i64
    ensures { result ≡ weight_of rows.now row.now }
{
    rows.weight(row, &mut Meter::new())
}

/// Adds to the copies of a note, and tells whether that was done: it is of the kinds of the notes, and there are then at least none.
fn put(tables: &mut Tables, row: Row, copies: i64) -> bool {
    if tables.accepts(NOTES, &row)
        && i128::from(weight(tables.table(NOTES), &row)) + i128::from(copies) >= 0
    {
        tables.change(NOTES, row, copies, &mut Meter::new()).is_ok()
    } else {
        drop(row);
        false
    }
}

/// Adds to the copies of these notes.
fn put_all(alloc: Global, tables: &mut Tables, notes: &[Note]) -> Result<(), Fail> {
    for (key, number, copies) in notes {
        if !put(tables, row(alloc, key, *number)?, *copies) {
            return Err(Fail::new("no note that can be put"));
        }
    }
    Ok(())
}

/// How often a row is there.
fn copies(alloc: Global, rows: &ZSet, key: &str, number: i64) -> Result<i64, AllocError> {
    let row = row(alloc, key, number)?;
    let answer = weight(rows, &row);
    drop(row);
    Ok(answer)
}

/// The sums of x by k.
fn sums(alloc: Global) -> Result<Plan, AllocError> {
    let keys = Vec::from_array(alloc, [0])?;
    let aggs = Vec::from_array(alloc, [Agg::Sum(1)])?;
    let input = scan(alloc, 0)?;
    Ok(Plan::Group { keys, aggs, input })
}

/// What the plan gives; none if it does not fit.
fn evaluated(alloc: Global, plan: &Plan, tables: &Tables) -> Option<Result<ZSet, AlgFault>> {
    if fits(plan, tables) {
        Some(eval(alloc, plan, tables, 1_024, &mut Meter::new()))
    } else {
        None
    }
}

/// How many rows the plan gives over these tables, and how often `k` with the least sum is there; none if it breaks a limit.
fn outcome_over(alloc: Global, plan: &Plan, tables: &Tables) -> Result<Option<(usize, i64)>, Fail> {
    match evaluated(alloc, plan, tables) {
        Some(Ok(rows)) => {
            let copies = copies(alloc, &rows, "k", i64::MIN);
            let count = rows.rows();
            drop(rows);
            Ok(Some((count, copies?)))
        }
        Some(Err(AlgFault::Limit)) => Ok(None),
        Some(Err(AlgFault::Memory)) => Err(Fail::new("the plan gives no rows")),
        None => Err(Fail::new("the plan does not fit")),
    }
}

/// The same over tables without rows, if these notes are added.
fn outcome_filled(
    alloc: Global,
    plan: &Plan,
    tables: &mut Tables,
    notes: &[Note],
) -> Result<Option<(usize, i64)>, Fail> {
    put_all(alloc, tables, notes)?;
    outcome_over(alloc, plan, tables)
}

/// The same over new tables.
fn outcome_of(alloc: Global, plan: &Plan, notes: &[Note]) -> Result<Option<(usize, i64)>, Fail> {
    let mut tables = no_notes(alloc)?;
    let answer = outcome_filled(alloc, plan, &mut tables, notes);
    drop(tables);
    answer
}

/// The same of the sums.
fn summed(alloc: Global, notes: &[Note]) -> Result<Option<(usize, i64)>, Fail> {
    let plan = sums(alloc)?;
    let answer = outcome_of(alloc, &plan, notes);
    drop(plan);
    answer
}

/// A sum too large, a share too large, and the least sum.
#[test]
fn sums_have_limits(rt: HostRuntime) -> Result<(), Fail> {
    let large = summed(rt.alloc(), &[("k", 2, HALF)])?;
    let share = summed(rt.alloc(), &[("k", 2, HALF), ("k", -4, 1)])?;
    let least = summed(rt.alloc(), &[("k", -2, HALF)])?;
    assert!(rt; [large, share, least] == [None, None, Some((1, 1))]);
    Ok(())
}
