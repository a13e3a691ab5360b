//! Z-sets of few rows for cases, and what is seen of an answer.
ghost use Rattle.std.specs.Prelude.{◌≡◌, ◌≤ℤ◌, true, pos, IfOk, OnOk, [], ◌∷◌, ◌++◌, map};
ghost use Rattle.iv_rows.specs.Cell.{num};
ghost use Rattle.iv_rows.specs.View.{cell_of, cells_of};
ghost use Rattle.iv_zset.specs.Weights.{SameZ, IsBag, IsZSet};
ghost use Rattle.iv_delta.specs.Sizes.{IsFew};
ghost use Rattle.tests_circuits.specs.Lines.{key, cells};

use iv_delta::DeltaFault;
use iv_rows::{Row, Value};
use iv_zset::{Meter, ZSet};
use std::alloc::{AllocError, Global};

/// The number of rows of an answer, and the weights of two rows in it.
pub(crate) type Seen = (usize, i64, i64);

/// The text `k`.
fn key(alloc: Global) -> Result<Value, AllocError>
    ensures { IfOk result (λ value. cell_of value ≡ key) }
{
    Ok(Value::Text(String::from_str(alloc, "k")?))
}

fn push_numbers(values: &mut Vec<Value>, numbers: &[i64]) -> Result<(), AllocError>
    ensures { OnOk result (cells_of values.new.items ≡ cells_of values.old.items ++ map num numbers.now) }
{
    for number in numbers {
        values.push(Value::Int(*number))?;
    }
    Ok(())
}

fn push_key(values: &mut Vec<Value>, value: Value) -> Result<(), AllocError>
    ensures { OnOk result (cells_of values.new.items ≡ cells_of values.old.items ++ cell_of value ∷ []) }
{
    values.push(value)?;
    Ok(())
}

/// A row of numbers, after the text `k` if it is keyed.
pub(crate) fn row(alloc: Global, keyed: bool, numbers: &[i64]) -> Result<Row, AllocError>
    ensures { IfOk result (λ row. row ≡ cells keyed numbers.now) }
{
    let mut values = Vec::new(alloc);
    if keyed {
        push_key(&mut values, key(alloc)?)?;
    }
    push_numbers(&mut values, numbers)?;
    Row::new(values)
}

/// Adds to the weight of a row, and tells whether that was done.
pub(crate) fn fill(
    alloc: Global,
    zset: &mut ZSet,
    keyed: bool,
    numbers: &[i64],
    weight: i64,
) -> bool
    ensures rows { result ≡ true → SameZ zset.new ((cells keyed numbers.now, weight) ∷ zset.old) }
    ensures zset { result ≡ true → IsZSet zset.new }
{
    match row(alloc, keyed, numbers) {
        Ok(row) => zset.add(row, weight, &mut Meter::new()).is_ok(),
        Err(_) => false,
    }
}

/// The Z-set of two rows of numbers; a row of weight 0 is not there.
pub(crate) fn two(
    alloc: Global,
    first: &[i64],
    m: i64,
    second: &[i64],
    n: i64,
) -> Result<ZSet, DeltaFault>
    ensures rows { IfOk result (λ zset. SameZ zset ((map num second.now, n) ∷ (map num first.now, m) ∷ [])) }
    ensures few { IfOk result (λ zset. IsFew zset) }
    ensures bag { pos 0 ≤ℤ m → pos 0 ≤ℤ n → IfOk result (λ zset. IsBag zset) }
{
    let mut zset = ZSet::new(alloc);
    if fill(alloc, &mut zset, false, first, m) && fill(alloc, &mut zset, false, second, n) {
        Ok(zset)
    } else {
        Err(DeltaFault::Memory)
    }
}

/// The weight of a row, and a number that no test waits for if memory is short.
fn weight(alloc: Global, zset: &ZSet, keyed: bool, numbers: &[i64]) -> i64 {
    match row(alloc, keyed, numbers) {
        Ok(row) => zset.weight(&row, &mut Meter::new()),
        Err(_) => i64::MIN,
    }
}

/// What is seen of an answer.
pub(crate) fn seen_of(
    alloc: Global,
    answer: Result<ZSet, DeltaFault>,
    keyed: bool,
    first: &[i64],
    second: &[i64],
) -> Result<Seen, DeltaFault> {
    match answer {
        Ok(zset) => {
            let first = weight(alloc, &zset, keyed, first);
            Ok((zset.rows(), first, weight(alloc, &zset, keyed, second)))
        }
        Err(fault) => Err(fault),
    }
}
