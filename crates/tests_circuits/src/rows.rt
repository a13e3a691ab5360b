//! A test of copies of rows and of values.
use iv_reference::same;
use iv_rows::{Kind, Row, Value};
use std::alloc::{AllocError, Global};

fn row_of_k_and_2(alloc: Global) -> Result<Row, AllocError> {
    let k = Value::Text(String::from_str(alloc, "k")?);
    Row::new(Vec::from_array(alloc, [k, Value::Int(2)])?)
}

/// Whether a copy of the row is equal to it, and has two values, the second of which is 2.
fn copied_row(row: &Row) -> Result<[bool; 2], AllocError> {
    let copy = row.copy()?;
    Ok([
        same(&copy, row),
        matches!(copy.values(), [_, Value::Int(2)]),
    ])
}

/// The same of a row of k and 2, and whether the copy of a flag is a flag.
fn copied(alloc: Global) -> Result<([bool; 2], bool), AllocError> {
    let flag = Value::Flag(true).copy()?.is_of(Kind::Flag);
    let row = row_of_k_and_2(alloc)?;
    Ok((copied_row(&row)?, flag))
}

#[test]
fn a_copy_is_equal(rt: HostRuntime) {
    assert!(rt; copied(rt.alloc()) == Ok(([true, true], true)));
}
