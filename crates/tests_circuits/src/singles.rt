//! Cases of the steps of linear operators, of unions and of sets, on small Z-sets.
ghost use Rattle.std.specs.Prelude.{◌≡◌, ◌<◌, [], ◌∷◌, IfOk, length};
ghost use Rattle.std.specs.List.{All};
ghost use Rattle.iv_zset.specs.Weights.{IsBag};
ghost use Rattle.iv_delta.specs.Sizes.{IsFew, OfRows};

use crate::positive::Positive;
use crate::sets::{Seen, seen_of, two};
use iv_algebra::{Comparison, Operand, Pred};
use iv_delta::{DeltaFault, Filter, Project, step_distinct, step_except, step_linear, step_union};
use iv_rows::Value;
use iv_zset::{Meter, ZSet};
use std::alloc::{AllocError, Global};

const ROW_LIMIT: usize = 1_024;

fn above_one() -> Filter {
    Filter {
        pred: Pred::Compare(
            Operand::Column(0),
            Comparison::Greater,
            Operand::Literal(Value::Int(1)),
        ),
    }
}

/// The rows above 1: row 1 comes five times, and row 2 goes.
pub(crate) fn filtered(alloc: Global) -> Result<Seen, DeltaFault> {
    let out = two(alloc, &[2], 1, &[2], 0)?;
    let d = two(alloc, &[1], 5, &[2], -1)?;
    let filter = above_one();
    let answer = step_linear(alloc, &filter, &out, &d, ROW_LIMIT, &mut Meter::new());
    drop(filter);
    drop(out);
    drop(d);
    seen_of(alloc, answer, false, &[1], &[2])
}

fn first_column(alloc: Global) -> Result<Project, AllocError>
    ensures { IfOk result (λ project. project.columns.items ≡ 0 ∷ []) }
{
    Ok(Project {
        columns: Vec::from_array(alloc, [0])?,
    })
}

fn step_project(alloc: Global, out: &ZSet, d: &ZSet) -> Result<ZSet, DeltaFault>
    requires few { IsFew d.now }
    requires bag { IsBag out.now }
    requires rows { OfRows (λ q. All (λ k. k < length q) (0 ∷ [])) d.now }
{
    let project = first_column(alloc)?;
    let answer = step_linear(alloc, &project, out, d, ROW_LIMIT, &mut Meter::new());
    drop(project);
    answer
}

/// The first column: a row comes and one goes, both with a 1 there.
pub(crate) fn projected(alloc: Global) -> Result<Seen, DeltaFault> {
    let out = two(alloc, &[1], 1, &[1], 0)?;
    let d = two(alloc, &[1, 5], 1, &[1, 6], -1)?;
    let answer = step_project(alloc, &out, &d);
    drop(out);
    drop(d);
    seen_of(alloc, answer, false, &[1], &[1])
}

/// Whether a number is above 0: two rows with a 5 come, and one with a -1.
pub(crate) fn signs(alloc: Global) -> Result<Seen, DeltaFault> {
    let out = two(alloc, &[1], 1, &[1], 0)?;
    let d = two(alloc, &[5], 2, &[-1], 1)?;
    let positive = Positive { column: 0 };
    let answer = step_linear(alloc, &positive, &out, &d, ROW_LIMIT, &mut Meter::new());
    drop(out);
    drop(d);
    seen_of(alloc, answer, false, &[1], &[0])
}

/// The union if rows 1 and 7 change by these weights on the right, too.
fn step_other(
    alloc: Global,
    out: &ZSet,
    da: &ZSet,
    right: (i64, i64),
    cap: usize,
) -> Result<ZSet, DeltaFault>
    requires bag { IsBag out.now }
    requires few { IsFew da.now }
{
    let db = two(alloc, &[1], right.0, &[7], right.1)?;
    let answer = step_union(alloc, out, da, &db, cap, &mut Meter::new());
    drop(db);
    answer
}

fn step_both(
    alloc: Global,
    out: &ZSet,
    left: (i64, i64),
    right: (i64, i64),
    cap: usize,
) -> Result<ZSet, DeltaFault>
    requires { IsBag out.now }
{
    let da = two(alloc, &[1], left.0, &[7], left.1)?;
    let answer = step_other(alloc, out, &da, right, cap);
    drop(da);
    answer
}

/// The union if rows 1 and 7 change by these weights on each side, and the old output has row 1.
pub(crate) fn united(
    alloc: Global,
    out: i64,
    left: (i64, i64),
    right: (i64, i64),
    cap: usize,
) -> Result<Seen, DeltaFault> {
    if out < 0 {
        return Err(DeltaFault::Memory);
    }
    let out = two(alloc, &[1], out, &[1], 0)?;
    let answer = step_both(alloc, &out, left, right, cap);
    drop(out);
    seen_of(alloc, answer, false, &[1], &[7])
}

/// The rows once each, if row 1 has a weight and changes by another.
pub(crate) fn once(alloc: Global, old: i64, change: i64) -> Result<Seen, DeltaFault> {
    let a = two(alloc, &[1], old, &[1], 0)?;
    let d = two(alloc, &[1], change, &[1], 0)?;
    let answer = step_distinct(alloc, &a, &d, ROW_LIMIT, &mut Meter::new());
    drop(a);
    drop(d);
    seen_of(alloc, answer, false, &[1], &[1])
}

/// The rows on the left alone, if row 1 changes by this weight on the right, too.
fn step_right_side(
    alloc: Global,
    a: &ZSet,
    b: &ZSet,
    da: &ZSet,
    right: i64,
) -> Result<ZSet, DeltaFault>
    requires { IsFew da.now }
{
    let db = two(alloc, &[1], right, &[1], 0)?;
    let answer = step_except(alloc, a, b, da, &db, ROW_LIMIT, &mut Meter::new());
    drop(db);
    answer
}

fn step_sides(
    alloc: Global,
    a: &ZSet,
    b: &ZSet,
    left: i64,
    right: i64,
) -> Result<ZSet, DeltaFault> {
    let da = two(alloc, &[1], left, &[1], 0)?;
    let answer = step_right_side(alloc, a, b, &da, right);
    drop(da);
    answer
}

/// The rows on the left alone, if row 1 has a weight and changes by another on each side.
pub(crate) fn alone(
    alloc: Global,
    left: (i64, i64),
    right: (i64, i64),
) -> Result<Seen, DeltaFault> {
    let a = two(alloc, &[1], left.0, &[1], 0)?;
    let b = two(alloc, &[1], right.0, &[1], 0)?;
    let answer = step_sides(alloc, &a, &b, left.1, right.1);
    drop(a);
    drop(b);
    seen_of(alloc, answer, false, &[1], &[1])
}
