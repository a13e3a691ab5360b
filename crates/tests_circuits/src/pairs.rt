//! Cases of `step_bilinear` and `step_group`, on Z-sets of one row or two.
ghost use Rattle.std.specs.Prelude.{◌≡◌, ◌≤ℤ◌, ◌+ℤ◌, ◌*ℤ◌, ℤ, pos, [], ◌∷◌, map, IfOk};
ghost use Rattle.iv_rows.specs.Cell.{num};
ghost use Rattle.iv_zset.specs.Weights.{InRange};
ghost use Rattle.tests_circuits.specs.Pairs.{MakesPair};

use crate::product::Product;
use crate::sets::{Seen, fill, seen_of};
use iv_algebra::Agg;
use iv_delta::{DeltaFault, Join};
use iv_reference::{Bilinear, step_bilinear, step_group};
use iv_zset::{Meter, ZSet};
use std::alloc::{AllocError, Global};

const ROW_LIMIT: usize = 1_024;

/// The rows of a case.
#[derive(Clone, Copy)]
struct Rows<'a> {
    left: &'a [i64],
    right: &'a [i64],
    both: &'a [i64],
}

/// Fills empty inputs, and takes the step.
fn step_filled_pair<B: Bilinear>(
    alloc: Global,
    bilinear: &B,
    rows: Rows<'_>,
    left: &mut ZSet,
    right: &mut ZSet,
    out: &mut ZSet,
    left_change: &mut ZSet,
    right_change: &mut ZSet,
    a: i64,
    da: i64,
    b: i64,
    db: i64,
    weight: i64,
) -> Result<ZSet, DeltaFault>
    requires empty_left { left.old ≡ [] }
    requires empty_right { right.old ≡ [] }
    requires empty_out { out.old ≡ [] }
    requires empty_left_change { left_change.old ≡ [] }
    requires empty_right_change { right_change.old ≡ [] }
    requires left { B.takes_left bilinear.now (map num rows.left.now) }
    requires right { B.takes_right bilinear.now (map num rows.right.now) }
    requires pair { MakesPair (B.image bilinear.now) rows.left.now rows.right.now rows.both.now }
    requires old { weight ≡ b *ℤ a }
    requires bag { pos 0 ≤ℤ weight }
    requires new_left { InRange (da +ℤ a) }
{
    if fill(alloc, left, false, rows.left, a)
        && fill(alloc, right, false, rows.right, b)
        && fill(alloc, out, false, rows.both, weight)
        && fill(alloc, left_change, false, rows.left, da)
        && fill(alloc, right_change, false, rows.right, db)
    {
        step_bilinear(
            alloc,
            bilinear,
            left,
            right,
            out,
            left_change,
            right_change,
            ROW_LIMIT,
            &mut Meter::new(),
        )
    } else {
        Err(DeltaFault::Memory)
    }
}

/// The step if the left row and the right row have a weight and change by another, and the old output has their pair.
fn step_pair<B: Bilinear>(
    alloc: Global,
    bilinear: &B,
    rows: Rows<'_>,
    a: i64,
    da: i64,
    b: i64,
    db: i64,
    weight: i64,
) -> Result<ZSet, DeltaFault>
    requires left { B.takes_left bilinear.now (map num rows.left.now) }
    requires right { B.takes_right bilinear.now (map num rows.right.now) }
    requires pair { MakesPair (B.image bilinear.now) rows.left.now rows.right.now rows.both.now }
    requires old { weight ≡ b *ℤ a }
    requires bag { pos 0 ≤ℤ weight }
    requires new_left { InRange (da +ℤ a) }
{
    let mut left = ZSet::new(alloc);
    let mut right = ZSet::new(alloc);
    let mut out = ZSet::new(alloc);
    let mut left_change = ZSet::new(alloc);
    let mut right_change = ZSet::new(alloc);
    let answer = step_filled_pair(
        alloc,
        bilinear,
        rows,
        &mut left,
        &mut right,
        &mut out,
        &mut left_change,
        &mut right_change,
        a,
        da,
        b,
        db,
        weight,
    );
    drop(left);
    drop(right);
    drop(out);
    drop(left_change);
    drop(right_change);
    answer
}

pub(crate) fn on_first_columns(alloc: Global) -> Result<Join, AllocError>
    ensures { IfOk result (λ join. (join.left ≡ 2) × (join.pairs.items ≡ (0, 0) ∷ [])) }
{
    let pairs = Vec::from_array(alloc, [(0, 0)])?;
    let mut left = Meter::new();
    left.tick();
    left.tick();
    Ok(Join { left, pairs })
}

/// The join on the first column.
pub(crate) fn joined(
    alloc: Global,
    a: i64,
    da: i64,
    b: i64,
    db: i64,
    weight: i64,
) -> Result<Seen, DeltaFault>
    requires old { weight ≡ b *ℤ a }
    requires bag { pos 0 ≤ℤ weight }
    requires new_left { InRange (da +ℤ a) }
{
    let join = on_first_columns(alloc)?;
    let rows = Rows {
        left: &[1, 2],
        right: &[1, 7],
        both: &[1, 2, 1, 7],
    };
    let answer = step_pair(alloc, &join, rows, a, da, b, db, weight);
    seen_of(alloc, answer, false, rows.both, rows.both)
}

/// The product without keys.
pub(crate) fn multiplied(
    alloc: Global,
    a: i64,
    da: i64,
    b: i64,
    db: i64,
    weight: i64,
) -> Result<Seen, DeltaFault>
    requires old { weight ≡ b *ℤ a }
    requires bag { pos 0 ≤ℤ weight }
    requires new_left { InRange (da +ℤ a) }
{
    let rows = Rows {
        left: &[1],
        right: &[7],
        both: &[1, 7],
    };
    let answer = step_pair(alloc, &Product { left: 1 }, rows, a, da, b, db, weight);
    seen_of(alloc, answer, false, rows.both, rows.both)
}

/// Fills empty inputs, and takes the step.
fn step_filled_groups(
    alloc: Global,
    aggs: &[Agg],
    a: &mut ZSet,
    d: &mut ZSet,
    out: &mut ZSet,
    gone: &[i64],
    x: i64,
    dx: i64,
    come: &[i64],
    y: i64,
    before: &[i64],
) -> Result<ZSet, DeltaFault>
    requires empty { a.old ≡ [] }
    requires empty_change { d.old ≡ [] }
    requires empty_out { out.old ≡ [] }
    requires gone { dx +ℤ x ≡ pos 0 }
    requires come { InRange y }
    requires bag { pos 0 ≤ℤ y }
{
    if fill(alloc, a, true, gone, x)
        && fill(alloc, d, true, gone, dx)
        && fill(alloc, d, true, come, y)
        && fill(alloc, out, true, before, 1)
    {
        step_group(alloc, &[0], aggs, a, out, d, ROW_LIMIT, &mut Meter::new())
    } else {
        Err(DeltaFault::Memory)
    }
}

/// The step of the groups by the first column, if the copies of one row go and those of another come.
fn step_groups(
    alloc: Global,
    aggs: &[Agg],
    gone: &[i64],
    x: i64,
    dx: i64,
    come: &[i64],
    y: i64,
    before: &[i64],
) -> Result<ZSet, DeltaFault>
    requires gone { dx +ℤ x ≡ pos 0 }
    requires come { InRange y }
    requires bag { pos 0 ≤ℤ y }
{
    let mut a = ZSet::new(alloc);
    let mut d = ZSet::new(alloc);
    let mut out = ZSet::new(alloc);
    let answer = step_filled_groups(
        alloc, aggs, &mut a, &mut d, &mut out, gone, x, dx, come, y, before,
    );
    drop(a);
    drop(d);
    drop(out);
    answer
}

/// The sum of the second column by the first, if two copies of a row go and one of another comes.
pub(crate) fn summed(
    alloc: Global,
    gone: i64,
    come: i64,
    before: i64,
    after: i64,
) -> Result<Seen, DeltaFault> {
    let aggs = [Agg::Sum(1)];
    let answer = step_groups(alloc, &aggs, &[gone], 2, -2, &[come], 1, &[before]);
    seen_of(alloc, answer, true, &[before], &[after])
}

/// The same of one copy.
pub(crate) fn replaced(alloc: Global, gone: i64, come: i64) -> Result<Seen, DeltaFault> {
    let aggs = [Agg::Sum(1)];
    let answer = step_groups(alloc, &aggs, &[gone], 1, -1, &[come], 1, &[gone]);
    seen_of(alloc, answer, true, &[gone], &[come])
}

/// The same if no row comes.
pub(crate) fn emptied(alloc: Global, gone: i64) -> Result<Seen, DeltaFault> {
    let aggs = [Agg::Sum(1)];
    let answer = step_groups(alloc, &aggs, &[gone], 1, -1, &[gone], 0, &[gone]);
    seen_of(alloc, answer, true, &[gone], &[0])
}

/// The sum of the second column by the first, and the number of rows.
pub(crate) fn counted(
    alloc: Global,
    gone: i64,
    come: i64,
    before: &[i64],
    after: &[i64],
) -> Result<Seen, DeltaFault> {
    let aggs = [Agg::Sum(1), Agg::Count];
    let answer = step_groups(alloc, &aggs, &[gone], 2, -2, &[come], 1, before);
    seen_of(alloc, answer, true, before, after)
}
