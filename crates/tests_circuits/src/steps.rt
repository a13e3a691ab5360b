//! Tests of the steps of operators: each a table of cases with what is seen of their answers.
use crate::pairs::{counted, emptied, joined, multiplied, replaced, summed};
use crate::sets::Seen;
use crate::singles::{alone, filtered, once, projected, signs, united};
use iv_delta::DeltaFault;

const MAX: i64 = i64::MAX;

const ROW_LIMIT: usize = 1_024;

type Answer = Result<Seen, DeltaFault>;

#[test]
fn linear_operators(rt: HostRuntime) {
    let filtered = filtered(rt.alloc());
    let projected = projected(rt.alloc());
    let signs = signs(rt.alloc());
    assert!(rt; [filtered, projected, signs] == [Ok((1, 0, -1)), Ok((0, 0, 0)), Ok((2, 2, 1))]);
}

const UNIONS: [((i64, i64), (i64, i64), usize, Answer); 5] = [
    ((1, 0), (-1, 0), ROW_LIMIT, Ok((0, 0, 0))),
    ((1, 0), (0, 0), ROW_LIMIT, Err(DeltaFault::Limit)),
    ((-MAX, 1), (0, 0), 1, Ok((2, -MAX, 1))),
    ((0, 1), (0, 0), 1, Err(DeltaFault::Limit)),
    ((0, 1), (0, 0), 2, Ok((1, 0, 1))),
];

#[test]
fn unions(rt: HostRuntime) {
    for (left, right, cap, want) in UNIONS {
        assert!(rt; united(rt.alloc(), MAX, left, right, cap) == want);
    }
}

const ONCE: [(i64, i64, i64); 4] = [(1, 1, 0), (2, -1, 0), (1, -1, -1), (0, 2, 1)];

const ALONE: [((i64, i64), (i64, i64), i64); 3] = [
    ((3, 0), (0, 1), -1),
    ((3, -3), (1, -1), 0),
    ((3, 0), (1, -1), 1),
];

#[test]
fn sets(rt: HostRuntime) {
    for (old, change, want) in &ONCE {
        let rows = if *want == 0 { 0 } else { 1 };
        assert!(rt; once(rt.alloc(), *old, *change) == Ok((rows, *want, *want)));
    }
    for (left, right, want) in &ALONE {
        let rows = if *want == 0 { 0 } else { 1 };
        assert!(rt; alone(rt.alloc(), *left, *right) == Ok((rows, *want, *want)));
    }
}

#[test]
fn pairs(rt: HostRuntime) {
    let both = joined(rt.alloc(), 2, 1, 3, -1, 6);
    let left = joined(rt.alloc(), 2, 1, 3, 0, 6);
    let large = joined(
        rt.alloc(),
        1,
        3,
        4_611_686_018_427_387_904,
        -4_611_686_018_427_387_903,
        4_611_686_018_427_387_904,
    );
    let larger = joined(
        rt.alloc(),
        1,
        1,
        4_611_686_018_427_387_904,
        0,
        4_611_686_018_427_387_904,
    );
    let change = 4 - 4_611_686_018_427_387_904;
    let want: [Answer; 4] = [
        Ok((0, 0, 0)),
        Ok((1, 3, 3)),
        Ok((1, change, change)),
        Err(DeltaFault::Limit),
    ];
    assert!(rt; [both, left, large, larger] == want);
}

#[test]
fn products(rt: HostRuntime) {
    let both = multiplied(rt.alloc(), 2, 1, 3, -1, 6);
    let left = multiplied(rt.alloc(), 2, 1, 3, 0, 6);
    assert!(rt; [both, left] == [Ok((0, 0, 0)), Ok((1, 3, 3))]);
}

#[test]
fn groups(rt: HostRuntime) {
    let counted = counted(rt.alloc(), 5, 10, &[10, 2], &[10, 1]);
    let summed = summed(rt.alloc(), 5, 10, 10, 10);
    let replaced = replaced(rt.alloc(), MAX, 1);
    let emptied = emptied(rt.alloc(), 5);
    let want: [Answer; 4] = [
        Ok((2, -1, 1)),
        Ok((0, 0, 0)),
        Ok((2, -1, 1)),
        Ok((1, -1, 0)),
    ];
    assert!(rt; [counted, summed, replaced, emptied] == want);
}
