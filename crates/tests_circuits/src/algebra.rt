//! Tests of plans and predicates: `eval` of a plan with a node of each kind, and if a predicate fits.
ghost use Rattle.tests_circuits.specs.Worlds.{AreSound};

use crate::plans::of_each_kind;
use crate::refused::{BEFORE, ROWS, are};
use crate::worlds::{turn, two_tables};
use iv_algebra::{Comparison, Operand, Plan, Pred, Tables};
use iv_reference::{AlgFault, eval, fits, pred_fits};
use iv_rows::Kind;
use iv_zset::Meter;
use std::alloc::Global;

/// What comes of the plan within so many rows.
fn evaluated(alloc: Global, plan: &Plan, tables: &Tables, cap: usize) -> &'static str {
    if !fits(plan, tables) {
        return "the plan does not fit";
    }
    match eval(alloc, plan, tables, cap, &mut Meter::new()) {
        Ok(rows) => {
            let are = are(alloc, &rows, &BEFORE);
            drop(rows);
            if are == Some(true) {
                "these rows"
            } else {
                "other rows"
            }
        }
        Err(AlgFault::Limit) => "beyond a limit",
        Err(AlgFault::Memory) => "out of memory",
    }
}

/// The same over the rows.
fn evaluated_over(alloc: Global, tables: &mut Tables, cap: usize) -> &'static str
    requires { AreSound tables.old }
{
    match turn(alloc, tables, &ROWS) {
        Some(deltas) => drop(deltas),
        None => return "no rows",
    }
    match of_each_kind(alloc) {
        Ok(plan) => {
            let said = evaluated(alloc, &plan, tables, cap);
            drop(plan);
            said
        }
        Err(_) => "no plan",
    }
}

/// The same over the two tables.
fn evaluated_anew(alloc: Global, cap: usize) -> &'static str {
    match two_tables(alloc) {
        Some(mut tables) => {
            let said = evaluated_over(alloc, &mut tables, cap);
            drop(tables);
            said
        }
        None => "no tables",
    }
}

/// The five rows are in two tables of two rows and three.
#[test]
fn a_plan_of_each_kind(rt: HostRuntime) {
    assert_eq!(rt; evaluated_anew(rt.alloc(), 1_024), "these rows");
    assert_eq!(rt; evaluated_anew(rt.alloc(), 2), "beyond a limit");
}

/// Whether k can be compared with the name of the user in columns of these kinds.
fn own_fits(kinds: &[Kind]) -> bool {
    let own = Pred::Compare(Operand::Column(0), Comparison::Equal, Operand::User);
    let answer = pred_fits(&own, kinds);
    drop(own);
    answer
}

#[test]
fn the_user_is_a_text(rt: HostRuntime) {
    let cases: [(&[Kind], bool); 3] = [
        (&[Kind::Text, Kind::Int], true),
        (&[Kind::Int], false),
        (&[], false),
    ];
    for (kinds, want) in cases {
        assert!(rt; own_fits(kinds) == want);
    }
}
