//! Makes the circuits of plans over the two tables, as `admin` reads them.
ghost use Rattle.std.specs.Prelude.{IfSome};
ghost use Rattle.tests_circuits.specs.Worlds.{IsReader};

use iv_access::{ADMIN, Access};
use iv_algebra::{Plan, Tables};
use iv_circuit::Circuit;
use iv_reference::fits;
use iv_rows::Kind;
use std::alloc::Global;

/// The circuit of a plan under the rights, if the plan is for the tables.
fn built(alloc: Global, plan: &Plan, access: &Access, tables: &Tables) -> Option<Circuit>
    ensures { IfSome result (λ circuit. IsReader tables.now circuit) }
{
    if !fits(plan, tables) {
        return None;
    }
    match Circuit::build(alloc, plan, access, ADMIN, tables, 1_024) {
        Ok(circuit) => Some(circuit),
        Err(_) => None,
    }
}

/// Adds the two tables, which belong to `admin`.
fn add_relations(alloc: Global, access: &mut Access) -> bool {
    for name in ["a", "b"] {
        let Ok(kinds) = Vec::from_array(alloc, [Kind::Int, Kind::Int]) else {
            return false;
        };
        if access
            .add_relation(ADMIN, name, "admin", Some(kinds))
            .is_err()
        {
            return false;
        }
    }
    true
}

/// The same under new rights, which know the two tables.
pub(crate) fn planned(alloc: Global, plan: &Plan, tables: &Tables) -> Option<Circuit>
    ensures { IfSome result (λ circuit. IsReader tables.now circuit) }
{
    let Ok(mut access) = Access::new(alloc) else {
        return None;
    };
    let circuit = if add_relations(alloc, &mut access) {
        built(alloc, plan, &access, tables)
    } else {
        None
    };
    drop(access);
    circuit
}
