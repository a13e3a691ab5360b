//! A test of a circuit that holds whichever request for memory is refused, so that a script can refuse each in turn. It prints
//! `refused` where some request was, and `held` where none was.
ghost use Rattle.iv_circuit.specs.Changing.{IsDue, IsReady};
ghost use Rattle.iv_circuit.specs.Deltas.{change_in};
ghost use Rattle.tests_circuits.specs.Worlds.{AreSound, IsReader};

use crate::circuits::planned;
use crate::plans::of_each_kind;
use crate::worlds::{Entry, turn, two_tables};
use iv_algebra::{Plan, Tables};
use iv_circuit::{Circuit, CircuitFault, Deltas, Pending, readers_follow_tables};
use iv_rows::{Row, Value};
use iv_zset::{Meter, ZSet, bags_have_lists};
use std::alloc::{AllocError, Global};
use std::test::Fail;

/// Whether all was as wanted, and whether a request for memory was refused.
#[derive(Clone, Copy)]
enum Outcome {
    Held,
    Refused,
    Wrong,
}

/// A row of three numbers, and its copies.
pub(crate) type Weighed = ([i64; 3], i64);

pub(crate) const ROWS: [Entry; 5] = [
    (0, [1, 5], 1),
    (0, [2, 5], 2),
    (1, [1, 7], 1),
    (1, [2, 5], 1),
    (1, [2, -3], 1),
];

/// Of 1: 7 of a pair, and 5 of the left row, which is on the left alone. Of 2: two pairs of 5.
pub(crate) const BEFORE: [Weighed; 2] = [([1, 12, 2], 1), ([2, 10, 2], 1)];

const BATCH: [Entry; 5] = [
    (0, [2, 5], -1),
    (0, [3, 4], 1),
    (1, [2, 5], -1),
    (1, [1, 7], 1),
    (1, [3, 1], 1),
];

/// Of 1: two pairs of 7, and 5 of the left row. Of 2: the left row, whose right one has gone. Of 3: a pair of 1, and 4 of the left
/// row.
const AFTER: [Weighed; 3] = [([1, 19, 3], 1), ([2, 5, 1], 1), ([3, 5, 2], 1)];

const CHANGE: [Weighed; 5] = [
    ([1, 12, 2], -1),
    ([2, 10, 2], -1),
    ([1, 19, 3], 1),
    ([2, 5, 1], 1),
    ([3, 5, 2], 1),
];

fn row(alloc: Global, numbers: [i64; 3]) -> Result<Row, AllocError> {
    let mut values = Vec::new(alloc);
    for number in numbers {
        values.push(Value::Int(number))?;
    }
    Row::new(values)
}

/// Whether these are the rows, with their copies; none if memory was refused.
pub(crate) fn are(alloc: Global, rows: &ZSet, wanted: &[Weighed]) -> Option<bool> {
    for entry in wanted {
        let (numbers, copies) = *entry;
        let row = row(alloc, numbers).ok()?;
        if rows.weight(&row, &mut Meter::new()) != copies {
            return Some(false);
        }
    }
    Some(rows.rows() == wanted.len())
}

fn compared(alloc: Global, rows: &ZSet, wanted: &[Weighed]) -> Outcome {
    match are(alloc, rows, wanted) {
        Some(true) => Outcome::Held,
        Some(false) => Outcome::Wrong,
        None => Outcome::Refused,
    }
}

/// What comes of the change as it is taken in.
fn committed(alloc: Global, circuit: &mut Circuit, pending: Pending) -> Outcome
    requires { IsDue circuit.old.node pending }
{
    match circuit.commit(pending, &mut Meter::new()) {
        Ok(()) => compared(alloc, circuit.total(), &AFTER),
        Err(AllocError) => Outcome::Refused,
    }
}

/// What comes of the change as it is looked at and taken in.
fn finished(alloc: Global, circuit: &mut Circuit, pending: Pending) -> Outcome
    requires { IsDue circuit.old.node pending }
{
    let shown = match pending.root() {
        Some(root) => compared(alloc, root, &CHANGE),
        None => Outcome::Wrong,
    };
    match shown {
        Outcome::Held => committed(alloc, circuit, pending),
        other => {
            drop(pending);
            other
        }
    }
}

/// What comes of changes that are prepared a second time, since memory was refused.
fn finished_again(alloc: Global, circuit: &mut Circuit, deltas: &Deltas) -> Outcome
    requires { IsReady circuit.old.cap circuit.old.node (change_in deltas.now) }
{
    let Ok(pending) = circuit.prepare(deltas, &mut Meter::new()) else {
        return Outcome::Wrong;
    };
    match finished(alloc, circuit, pending) {
        Outcome::Wrong => Outcome::Wrong,
        _ => Outcome::Refused,
    }
}

/// What comes of the changes as they are prepared and taken in.
fn taken_in(alloc: Global, circuit: &mut Circuit, deltas: &Deltas) -> Outcome
    requires { IsReady circuit.old.cap circuit.old.node (change_in deltas.now) }
{
    match circuit.prepare(deltas, &mut Meter::new()) {
        Ok(pending) => finished(alloc, circuit, pending),
        Err(CircuitFault::Memory) => finished_again(alloc, circuit, deltas),
        Err(CircuitFault::Limit) => Outcome::Wrong,
    }
}

/// What comes of the batch.
fn changed(alloc: Global, circuit: &mut Circuit, tables: &mut Tables) -> Outcome
    requires reader { IsReader tables.old circuit.old }
    requires sound { AreSound tables.old }
{
    readers_follow_tables();
    bags_have_lists();
    match turn(alloc, tables, &BATCH) {
        Some(deltas) => {
            let outcome = taken_in(alloc, circuit, &deltas);
            drop(deltas);
            outcome
        }
        None => Outcome::Refused,
    }
}

/// What comes of the circuit, and then of the batch.
fn seen(alloc: Global, circuit: &mut Circuit, tables: &mut Tables) -> Outcome
    requires reader { IsReader tables.old circuit.old }
    requires sound { AreSound tables.old }
{
    match compared(alloc, circuit.total(), &BEFORE) {
        Outcome::Held => changed(alloc, circuit, tables),
        other => other,
    }
}

/// What comes of a circuit of the plan, and then of the batch.
fn opened(alloc: Global, plan: &Plan, tables: &mut Tables) -> Outcome
    requires { AreSound tables.old }
{
    match planned(alloc, plan, tables) {
        Some(mut circuit) => {
            let outcome = seen(alloc, &mut circuit, tables);
            drop(circuit);
            outcome
        }
        None => Outcome::Refused,
    }
}

/// The same over the rows.
fn opened_over(alloc: Global, tables: &mut Tables) -> Outcome
    requires { AreSound tables.old }
{
    match turn(alloc, tables, &ROWS) {
        Some(deltas) => drop(deltas),
        None => return Outcome::Refused,
    }
    match of_each_kind(alloc) {
        Ok(plan) => {
            let outcome = opened(alloc, &plan, tables);
            drop(plan);
            outcome
        }
        Err(AllocError) => Outcome::Refused,
    }
}

/// The same over the two tables.
fn tried(alloc: Global) -> Outcome {
    match two_tables(alloc) {
        Some(mut tables) => {
            let outcome = opened_over(alloc, &mut tables);
            drop(tables);
            outcome
        }
        None => Outcome::Refused,
    }
}

#[test]
fn changes_are_prepared_again(rt: HostRuntime) -> Result<(), Fail> {
    match tried(rt.alloc()) {
        Outcome::Held => println!(rt; "held")?,
        Outcome::Refused => println!(rt; "refused")?,
        Outcome::Wrong => assert!(rt; false),
    }
    Ok(())
}
