//! A test that the circuit of each operator keeps the seed of its tables.

use crate::circuits::planned;
use crate::plans::{joined, scan};
use crate::worlds::two_tables_under;
use iv_algebra::{Agg, Plan, Pred, Tables};
use iv_zset::Seed;
use std::alloc::{AllocError, Global};
use std::hash::BuildHasher;
use std::test::Fail;

fn projected(alloc: Global) -> Result<Plan, AllocError> {
    let columns = Vec::from_array(alloc, [1])?;
    Ok(Plan::Project(columns, scan(alloc, 0)?))
}

fn counted(alloc: Global) -> Result<Plan, AllocError> {
    let keys = Vec::from_array(alloc, [0])?;
    let aggs = Vec::from_array(alloc, [Agg::Count])?;
    let input = scan(alloc, 0)?;
    Ok(Plan::Group { keys, aggs, input })
}

/// The two tables.
fn two_scans(alloc: Global) -> Result<(Box<Plan>, Box<Plan>), AllocError> {
    let a = scan(alloc, 0)?;
    let b = scan(alloc, 1)?;
    Ok((a, b))
}

fn united(alloc: Global) -> Result<Plan, AllocError> {
    let (a, b) = two_scans(alloc)?;
    Ok(Plan::Union(a, b))
}

fn left_alone(alloc: Global) -> Result<Plan, AllocError> {
    let (a, b) = two_scans(alloc)?;
    Ok(Plan::Except(a, b))
}

/// One plan for each number below 7, each with another operator on top.
fn plan_of(alloc: Global, number: u32) -> Result<Plan, AllocError> {
    match number {
        0 => Ok(Plan::Filter(Pred::True, scan(alloc, 0)?)),
        1 => projected(alloc),
        2 => Ok(Plan::Distinct(scan(alloc, 0)?)),
        3 => counted(alloc),
        4 => united(alloc),
        5 => left_alone(alloc),
        _ => joined(alloc),
    }
}

/// The seed of a plan's total.
fn total_seed(alloc: Global, number: u32, tables: &Tables) -> Option<Seed> {
    let Ok(plan) = plan_of(alloc, number) else {
        return None;
    };
    let circuit = planned(alloc, &plan, tables);
    drop(plan);
    match circuit {
        Some(circuit) => {
            let seed = circuit.total().seed();
            drop(circuit);
            Some(seed)
        }
        None => None,
    }
}

/// What it makes of 1 over tables under this seed.
fn hash_under(alloc: Global, seed: Seed, number: u32) -> Option<u64> {
    let tables = two_tables_under(alloc, seed)?;
    let seed = total_seed(alloc, number, &tables);
    drop(tables);
    Some(seed?.hash_one(&1u64))
}

/// The rows of each operator are hashed under the seed of the tables.
#[test]
fn circuits_keep_the_seed(rt: HostRuntime) -> Result<(), Fail> {
    let seed = Seed::random(&rt)?;
    let hash = seed.hash_one(&1u64);
    for number in 0..7u32 {
        assert_eq!(rt;
            hash_under(rt.alloc(), seed, number),
            Some(hash),
            "{number}"
        );
    }
    Ok(())
}
