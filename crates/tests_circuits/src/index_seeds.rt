//! A test that an index keeps the seed of its rows.
use crate::sets::row;
use iv_delta::KeyIndex;
use iv_zset::{Meter, Seed, ZFault, ZSet};
use std::alloc::{AllocError, Global};
use std::hash::BuildHasher;
use std::test::Fail;

/// What the seed at a key makes of 1.
fn hash_at(alloc: Global, index: &KeyIndex, key: i64) -> Result<u64, AllocError> {
    let key = row(alloc, false, &[key])?;
    let bucket = index.at(&key, &mut Meter::new());
    Ok(bucket.seed().hash_one(&1u64))
}

/// The same at a key that an index of the rows has, and at one that it does not have.
fn hashes(alloc: Global, rows: &ZSet) -> Result<[u64; 2], AllocError> {
    let index = KeyIndex::build(alloc, &[0], rows, &mut Meter::new())?;
    let hashes = [hash_at(alloc, &index, 1), hash_at(alloc, &index, 2)];
    drop(index);
    let [first, second] = hashes;
    Ok([first?, second?])
}

/// The same if a row comes.
fn hashes_of_one(alloc: Global, rows: &mut ZSet) -> Result<[u64; 2], ZFault> {
    rows.add(row(alloc, false, &[1, 2])?, 1, &mut Meter::new())?;
    Ok(hashes(alloc, rows)?)
}

/// The same under a seed.
fn hashes_under(alloc: Global, seed: Seed) -> Result<[u64; 2], ZFault> {
    let mut rows = ZSet::with_seed(alloc, seed);
    let answer = hashes_of_one(alloc, &mut rows);
    drop(rows);
    answer
}

#[test]
fn indexes_keep_the_seed(rt: HostRuntime) -> Result<(), Fail> {
    let seed = Seed::random(&rt)?;
    let want = seed.hash_one(&1u64);
    assert!(rt; hashes_under(rt.alloc(), seed) == Ok([want, want]));
    Ok(())
}
