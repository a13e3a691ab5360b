//! Tests of the public calls of iv_rows, iv_zset, iv_algebra, iv_delta, iv_circuit and iv_reference, from rows to circuits.
//!
//! The steps are tried with operators of their own, too, that the laws of iv_delta carry. One test of circuits holds whichever request
//! for memory is refused.
#![tactic(auto)]

#[cfg(test)]
mod algebra;
#[cfg(test)]
mod circuits;
#[cfg(test)]
mod index_seeds;
#[cfg(test)]
mod pairs;
#[cfg(test)]
mod plans;
#[cfg(test)]
mod positive;
#[cfg(test)]
mod product;
#[cfg(test)]
mod refused;
#[cfg(test)]
mod rows;
#[cfg(test)]
mod seeds;
#[cfg(test)]
mod sets;
#[cfg(test)]
mod singles;
#[cfg(test)]
mod steps;
#[cfg(test)]
mod sums;
#[cfg(test)]
mod worlds;
#[cfg(test)]
mod zset;
