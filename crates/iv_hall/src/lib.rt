//! The clients of a gateway by their numbers, with lists of those who were told something and of those who follow each feed: so no round
//! goes over all of them.
#![tactic(auto)]

mod hall;
mod hearing;
mod numbers;
mod readers;
mod slots;

pub use hall::Hall;
