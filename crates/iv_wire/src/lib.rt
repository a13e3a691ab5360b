//! Bytes in, bytes out: the lines among the bytes as commands through an engine, and its answers as bytes.
#![tactic(auto)]

pub mod laws;
mod running;

pub use running::run;
