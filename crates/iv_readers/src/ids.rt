//! `ReaderId` and `CircuitId`: which reader and which circuit are meant, so that one is never taken for the other.

/// A reader: its place among all readers. It holds until a reader before it goes.
#[derive(Clone, Copy, Debug, PartialEq, Eq)]
pub struct ReaderId(pub usize);

/// A circuit that roles read: its place among all circuits, which it keeps as long as it is read.
#[derive(Clone, Copy, Debug, PartialEq, Eq)]
pub struct CircuitId(pub usize);
