//! The limits of texts: bytes of a text, of a word and of a value, nesting, and sources of a query.

/// Bytes of a text.
pub const TEXT_BYTES: usize = 4_096;

/// Bytes of a word.
pub const WORD_BYTES: usize = 63;

/// Words `not` and signs `(` that are open at once.
pub const NESTING: usize = 32;

/// Sources of a query.
pub const SOURCES: usize = 8;
