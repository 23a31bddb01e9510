//! How deep brackets may be.

/// How many round brackets may be open at once (own rule).
pub const MAX_DEPTH: usize = 32;
