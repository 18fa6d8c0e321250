// The leaves, exported for tests and benchmarks; no part of the product. An enum comes back as numbers, since C reads it so. Input
// that a leaf's `requires` forbids is answered by `false` or by REFUSED, with nothing written, or by zeros where the answer is an array.
#![tactic(auto)]

pub mod bodies;
pub mod connections;
pub mod headers;
pub mod registries;
pub mod signatures;

// No count of bytes, no line and no slot.
pub const REFUSED: usize = 18446744073709551615;
