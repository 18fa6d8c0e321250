// What each operation asks and answers, as data and as bytes ("Operations and their fields"), for the service and for a
// client. specs/ defines it, and proofs/ has that what is written is read as itself.
#![tactic(auto)]

pub mod ask;
pub mod format;
pub mod opcodes;
pub mod read;
mod tagged;
pub mod write;

// The bytes of a hash (SHA-256).
pub const HASH_SIZE: usize = 32;
