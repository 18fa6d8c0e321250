// A connection in memory that the caller lends ("Roster, registry, connection, tally"): `check` says whether memory is one
// and what it is, `change` writes it, `gather` takes on a request's bytes. docs/LAYOUT.md has its bytes, and specs/ defines
// them.
#![tactic(auto)]

use stream::frame::{AUTH_MOST, HEADER_MOST};
use wire::header::CONTENT_MOST;

pub mod change;
pub mod check;
pub mod gather;

// The longest request that is not oversized.
pub const HELD_MOST: usize = 6 + HEADER_MOST as usize + CONTENT_MOST as usize + AUTH_MOST as usize;

// Where the number begins, and where the bytes do.
pub const NUMBER_AT: usize = 1;

pub const BYTES_AT: usize = 9;

pub const CONNECTION_SIZE: usize = BYTES_AT + HELD_MOST;

// The kinds. Kept as numbers: they are the first byte of the lent memory (docs/LAYOUT.md).
pub const OPEN: u8 = 0;

pub const SKIPPING: u8 = 1;

pub const CLOSED: u8 = 2;
