// The bill: what counters, registry and connection come to, as text ("The bill").
#![tactic(auto)]

use crate::text::DIGITS_MOST;
use judgement::REFUSED_STATUSES;
use keys::APPLICATION_NAME_MOST;
use registry::{LINES, SLOTS};

mod lines;
pub mod text;
pub mod whole;

// The longest word: "dropped" and "refused".
const WORD_MOST: usize = 7;

// The longest line of a word and a number.
const COUNT_LINE_MOST: usize = WORD_MOST + (1 + DIGITS_MOST) + 1;

// That of a status: "refused" and two numbers.
const REFUSED_LINE_MOST: usize = WORD_MOST + (1 + DIGITS_MOST) + (1 + DIGITS_MOST) + 1;

// That of an application: "line", a number, a name and a number.
const APPLICATION_LINE_MOST: usize = 4
    + (1 + DIGITS_MOST)
    + (1 + APPLICATION_NAME_MOST)
    + (1 + DIGITS_MOST)
    + 1;

// That of a key: "key" and three numbers.
const KEY_LINE_MOST: usize = 3 + (1 + DIGITS_MOST) + (1 + DIGITS_MOST) + (1 + DIGITS_MOST) + 1;

// Bytes that no bill needs: the least buffer is the 6,336 bytes that callers were told.
const BILL_SPARE: usize = 86;

// A buffer of so many bytes has room for every bill.
pub const BILL_MOST: usize = BILL_SPARE
    + 4 * COUNT_LINE_MOST
    + REFUSED_STATUSES * REFUSED_LINE_MOST
    + LINES * (APPLICATION_LINE_MOST + SLOTS * KEY_LINE_MOST);

// Why no bill is written; the first that applies.
#[derive(Clone, Copy)]
pub enum BillRefusal {
    BufferTooSmall,
    ConnectionIllFormed,
    RegistryIllFormed,
}
