// The registry of applications and their keys, in lent memory ("Roster, registry, connection, tally").
#![tactic(auto)]

use keys::{APPLICATION_NAME_MOST, DATA_MOST, KEY_NAME_MOST};

pub mod change;
pub mod check;
pub mod find;
pub mod key;
pub mod lines;
mod marks;
pub mod names;
pub mod slots;

// Where the parts of a slot lie: the name's length and the name come first.
pub const DATA_LENGTH_AT: usize = 1 + KEY_NAME_MOST;

pub const DATA_AT: usize = DATA_LENGTH_AT + 2;

pub const BITS_AT: usize = DATA_AT + DATA_MOST;

pub const EXPORT_AT: usize = BITS_AT + 2;

pub const VERIFY_AT: usize = EXPORT_AT + 1;

pub const USES_AT: usize = VERIFY_AT + 1;

pub const SLOT_SIZE: usize = USES_AT + 4;

// A count of uses stays here.
pub const USES_MOST: u32 = 4294967295;

pub const SLOTS: usize = 8;

// A line: the name's length and the name, then the slots.
pub const LINE_HEAD: usize = 1 + APPLICATION_NAME_MOST;

pub const LINE_SIZE: usize = LINE_HEAD + SLOTS * SLOT_SIZE;

pub const LINES: usize = 8;

pub const REGISTRY_SIZE: usize = LINES * LINE_SIZE;

// The number of an application in the roster: document 01's roster line. Kept without an invariant, here and at Slot:
// journal::replay::is_in_use takes a Line that may be none, so that each function says for itself what it asks of the two.
#[derive(Clone, Copy)]
pub struct Line(pub usize);

// The number of one of an application's slots.
#[derive(Clone, Copy)]
pub struct Slot(pub usize);
