// Whether a line's keys have names of their own ("no line holds one name twice"). Most are told apart by their marks.
ghost use Rattle.std.specs.Prelude.{◌≡◌, true, not, ◌&&◌, length, eqb};
ghost use Rattle.wire.specs.Lists.{all};
ghost use Rattle.keys.specs.code.Marks.{differs_from};
ghost use Rattle.registry.specs.Slots.{data_length_at};
ghost use Rattle.registry.specs.Registry.{line_size};
ghost use Rattle.registry.specs.WellFormed.{slots_well_formed, keys_distinct};
ghost use Rattle.registry.specs.code.Check.{mark_in};

use crate::names::are_distinct;
use crate::{DATA_LENGTH_AT, LINE_HEAD, SLOT_SIZE, SLOTS};
use keys::marks::{four_words, is_among, mix};

// The mark of a key's name, by all bytes that there are for one: `s` is a slot up to its data's length.
#[tactic(auto, unfolding(crate::specs::code::Check::mark_in))]
fn mark_of(s: &[u8]) -> u32
    requires { length s.now ≡ data_length_at }
    ensures { result ≡ mark_in s.now }
{
    mix(four_words(s, 1, 5, 9, 13), four_words(s, 17, 21, 25, 29))
}

// Whether one of the marks is that of a name of n bytes. A free slot has none.
fn is_repeated(marks: &[u32], n: u8, mark: u32) -> bool
    ensures { result ≡ not (eqb n 0) && not (all (differs_from mark) marks.now) }
{
    n != 0 && is_among(marks, mark)
}

// Whether the marks of a line's keys differ, so that no name stands twice. `false` decides nothing.
fn are_marks_apart(line: &[u8]) -> bool
    requires { (length line.now ≡ line_size) × (slots_well_formed line.now ≡ true) }
    ensures { result ≡ true → keys_distinct line.now ≡ true }
{
    let mut marks = [0; SLOTS];
    for i in 0..SLOTS {
        let a = LINE_HEAD + i * SLOT_SIZE;
        let e = a + DATA_LENGTH_AT;
        let mark = mark_of(&line[a..e]);
        if is_repeated(&marks, line[a], mark) {
            return false;
        }
        marks[i] = mark;
    }
    true
}

// Whether no key's name stands twice in a line.
pub fn are_keys_distinct(line: &[u8]) -> bool
    requires { (length line.now ≡ line_size) × (slots_well_formed line.now ≡ true) }
    ensures { result ≡ keys_distinct line.now }
{
    if are_marks_apart(line) {
        return true;
    }
    are_distinct(&line[LINE_HEAD..], SLOT_SIZE)
}
