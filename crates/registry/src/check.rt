// Whether bytes are a registry ("Roster, registry, connection, tally"): document 01's C4.
ghost use Rattle.std.specs.Prelude.{ℕ, ◌≡◌, true, ◌*◌, ◌≤◌, length, drop};
ghost use Rattle.wire.specs.Lists.{all, blocks};
ghost use Rattle.registry.specs.Slots.{slot_size, well_formed_slot};
ghost use Rattle.registry.specs.Registry.{line_count, slot_count, line_size, registry_size, slots_in};
ghost use Rattle.registry.specs.WellFormed.{slots_well_formed, well_formed_registry};
ghost use Rattle.registry.specs.code.Check.{is_free, well_formed_line};

use crate::marks::are_keys_distinct;
use crate::names::{are_distinct, name_of, scan};
use crate::slots::is_slot;
use crate::{LINE_HEAD, LINE_SIZE, LINES, REGISTRY_SIZE, SLOT_SIZE, SLOTS};
use keys::APPLICATION_NAME_MOST;
use keys::names::is_legal;
use wire::bytes::{all_zero, all_zero_long};

// From which slot of a line on all are free.
fn free_from(line: &[u8]) -> usize
    requires { length line.now ≡ line_size }
    ensures { (result ≤ slot_count) × (all is_free (drop result (slots_in line.now)) ≡ true) }
{
    for n in (0..SLOTS).rev() {
        if line[LINE_HEAD + n * SLOT_SIZE] != 0 {
            return n + 1;
        }
    }
    0
}

// Whether these slots are well formed.
fn are_slots(slots: &[u8]) -> bool
    ensures { (n : ℕ) → length slots.now ≡ n * slot_size → result ≡ all well_formed_slot (blocks n slot_size slots.now) }
{
    slots.chunks_exact(SLOT_SIZE).all(|slot| is_slot(slot))
}

// Whether all slots of a line are well formed, those from n on being free: their bytes are tested as one part. The line
// begins `at` bytes behind a multiple of 16, for speed alone.
fn are_all_slots(line: &[u8], n: usize, at: usize) -> bool
    requires { (length line.now ≡ line_size) × (n ≤ slot_count) × (all is_free (drop n (slots_in line.now)) ≡ true) }
    ensures { result ≡ slots_well_formed line.now }
{
    let a = LINE_HEAD + n * SLOT_SIZE;
    if !are_slots(&line[LINE_HEAD..a]) {
        return false;
    }
    all_zero_long(&line[a..], at % 16 + a)
}

// Whether the bytes of a used line are well formed; `at` as above.
fn is_line(line: &[u8], at: usize) -> bool
    requires { length line.now ≡ line_size }
    ensures { result ≡ well_formed_line line.now }
{
    let name = name_of(line);
    if !is_legal(name, APPLICATION_NAME_MOST) {
        return false;
    }
    let e = 1 + name.len();
    if !all_zero(&line[e..LINE_HEAD]) {
        return false;
    }
    let free = free_from(line);
    if !are_all_slots(line, free, at) {
        return false;
    }
    // At most one slot has a name.
    if free < 2 {
        return true;
    }
    are_keys_distinct(line)
}

// Whether the first n lines are well formed.
fn are_lines(registry: &[u8], n: usize) -> bool
    requires { (length registry.now ≡ registry_size) × (n ≤ line_count) }
    ensures { result ≡ all well_formed_line (blocks n line_size registry.now) }
{
    for i in 0..n {
        let a = i * LINE_SIZE;
        let e = a + LINE_SIZE;
        if !is_line(&registry[a..e], a) {
            return false;
        }
    }
    true
}

// Whether a slice of any length is a well-formed registry.
pub fn is_well_formed(registry: &[u8]) -> bool
    ensures { result ≡ well_formed_registry registry.now }
{
    if registry.len() != REGISTRY_SIZE {
        return false;
    }
    // The empty name: an unused line.
    let n = scan(registry, LINE_SIZE, &[]).unwrap_or(LINES);
    let a = n * LINE_SIZE;
    if !all_zero_long(&registry[a..], a) {
        return false;
    }
    if !are_lines(registry, n) {
        return false;
    }
    are_distinct(registry, LINE_SIZE)
}
