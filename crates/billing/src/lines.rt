// The bill's lines, written into a lent buffer from `at` on; each writer says where its text ends.
ghost use Rattle.std.specs.Prelude.{true, [], ◌∷◌, ◌≡◌, ◌+◌, ◌*◌, ◌≤◌, ◌<◌, length, get_or};
ghost use Rattle.keys.specs.Names.{application_name_most};
ghost use Rattle.registry.specs.Slots.{free};
ghost use Rattle.registry.specs.Registry.{line_count, slot_count, names_in, slots_of, uses_of};
ghost use Rattle.registry.specs.WellFormed.{well_formed_registry};
ghost use Rattle.judgement.specs.Status.{refused_statuses, refused_count};
ghost use Rattle.billing.specs.Ascii.{ascii};
ghost use Rattle.billing.specs.Bill.{decimal, text_line, application_lines, key_line, slot_lines, key_lines, refused_lines};
ghost use Rattle.billing.specs.Outcome.{word_most, count_line_most, refused_line_most, application_line_most, key_line_most, used_names};
ghost use Rattle.billing.specs.code.Text.{Placed, refused_line};

use crate::text::{write_number, write_word};
use judgement::REFUSED_STATUSES;
use judgement::statuses::refused_number;
use registry::key::key_uses;
use registry::lines::{is_free, line_name};
use registry::{LINES, Line, SLOTS, Slot};

// A line of a word and a number.
pub fn write_count(out: &mut [u8], at: usize, word: &[u8], n: u64) -> usize
    requires { (length word.now ≤ word_most) × (at + count_line_most ≤ length out.old) }
    ensures { Placed (text_line word.now (decimal n ∷ [])) out.old out.new at result × (result ≤ at + count_line_most) }
{
    let named = write_word(out, at, word);
    let counted = write_number(out, named, n);
    write_word(out, counted, b"\n")
}

// An application's line: its number, its name and how many requests were served.
fn write_application(out: &mut [u8], at: usize, line: Line, name: &[u8], served: u64) -> usize
    requires { (length name.now ≤ application_name_most) × (at + application_line_most ≤ length out.old) }
    ensures { Placed (text_line (ascii "line") (decimal line.0 ∷ name.now ∷ decimal served ∷ [])) out.old out.new at result × (result ≤ at + application_line_most) }
{
    let begun = write_word(out, at, b"line");
    let numbered = write_number(out, begun, line.0 as u64);
    let apart = write_word(out, numbered, b" ");
    let named = write_word(out, apart, name);
    let counted = write_number(out, named, served);
    write_word(out, counted, b"\n")
}

// The lines of the applications: those before the first that has no name.
pub fn write_applications(out: &mut [u8], at: usize, registry: &[u8], served: &[u64]) -> usize
    requires { (well_formed_registry registry.now ≡ true) × (length served.now ≡ line_count) × (at + line_count * application_line_most ≤ length out.old) }
    ensures { Placed (application_lines 0 (used_names (names_in registry.now)) served.now) out.old out.new at result × (result ≤ at + line_count * application_line_most) }
{
    let mut end = at;
    for i in 0..LINES {
        let name = line_name(registry, Line(i));
        if name.len() == 0 {
            return end;
        }
        end = write_application(out, end, Line(i), name, served[i]);
    }
    end
}

// A slot's line: the line's number, the slot's and how often its key was used; nothing where the slot is free.
fn write_key(out: &mut [u8], at: usize, registry: &[u8], line: Line, slot: Slot) -> usize
    requires { (well_formed_registry registry.now ≡ true) × (line.0 < line_count) × (slot.0 < slot_count) × (at + key_line_most ≤ length out.old) }
    ensures { Placed (key_line line.0 slot.0 (get_or (slots_of registry.now line) slot.0 free) (get_or (uses_of registry.now line) slot.0 0)) out.old out.new at result × (result ≤ at + key_line_most) }
{
    if is_free(registry, line, slot) {
        return at;
    }
    let uses = key_uses(registry, line, slot);
    let begun = write_word(out, at, b"key");
    let lined = write_number(out, begun, line.0 as u64);
    let numbered = write_number(out, lined, slot.0 as u64);
    let counted = write_number(out, numbered, uses as u64);
    write_word(out, counted, b"\n")
}

// The lines of an application's keys, by slot.
fn write_line_keys(out: &mut [u8], at: usize, registry: &[u8], line: Line) -> usize
    requires { (well_formed_registry registry.now ≡ true) × (line.0 < line_count) × (at + slot_count * key_line_most ≤ length out.old) }
    ensures { Placed (slot_lines line.0 0 (slots_of registry.now line) (uses_of registry.now line)) out.old out.new at result × (result ≤ at + slot_count * key_line_most) }
{
    let mut end = at;
    for k in 0..SLOTS {
        end = write_key(out, end, registry, line, Slot(k));
    }
    end
}

// The lines of all keys (document 02, "Use per key"), those of one application behind those of the one before.
pub fn write_keys(out: &mut [u8], at: usize, registry: &[u8]) -> usize
    requires { (well_formed_registry registry.now ≡ true) × (at + line_count * (slot_count * key_line_most) ≤ length out.old) }
    ensures { Placed (key_lines 0 (used_names (names_in registry.now)) registry.now) out.old out.new at result × (result ≤ at + line_count * (slot_count * key_line_most)) }
{
    let mut end = at;
    for i in 0..LINES {
        if line_name(registry, Line(i)).len() == 0 {
            return end;
        }
        end = write_line_keys(out, end, registry, Line(i));
    }
    end
}

// A status's line; nothing where no request was refused with it.
fn write_refused(out: &mut [u8], at: usize, number: u64, n: u64) -> usize
    requires { at + refused_line_most ≤ length out.old }
    ensures { Placed (refused_line number n) out.old out.new at result × (result ≤ at + refused_line_most) }
{
    if n == 0 {
        return at;
    }
    let begun = write_word(out, at, b"refused");
    let numbered = write_number(out, begun, number);
    let counted = write_number(out, numbered, n);
    write_word(out, counted, b"\n")
}

// The lines of the statuses, ascending.
pub fn write_refusals(out: &mut [u8], at: usize, refused: &[u64]) -> usize
    requires { (length refused.now ≡ refused_count) × (at + refused_count * refused_line_most ≤ length out.old) }
    ensures { Placed (refused_lines refused_statuses refused.now) out.old out.new at result × (result ≤ at + refused_count * refused_line_most) }
{
    let mut end = at;
    for (i, n) in refused.iter().enumerate() {
        end = write_refused(out, end, refused_number(i), *n);
    }
    end
}
