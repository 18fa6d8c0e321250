// A line of the registry: where it and its slots begin, its name read, and a line written ("Roster, registry, connection,
// tally").
ghost use Rattle.std.specs.Prelude.{[], ◌≡◌, ◌*◌, ◌≤◌, ◌<◌, length, take, get_or};
ghost use Rattle.wire.specs.Lists.{padded, put};
ghost use Rattle.keys.specs.Names.{application_name_most};
ghost use Rattle.registry.specs.Registry.{line_count, slot_count, line_size, registry_size, names_in, place, slot_at, line_of};
ghost use Rattle.registry.specs.code.Check.{is_free};

use crate::names::name_of;
use crate::slots::write_padded;
use crate::{LINE_HEAD, LINE_SIZE, Line, SLOT_SIZE, Slot};
use wire::bytes::clear;

// Where a slot begins in the registry.
pub fn slot_at(line: Line, slot: Slot) -> usize
    requires { (line.0 < line_count) × (slot.0 < slot_count) }
    ensures { result ≡ place line slot }
{
    line.0 * LINE_SIZE + (LINE_HEAD + slot.0 * SLOT_SIZE)
}

// Whether a slot is free.
pub fn is_free(registry: &[u8], line: Line, slot: Slot) -> bool
    requires { (length registry.now ≡ registry_size) × (line.0 < line_count) × (slot.0 < slot_count) }
    ensures { result ≡ is_free (slot_at registry.now line slot) }
{
    let a = slot_at(line, slot);
    registry[a] == 0
}

// The name of a line's application; that of an unused line is empty.
pub fn line_name<'a>(registry: &'a [u8], line: Line) -> &'a [u8]
    requires { (length registry.now ≡ registry_size) × (line.0 < line_count) }
    ensures { result.now ≡ get_or (names_in registry.now) line.0 [] }
{
    let a = line.0 * LINE_SIZE;
    name_of(&registry[a..a + LINE_SIZE])
}

// Writes the bytes of a line, of an application that has no keys.
fn write_keyless(bytes: &mut [u8], name: &[u8])
    requires { (length bytes.old ≡ line_size) × (length name.now ≤ application_name_most) }
    ensures { bytes.new ≡ line_of name.now }
{
    bytes[0] = name.len() as u8;
    write_padded(&mut bytes[1..], name);
}

// Makes a line that of an application that has no keys. The other lines stay.
pub fn write_line(registry: &mut [u8], line: Line, name: &[u8])
    requires { (length registry.old ≡ registry_size) × (line.0 < line_count) × (length name.now ≤ application_name_most) }
    ensures { registry.new ≡ put registry.old (line.0 * line_size) (line_of name.now) }
{
    let a = line.0 * LINE_SIZE;
    let e = a + LINE_SIZE;
    write_keyless(&mut registry[a..e], name);
}

// Makes the lines from number `n` on unused.
pub fn clear_lines(registry: &mut [u8], n: usize)
    requires { (length registry.old ≡ registry_size) × (n ≤ line_count) }
    ensures { registry.new ≡ padded registry_size (take (n * line_size) registry.old) }
{
    let a = n * LINE_SIZE;
    clear(&mut registry[a..]);
}
