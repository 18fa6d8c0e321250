// The search for an application, and for one of its slots, by name ("Roster, registry, connection, tally").
ghost use Rattle.std.specs.Prelude.{◌≡◌, ◌≤◌, ◌<◌, length};
ghost use Rattle.wire.specs.Lists.{same};
ghost use Rattle.registry.specs.Names.{name_in};
ghost use Rattle.registry.specs.Registry.{line_count, line_size, registry_size, application_named, slots_of, slot_named};

use crate::names::scan;
use crate::{LINE_HEAD, LINE_SIZE, Line, SLOT_SIZE, Slot};
use wire::bytes::equal;
use wire::number::wide;

// Whether a line's name is `name`. Its first and its last byte are tried before those between, where names of one kind often are
// alike: the search for the last of eight takes 42 cycles so, and 100 without.
fn is_named(line: &[u8], name: &[u8]) -> bool
    requires { (length line.now ≡ line_size) × (0 < length name.now) }
    ensures { result ≡ same name.now (name_in line.now) }
{
    let n = name.len();
    if wide(line[0]) != n {
        return false;
    }
    if line[1] != name[0] {
        return false;
    }
    if line[n] != name[n - 1] {
        return false;
    }
    let e = 1 + n;
    equal(name, &line[1..e])
}

// The application with the name; none has the empty name.
pub fn find_application(registry: &[u8], name: &[u8]) -> Option<Line>
    requires { length registry.now ≡ registry_size }
    ensures { result ≡ application_named registry.now name.now }
{
    if name.is_empty() {
        return None;
    }
    registry
        .chunks_exact(LINE_SIZE)
        .position(|line| is_named(line, name))
        .map(Line)
}

// The first slot of an application that has the name; the empty name is that of a free slot.
pub fn find_slot(registry: &[u8], line: Line, name: &[u8]) -> Option<Slot>
    requires { (length registry.now ≡ registry_size) × (line.0 < line_count) }
    ensures { result ≡ slot_named name.now (slots_of registry.now line) }
{
    let a = line.0 * LINE_SIZE;
    let slots = &registry[a + LINE_HEAD..a + LINE_SIZE];
    scan(slots, SLOT_SIZE, name).map(Slot)
}
