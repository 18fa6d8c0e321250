// What a slot holds, read where it lies ("Roster, registry, connection, tally").
ghost use Rattle.std.specs.Prelude.{◌≡◌, true, ◌<◌, get_or};
ghost use Rattle.registry.specs.Slots.{free};
ghost use Rattle.registry.specs.Registry.{line_count, slot_count, slots_of, uses_of};
ghost use Rattle.registry.specs.WellFormed.{well_formed_registry};
ghost use Rattle.registry.specs.code.Check.{bytes_in, bits_in, export_in, verify_in};

use crate::lines::slot_at;
use crate::slots::size_at;
use crate::{BITS_AT, DATA_AT, DATA_LENGTH_AT, EXPORT_AT, Line, Slot, USES_AT, VERIFY_AT};
use wire::number::read_u32;

// The data of the key in a slot, as a part of the registry; a free slot has none.
pub fn key_data<'a>(registry: &'a [u8], line: Line, slot: Slot) -> &'a [u8]
    requires { (well_formed_registry registry.now ≡ true) × (line.0 < line_count) × (slot.0 < slot_count) }
    ensures { result.now ≡ bytes_in (get_or (slots_of registry.now line) slot.0 free) }
{
    let a = slot_at(line, slot);
    let d = size_at(registry, a + DATA_LENGTH_AT);
    let f = a + DATA_AT;
    let e = f + d;
    &registry[f..e]
}

// Whether the key in a slot may be exported; of a free slot it may not.
pub fn is_exportable(registry: &[u8], line: Line, slot: Slot) -> bool
    requires { (well_formed_registry registry.now ≡ true) × (line.0 < line_count) × (slot.0 < slot_count) }
    ensures { result ≡ export_in (get_or (slots_of registry.now line) slot.0 free) }
{
    let a = slot_at(line, slot);
    registry[a + EXPORT_AT] == 1
}

// The bits of the key in a slot; of a free slot 0.
pub fn key_bits(registry: &[u8], line: Line, slot: Slot) -> usize
    requires { (well_formed_registry registry.now ≡ true) × (line.0 < line_count) × (slot.0 < slot_count) }
    ensures { result ≡ bits_in (get_or (slots_of registry.now line) slot.0 free) }
{
    let a = slot_at(line, slot);
    size_at(registry, a + BITS_AT)
}

// Whether the key in a slot may verify; of a free slot it may not. Kept beside `is_exportable`: each is one line, and its name says which of
// the two flags.
pub fn is_verifiable(registry: &[u8], line: Line, slot: Slot) -> bool
    requires { (well_formed_registry registry.now ≡ true) × (line.0 < line_count) × (slot.0 < slot_count) }
    ensures { result ≡ verify_in (get_or (slots_of registry.now line) slot.0 free) }
{
    let a = slot_at(line, slot);
    registry[a + VERIFY_AT] == 1
}

// How often the key in a slot was used; of a free slot 0.
pub fn key_uses(registry: &[u8], line: Line, slot: Slot) -> u32
    requires { (well_formed_registry registry.now ≡ true) × (line.0 < line_count) × (slot.0 < slot_count) }
    ensures { result ≡ get_or (uses_of registry.now line) slot.0 0 }
{
    let a = slot_at(line, slot);
    read_u32(registry, a + USES_AT)
}
