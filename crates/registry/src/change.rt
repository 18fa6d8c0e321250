// A slot filled with a key, or cleared ("Operations and their fields"), or its key's use counted (document 02, "Use per key"). All other bytes of the registry stay.
ghost use Rattle.std.specs.Prelude.{◌≡◌, ◌≤◌, ◌<◌, length};
ghost use Rattle.keys.specs.Key.{data_most};
ghost use Rattle.keys.specs.Names.{key_name_most};
ghost use Rattle.registry.specs.Registry.{line_count, slot_count, registry_size, changed};
ghost use Rattle.registry.specs.Registry as registry_specs;
ghost use Rattle.registry.specs.code.Check.{key_from};

use crate::lines::slot_at;
use crate::slots::{count_use, write_key};
use crate::{Line, SLOT_SIZE, Slot};
use wire::bytes::clear;

// Kept in each of the three: a function that hands out the slot's part to be written needs a clause of what comes back, which is no plainer.
pub fn fill_slot(
    registry: &mut [u8],
    line: Line,
    slot: Slot,
    name: &[u8],
    bytes: &[u8],
    bits: u16,
    exported: bool,
    verified: bool,
)
    requires { (length registry.old ≡ registry_size) × (line.0 < line_count) × (slot.0 < slot_count) × (length name.now ≤ key_name_most) × (length bytes.now ≤ data_most) }
    ensures { registry.new ≡ changed registry.old line (registry_specs.fill slot (key_from name.now bytes.now bits exported verified)) }
{
    let a = slot_at(line, slot);
    let e = a + SLOT_SIZE;
    write_key(&mut registry[a..e], name, bytes, bits, exported, verified);
}

pub fn clear_slot(registry: &mut [u8], line: Line, slot: Slot)
    requires { (length registry.old ≡ registry_size) × (line.0 < line_count) × (slot.0 < slot_count) }
    ensures { registry.new ≡ changed registry.old line (registry_specs.clear slot) }
{
    let a = slot_at(line, slot);
    let e = a + SLOT_SIZE;
    clear(&mut registry[a..e]);
}

pub fn add_use(registry: &mut [u8], line: Line, slot: Slot)
    requires { (length registry.old ≡ registry_size) × (line.0 < line_count) × (slot.0 < slot_count) }
    ensures { registry.new ≡ changed registry.old line (registry_specs.add_use slot) }
{
    let a = slot_at(line, slot);
    let e = a + SLOT_SIZE;
    count_use(&mut registry[a..e]);
}
