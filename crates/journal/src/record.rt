// The record of a request that is served, written before its change is made (document 02, "Surviving a power cut"): an import's from
// the fields where they lie in the body, a destroy's from the slot's name.
ghost use Rattle.std.specs.Prelude.{◌≡◌, true, ◌≤◌, ◌<◌, length, get_or};
ghost use Rattle.wire.specs.code.Wrote.{Wrote};
ghost use Rattle.registry.specs.Slots.{free, name_of};
ghost use Rattle.registry.specs.Registry.{line_count, slot_count, registry_size, slots_of};
ghost use Rattle.registry.specs.WellFormed.{well_formed_registry};
ghost use Rattle.judgement.specs.code.Decided.{change_of, SafeEdit};
ghost use Rattle.journal.specs.Journalling.{record_for};
ghost use Rattle.journal.specs.Record.{record_most};
ghost use Rattle.journal.specs.code.Written.{act_of_change};

use crate::write::{write_destroy, write_import};
use judgement::Edit;
use registry::lines::slot_at;
use registry::{Line, Slot};

// The name in a slot, where it lies; a free slot has the empty name.
fn name_there(registry: &[u8], line: Line, slot: Slot) -> &[u8]
    requires { (length registry.now ≡ registry_size) × (line.0 < line_count) × (slot.0 < slot_count) }
    ensures { result.now ≡ name_of (get_or (slots_of registry.now line) slot.0 free) }
{
    let a = slot_at(line, slot);
    let b = a + 1;
    let e = b + usize::from(registry[a]);
    &registry[b..e]
}

// Writes the record of what was decided over the front of the buffer, and says how long it is: 0 where nothing is recorded.
pub fn write_record(out: &mut [u8], registry: &[u8], line: Line, body: &[u8], edit: Edit) -> usize
    requires { (well_formed_registry registry.now ≡ true) × (line.0 < line_count) × SafeEdit (length body.now) edit × (record_most ≤ length out.old) }
    ensures { Wrote (record_for (act_of_change (slots_of registry.now line) line (change_of body.now edit))) out.old out.new result }
{
    match edit {
        Edit::Stays => 0,
        Edit::Fills(_, key) => {
            write_import(
                out,
                line,
                key.name.of(body),
                key.bytes.of(body),
                key.bits as u16,
                key.exported,
                key.verified,
            )
        }
        Edit::Clears(slot) => write_destroy(out, line, name_there(registry, line, slot)),
        Edit::Uses(_) => 0,
    }
}
