// The registry: its check, searches, changes, and what a slot holds.
ghost use Rattle.std.specs.Prelude.{◌≡◌, ◌&&◌, length, leb};
ghost use Rattle.registry.specs.WellFormed.{well_formed_registry};
ghost use Rattle.registry.specs.code.Check.{key_from};
ghost use Rattle.roster.specs.Roster.{load_roster};
ghost use Rattle.probe.specs.code.Answers.{WroteIf, ChangedIf, line_found, slot_found, is_clearable, cleared, is_fillable, filled, is_readable, data_at, exportable, loaded_number};

use crate::REFUSED;
use keys::{DATA_MOST, KEY_NAME_MOST};
use registry::change::{clear_slot, fill_slot};
use registry::check::is_well_formed;
use registry::find::{find_application, find_slot};
use registry::key::{is_exportable, key_data};
use registry::{LINES, Line, REGISTRY_SIZE, SLOTS, Slot};
use roster::load::load_roster;
use wire::bytes::copy_into;

#[unsafe(no_mangle)]
pub extern "C" fn probe_registry_is_well_formed(registry: &[u8]) -> bool
    ensures { result ≡ well_formed_registry registry.now }
{
    is_well_formed(registry)
}

// The number of the application's line, or how many lines there are.
#[unsafe(no_mangle)]
pub extern "C" fn probe_find_application(registry: &[u8], name: &[u8]) -> usize
    ensures { result ≡ line_found registry.now name.now }
{
    if registry.len() != REGISTRY_SIZE {
        return REFUSED;
    }
    match find_application(registry, name) {
        Some(line) => line.0,
        None => LINES,
    }
}

// The number of the slot, or how many slots there are.
#[unsafe(no_mangle)]
pub extern "C" fn probe_find_slot(registry: &[u8], line: usize, name: &[u8]) -> usize
    ensures { result ≡ slot_found registry.now line name.now }
{
    if registry.len() != REGISTRY_SIZE || LINES <= line {
        return REFUSED;
    }
    match find_slot(registry, Line(line), name) {
        Some(slot) => slot.0,
        None => SLOTS,
    }
}

#[unsafe(no_mangle)]
pub extern "C" fn probe_fill_slot(
    registry: &mut [u8],
    line: usize,
    slot: usize,
    name: &[u8],
    bytes: &[u8],
    bits: u16,
    exported: bool,
    verified: bool,
) -> bool
    ensures { ChangedIf (is_fillable registry.old line slot name.now bytes.now) (filled registry.old line slot (key_from name.now bytes.now bits exported verified)) registry.old registry.new result }
{
    if registry.len() != REGISTRY_SIZE
        || LINES <= line
        || SLOTS <= slot
        || KEY_NAME_MOST < name.len()
        || DATA_MOST < bytes.len()
    {
        return false;
    }
    fill_slot(
        registry,
        Line(line),
        Slot(slot),
        name,
        bytes,
        bits,
        exported,
        verified,
    );
    true
}

#[unsafe(no_mangle)]
pub extern "C" fn probe_clear_slot(registry: &mut [u8], line: usize, slot: usize) -> bool
    ensures { ChangedIf (is_clearable registry.old line slot) (cleared registry.old line slot) registry.old registry.new result }
{
    if registry.len() != REGISTRY_SIZE || LINES <= line || SLOTS <= slot {
        return false;
    }
    clear_slot(registry, Line(line), Slot(slot));
    true
}

// Copies the data of the key in a slot over the front of `out`, and answers their count.
#[unsafe(no_mangle)]
pub extern "C" fn probe_key_data(registry: &[u8], line: usize, slot: usize, out: &mut [u8]) -> usize
    ensures { WroteIf (is_readable registry.now line slot && leb (length (data_at registry.now line slot)) (length out.old)) (data_at registry.now line slot) out.old out.new result }
{
    if !is_well_formed(registry) || LINES <= line || SLOTS <= slot {
        return REFUSED;
    }
    let bytes = key_data(registry, Line(line), Slot(slot));
    if out.len() < bytes.len() {
        return REFUSED;
    }
    copy_into(out, bytes)
}

// 1 where the key in a slot may be exported, else 0.
#[tactic(auto, unfolding(registry::specs::Slots::flag))]
#[unsafe(no_mangle)]
pub extern "C" fn probe_is_exportable(registry: &[u8], line: usize, slot: usize) -> usize
    ensures { result ≡ exportable registry.now line slot }
{
    if !is_well_formed(registry) || LINES <= line || SLOTS <= slot {
        return REFUSED;
    }
    usize::from(is_exportable(registry, Line(line), Slot(slot)))
}

// The number of the fault, R0 to R5, or 6 for a good file.
#[unsafe(no_mangle)]
pub extern "C" fn probe_load_roster(file: &[u8], registry: &mut [u8]) -> usize
    ensures { (result ≡ loaded_number (load_roster file.now registry.old).answer) × (registry.new ≡ (load_roster file.now registry.old).registry) }
{
    match load_roster(file, registry) {
        Ok(()) => 6,
        Err(fault) => u32::from(fault) as usize,
    }
}
