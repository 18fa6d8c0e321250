// A whole record carried out on the registry, as Import or Destroy does it, or refused (document 02, "Surviving a power cut").
ghost use Rattle.std.specs.Prelude.{◌≡◌, ◌&&◌, [], ◌≤◌, ◌<◌, length};
ghost use Rattle.keys.specs.Key.{legal_bits};
ghost use Rattle.registry.specs.Registry.{line_count, registry_size, slots_of};
ghost use Rattle.registry.specs.code.Check.{key_from};
ghost use Rattle.judgement.specs.Operations.{import_by, perform_destroy, within_bounds};
ghost use Rattle.journal.specs.Record.{value_most, act_in};
ghost use Rattle.journal.specs.Replay.{in_use, judge_act};
ghost use Rattle.journal.specs.code.Done.{done_on, left_by};

use crate::Fault;
use keys::bits::are_legal_bits;
use keys::data::is_legal_data;
use keys::names::is_legal;
use keys::{DATA_MOST, KEY_NAME_MOST};
use registry::change::{clear_slot, fill_slot};
use registry::find::find_slot;
use registry::{LINE_SIZE, LINES, Line};
use wire::number::read_u16;

// Where an import's name begins, and the longest value, an import's.
const NAME_AT: usize = 6;

pub const VALUE_MOST: usize = NAME_AT + (KEY_NAME_MOST + DATA_MOST);

// Whether Import took the key by 01's rule of bits: a registry may hold it.
fn is_importable(name: &[u8], bytes: &[u8], bits: u16, exported: bool, verified: bool) -> bool
    ensures { result ≡ (within_bounds (key_from name.now bytes.now bits exported verified) && legal_bits bits) }
{
    is_legal(name, KEY_NAME_MOST) && is_legal_data(bytes.len()) && are_legal_bits(usize::from(bits))
}

// Imports a key, if Import would by 01's rule of bits; all other bytes of the registry stay.
fn import_key(
    registry: &mut [u8],
    line: Line,
    name: &[u8],
    bytes: &[u8],
    bits: u16,
    exported: bool,
    verified: bool,
) -> Result<(), Fault>
    requires { (length registry.old ≡ registry_size) × (line.0 < line_count) }
    ensures { record { judged = result; registry = registry.new } ≡ done_on registry.old line (import_by legal_bits (key_from name.now bytes.now bits exported verified) (slots_of registry.old line) []) }
{
    if !is_importable(name, bytes, bits, exported, verified) {
        return Err(Fault::NotAllowed);
    }
    if find_slot(registry, line, name).is_some() {
        return Err(Fault::NotAllowed);
    }
    // The empty name: a free slot.
    let slot = find_slot(registry, line, &[]).ok_or(Fault::NotAllowed)?;
    fill_slot(registry, line, slot, name, bytes, bits, exported, verified);
    Ok(())
}

// Destroys a key, if Destroy would; all other bytes of the registry stay.
fn destroy_key(registry: &mut [u8], line: Line, name: &[u8]) -> Result<(), Fault>
    requires { (length registry.old ≡ registry_size) × (line.0 < line_count) }
    ensures { record { judged = result; registry = registry.new } ≡ done_on registry.old line (perform_destroy name.now (slots_of registry.old line) []) }
{
    if !is_legal(name, KEY_NAME_MOST) {
        return Err(Fault::NotAllowed);
    }
    let slot = find_slot(registry, line, name).ok_or(Fault::NotAllowed)?;
    clear_slot(registry, line, slot);
    Ok(())
}

// Whether there is such a line, and it is used.
fn is_in_use(registry: &[u8], line: Line) -> bool
    requires { length registry.now ≡ registry_size }
    ensures { result ≡ in_use registry.now line }
{
    let l = line.0;
    if LINES <= l {
        return false;
    }
    registry[l * LINE_SIZE] != 0
}

fn replay_import(registry: &mut [u8], value: &[u8]) -> Result<(), Fault>
    requires { (length registry.old ≡ registry_size) × (length value.now ≤ value_most) }
    ensures { record { judged = result; registry = registry.new } ≡ left_by registry.old (judge_act registry.old (act_in (record { tag = 2; value = value.now }))) }
{
    if value.len() < NAME_AT {
        return Err(Fault::WrongLayout);
    }
    if 1 < value[3] {
        return Err(Fault::WrongLayout);
    }
    if 1 < value[4] {
        return Err(Fault::WrongLayout);
    }
    let e = NAME_AT + usize::from(value[5]);
    if value.len() < e {
        return Err(Fault::WrongLayout);
    }
    let line = Line(usize::from(value[0]));
    if !is_in_use(registry, line) {
        return Err(Fault::NotAllowed);
    }
    let bits = read_u16(value, 1);
    import_key(
        registry,
        line,
        &value[NAME_AT..e],
        &value[e..],
        bits,
        value[3] == 1,
        value[4] == 1,
    )
}

fn replay_destroy(registry: &mut [u8], value: &[u8]) -> Result<(), Fault>
    requires { (length registry.old ≡ registry_size) × (length value.now ≤ value_most) }
    ensures { record { judged = result; registry = registry.new } ≡ left_by registry.old (judge_act registry.old (act_in (record { tag = 3; value = value.now }))) }
{
    if value.len() == 0 {
        return Err(Fault::WrongLayout);
    }
    let line = Line(usize::from(value[0]));
    if !is_in_use(registry, line) {
        return Err(Fault::NotAllowed);
    }
    destroy_key(registry, line, &value[1..])
}

// Carries out what a record says.
pub fn replay(registry: &mut [u8], tag: u8, value: &[u8]) -> Result<(), Fault>
    requires { (length registry.old ≡ registry_size) × (length value.now ≤ value_most) }
    ensures { record { judged = result; registry = registry.new } ≡ left_by registry.old (judge_act registry.old (act_in (record { tag = tag; value = value.now }))) }
{
    match tag {
        2 => replay_import(registry, value),
        3 => replay_destroy(registry, value),
        _ => Err(Fault::WrongLayout),
    }
}
