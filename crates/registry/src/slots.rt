// The bytes of a slot, checked and written ("Roster, registry, connection, tally").
ghost use Rattle.std.specs.Prelude.{◌≡◌, ◌+◌, ◌≤◌, ◌<◌, length};
ghost use Rattle.wire.specs.Lists.{padded};
ghost use Rattle.wire.specs.Numbers.{field};
ghost use Rattle.keys.specs.Key.{data_most};
ghost use Rattle.keys.specs.Names.{key_name_most};
ghost use Rattle.registry.specs.Slots.{slot_size, key_bytes, used, used_slot, well_formed_slot};
ghost use Rattle.registry.specs.code.Check.{key_from};

use crate::names::name_of;
use crate::{BITS_AT, DATA_AT, DATA_LENGTH_AT, EXPORT_AT, SLOT_SIZE, USES_AT, VERIFY_AT};
use keys::KEY_NAME_MOST;
use keys::bits::are_legal_bits;
use keys::data::is_legal_data;
use keys::names::is_legal;
use wire::bytes::{all_zero, clear, copy_into};
use wire::number::{read_u16, read_u32, write_u16, write_u32};

// The number in the two bytes at `at`.
pub fn size_at(s: &[u8], at: usize) -> usize
    requires { at + 1 < length s.now }
    ensures { (result ≡ field at 2 s.now) × (result < 65536) }
{
    usize::from(read_u16(s, at))
}

// Whether the bytes of a slot are well formed.
pub fn is_slot(s: &[u8]) -> bool
    requires { length s.now ≡ slot_size }
    ensures { result ≡ well_formed_slot s.now }
{
    if s[0] == 0 {
        return all_zero(s);
    }
    let name = name_of(s);
    if !is_legal(name, KEY_NAME_MOST) {
        return false;
    }
    let e = 1 + name.len();
    if !all_zero(&s[e..DATA_LENGTH_AT]) {
        return false;
    }
    let d = size_at(s, DATA_LENGTH_AT);
    if !is_legal_data(d) {
        return false;
    }
    let f = DATA_AT + d;
    if !all_zero(&s[f..BITS_AT]) {
        return false;
    }
    if !are_legal_bits(size_at(s, BITS_AT)) {
        return false;
    }
    if 1 < s[EXPORT_AT] {
        return false;
    }
    s[VERIFY_AT] <= 1
}

// Writes the bytes of `src` and then zeros.
pub fn write_padded(dst: &mut [u8], src: &[u8])
    requires { length src.now ≤ length dst.old }
    ensures { dst.new ≡ padded (length dst.old) src.now }
{
    let k = copy_into(dst, src);
    clear(&mut dst[k..]);
}

// Writes a key into the bytes of a slot.
pub fn write_key(
    slot: &mut [u8],
    name: &[u8],
    bytes: &[u8],
    bits: u16,
    exported: bool,
    verified: bool,
)
    requires { (length slot.old ≡ slot_size) × (length name.now ≤ key_name_most) × (length bytes.now ≤ data_most) }
    ensures { slot.new ≡ key_bytes (key_from name.now bytes.now bits exported verified) }
{
    slot[0] = name.len() as u8;
    write_padded(&mut slot[1..DATA_LENGTH_AT], name);
    write_u16(&mut slot[DATA_LENGTH_AT..DATA_AT], bytes.len() as u16);
    write_padded(&mut slot[DATA_AT..BITS_AT], bytes);
    write_u16(&mut slot[BITS_AT..EXPORT_AT], bits);
    slot[EXPORT_AT] = u8::from(exported);
    slot[VERIFY_AT] = u8::from(verified);
    clear(&mut slot[USES_AT..SLOT_SIZE]);
}

// One use more; a count that is at its most stays.
#[tactic(auto, using(crate::proofs::UsedLaws::used_saturates))]
fn one_more(uses: u32) -> u32
    ensures { result ≡ used uses }
{
    uses.saturating_add(1)
}

// Counts a use of the key in the bytes of a slot.
pub fn count_use(slot: &mut [u8])
    requires { length slot.old ≡ slot_size }
    ensures { slot.new ≡ used_slot slot.old }
{
    let uses = read_u32(slot, USES_AT);
    write_u32(&mut slot[USES_AT..SLOT_SIZE], one_more(uses));
}
