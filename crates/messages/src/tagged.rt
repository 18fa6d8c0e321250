// Format 2: a record for each field, its tag the field's number; read where it lies, and written (document 02, "A second body
// format").
ghost use Rattle.std.specs.Prelude.{◌≡◌, ℕ, ◌+◌, ◌*◌, ◌^◌, ◌<◌, ◌≤◌, length, take, drop, option_and_then};
ghost use mathlib.Core.List.{List, ◌∷◌, flat_map};
ghost use Rattle.wire.specs.Numbers.{little_endian_of};
ghost use Rattle.wire.specs.code.Wrote.{Wrote};
ghost use Rattle.fields.specs.code.Fields.{BodyIn};
ghost use Rattle.messages.specs.Message as message;
ghost use Rattle.messages.specs.Format.{read_message};
ghost use Rattle.messages.specs.Tagged as tagged;
ghost use Rattle.messages.specs.code.Places.{schema_placed, NoLists, seen};
ghost use Rattle.messages.specs.code.TaggedPlaces.{kind_in, found_in, FoundWithin, field_placed, field_in, FieldWithin};

use fields::{Kind, Schema, Value, Values, all_absent, kind_of, with_value};
use records::file::{is_whole, record_length};
use wire::bytes::copy_into;
use wire::number::{bytes_of_u32, read_u32};

// The value of a kind in a part of the body: a zero, false or empty one is not read.
#[tactic(auto, unfolding(wire::specs::Numbers::field))]
fn value_as(body: &[u8], start: usize, len: usize, kind: Kind) -> Option<Value>
    requires { start + len ≤ length body.now }
    ensures { (found_in body.now kind result ≡ option_and_then (tagged.of_value (take len (drop start body.now))) (kind_in kind)) × FoundWithin (length body.now) kind result }
{
    match kind {
        Kind::Bytes if 1 <= len => Some(Value {
            start,
            len,
            ..Value::default()
        }),
        Kind::Uint32 if len == 4 => {
            let number = read_u32(body, start);
            if number == 0 {
                return None;
            }
            Some(Value {
                number,
                ..Value::default()
            })
        }
        Kind::Boolean if len == 1 && body[start] == 1 => Some(Value {
            number: 1,
            ..Value::default()
        }),
        _ => None,
    }
}

// The field at `at`.
fn read_tagged_field(body: &[u8], at: usize, schema: Schema) -> Option<(u64, Value, usize)>
    requires { at < length body.now }
    ensures { (field_in body.now schema result ≡ field_placed schema body.now at) × FieldWithin (length body.now) at schema result }
{
    let rest = &body[at..];
    if !is_whole(rest) {
        return None;
    }
    let size = record_length(rest);
    let number = u64::from(rest[0]);
    let value = value_as(body, at + 3, size - 3, kind_of(schema, number))?;
    Some((number, value, at + size))
}

// The body read as a message of the schema: fields ascend.
pub fn read_tagged(body: &[u8], schema: Schema) -> Result<Values, usize>
    ensures { ((kinds : message.Schema) → schema ≡ schema_placed kinds → length kinds ≤ 5 → NoLists kinds → seen body.now kinds result ≡ read_message tagged.tagged kinds body.now) × BodyIn (length body.now) result }
{
    let mut m = all_absent();
    let mut last: u64 = 0;
    let mut at = 0;
    while at < body.len() {
        let Some((number, value, next)) = read_tagged_field(body, at, schema) else {
            return Err(at);
        };
        if number <= last {
            return Err(at);
        }
        m = with_value(m, number, value);
        last = number;
        at = next;
    }
    Ok(m)
}

// The tag and the length of a record.
#[tactic(auto, unfolding(wire::specs::Numbers::little_endian_of))]
fn record_head(number: u8, len: u16) -> [u8; 3]
    ensures { result ≡ number ∷ little_endian_of 2 len }
{
    let [low, high] = len.to_le_bytes();
    [number, low, high]
}

// A field of these bytes; none are left out.
#[tactic(auto, using(crate::proofs::TaggedLaws::tagged_none, wire::proofs::BufferLaws::wrote_none))]
pub fn write_tagged(out: &mut [u8], number: u8, value: &[u8]) -> usize
    requires { (length value.now < 2 ^ 16) × (length value.now + 3 ≤ length out.old) }
    ensures { Wrote (tagged.tagged_field number value.now) out.old out.new result }
{
    let len = value.len();
    if len == 0 {
        return 0;
    }
    let head = record_head(number, len as u16);
    let start = copy_into(out, &head);
    let size = copy_into(&mut out[start..], value);
    start + size
}

// How many bytes a field of `len` bytes takes.
#[tactic(auto, using(crate::proofs::TaggedLaws::tagged_none, crate::proofs::TaggedWriteLaws::tagged_length))]
pub fn tagged_size(len: usize) -> usize
    requires { len < 2 ^ 32 }
    ensures { ((number : ℕ) (bytes : List ℕ) → length bytes ≡ len → result ≡ length (tagged.tagged_field number bytes)) × (result ≤ len + 3) }
{
    if len == 0 { 0 } else { len + 3 }
}

// A number's field; 0 is left out.
#[tactic(auto, using(crate::proofs::TaggedLaws::tagged_none, wire::proofs::BufferLaws::wrote_none))]
pub fn write_tagged_number(out: &mut [u8], number: u8, value: u32) -> usize
    requires { 7 ≤ length out.old }
    ensures { Wrote (tagged.tagged_field number (tagged.value_bytes (message.number value))) out.old out.new result }
{
    if value == 0 {
        return 0;
    }
    write_tagged(out, number, &bytes_of_u32(value))
}

// A bool's; false is left out.
#[tactic(auto, using(crate::proofs::TaggedLaws::tagged_none, wire::proofs::BufferLaws::wrote_none))]
pub fn write_tagged_flag(out: &mut [u8], number: u8, value: bool) -> usize
    requires { 4 ≤ length out.old }
    ensures { Wrote (tagged.tagged_field number (tagged.value_bytes (message.flag value))) out.old out.new result }
{
    if !value {
        return 0;
    }
    write_tagged(out, number, &[1])
}

// The entries of a list, four bytes each.
fn write_entries(out: &mut [u8], list: &[u8]) -> usize
    requires { 4 * length list.now ≤ length out.old }
    ensures { Wrote (flat_map (little_endian_of 4) list.now) out.old out.new result }
{
    let mut at = 0;
    for entry in list {
        at += copy_into(&mut out[at..], &bytes_of_u32(u32::from(*entry)));
    }
    at
}

// A list's; an empty one is left out.
pub fn write_tagged_list(out: &mut [u8], number: u8, list: &[u8]) -> usize
    requires { (4 * length list.now < 2 ^ 16) × (4 * length list.now + 3 ≤ length out.old) }
    ensures { Wrote (tagged.tagged_field number (tagged.value_bytes (message.numbers list.now))) out.old out.new result }
{
    let len = list.len();
    if len == 0 {
        return 0;
    }
    let head = record_head(number, (4 * len) as u16);
    let start = copy_into(out, &head);
    let size = write_entries(&mut out[start..], list);
    start + size
}
