// The formats of a body, and its fields read and written by one of them (document 02, "A second body format").
ghost use Rattle.std.specs.Prelude.{◌≡◌, true, List, ℕ, ◌+◌, ◌*◌, ◌^◌, ◌<◌, ◌≤◌, length, ltb};
ghost use Rattle.wire.specs.Lists.{all, one_of};
ghost use Rattle.wire.specs.code.Wrote.{Wrote};
ghost use Rattle.fields.specs.code.Fields.{BodyIn};
ghost use Rattle.messages.specs.Message as message;
ghost use Rattle.messages.specs.Format.{read_message};
ghost use Rattle.messages.specs.Formats.{format_of, format_for, content_type_of, content_types};
ghost use Rattle.messages.specs.code.Places.{schema_placed, NoLists, seen};
ghost use Rattle.messages.specs.code.Bodies.{field_room};

use crate::tagged::{
    read_tagged, tagged_size, write_tagged, write_tagged_flag, write_tagged_list,
    write_tagged_number,
};
use fields::{Kind, Schema, Values};
use protobuf::body::read_body;
use protobuf::write::{bytes_field_size, write_bytes_field, write_number_field};

// Content types 1 and 2.
#[derive(Clone, Copy)]
pub enum BodyFormat {
    Protobuf = 1,
    Tagged = 2,
}

// Kept, `format_for` and `is_content_type`: a `TryFrom<u8>` would make an error only for the one to drop and the other to test. Kept,
// too: what reads and writes a field below chooses by the format, each time another function, so that no two of them are one.
// The format of a content type; one that is neither 1 nor 2 is answered as 1.
#[tactic(auto, unfolding(crate::specs::Formats::format_for))]
pub fn format_for(content_type: u8) -> BodyFormat
    ensures { result ≡ format_for content_type }
{
    match content_type {
        2 => BodyFormat::Tagged,
        _ => BodyFormat::Protobuf,
    }
}

#[tactic(auto, unfolding(wire::specs::Lists::one_of))]
pub fn is_content_type(content_type: u8) -> bool
    ensures { result ≡ one_of content_types content_type }
{
    matches!(content_type, 1 | 2)
}

#[tactic(auto, unfolding(crate::specs::Formats::content_type_of))]
pub fn content_type_of(format: BodyFormat) -> u8
    ensures { result ≡ content_type_of format }
{
    format as u8
}

// The schemas of a body with no field, with one of bytes, and with one or two numbers.
pub(crate) const NO_FIELDS: Schema = Schema {
    k1: Kind::Unlisted,
    k2: Kind::Unlisted,
    k3: Kind::Unlisted,
    k4: Kind::Unlisted,
    k5: Kind::Unlisted,
};

pub(crate) const ONE_OF_BYTES: Schema = Schema {
    k1: Kind::Bytes,
    ..NO_FIELDS
};

pub(crate) const ONE_NUMBER: Schema = Schema {
    k1: Kind::Uint32,
    ..NO_FIELDS
};

pub(crate) const TWO_NUMBERS: Schema = Schema {
    k2: Kind::Uint32,
    ..ONE_NUMBER
};

// The body read as a message of the schema, of kinds other than lists.
pub fn read_fields(format: BodyFormat, body: &[u8], schema: Schema) -> Result<Values, usize>
    ensures { ((kinds : message.Schema) → schema ≡ schema_placed kinds → length kinds ≤ 5 → NoLists kinds → seen body.now kinds result ≡ read_message (format_of format) kinds body.now) × BodyIn (length body.now) result }
{
    match format {
        BodyFormat::Protobuf => read_body(body, schema),
        BodyFormat::Tagged => read_tagged(body, schema),
    }
}

// A number's field.
pub fn write_number(format: BodyFormat, out: &mut [u8], number: u8, value: u32) -> usize
    requires { field_room ≤ length out.old }
    ensures { Wrote ((format_of format).bytes_of number (message.number value)) out.old out.new result × (result ≤ field_room) }
{
    match format {
        BodyFormat::Protobuf => write_number_field(out, u64::from(number), u64::from(value)),
        BodyFormat::Tagged => write_tagged_number(out, number, value),
    }
}

// A bool's.
pub fn write_flag(format: BodyFormat, out: &mut [u8], number: u8, value: bool) -> usize
    requires { field_room ≤ length out.old }
    ensures { Wrote ((format_of format).bytes_of number (message.flag value)) out.old out.new result × (result ≤ field_room) }
{
    match format {
        BodyFormat::Protobuf => write_number_field(out, u64::from(number), u64::from(value)),
        BodyFormat::Tagged => write_tagged_flag(out, number, value),
    }
}

// A field of bytes.
pub fn write_bytes(format: BodyFormat, out: &mut [u8], number: u8, bytes: &[u8]) -> usize
    requires { (length bytes.now < 2 ^ 16) × (length bytes.now + field_room ≤ length out.old) }
    ensures { Wrote ((format_of format).bytes_of number (message.octets bytes.now)) out.old out.new result × (result ≤ length bytes.now + field_room) }
{
    match format {
        BodyFormat::Protobuf => write_bytes_field(out, u64::from(number), bytes),
        BodyFormat::Tagged => write_tagged(out, number, bytes),
    }
}

// How many bytes a field of `len` bytes takes.
pub fn bytes_size(format: BodyFormat, number: u8, len: usize) -> usize
    requires { len < 2 ^ 32 }
    ensures { ((bytes : List ℕ) → length bytes ≡ len → result ≡ length ((format_of format).bytes_of number (message.octets bytes))) × (result ≤ len + field_room) }
{
    match format {
        BodyFormat::Protobuf => bytes_field_size(u64::from(number), len),
        BodyFormat::Tagged => tagged_size(len),
    }
}

// A list's, of numbers below 128: in Protocol Buffers each is its own varint.
pub fn write_list(format: BodyFormat, out: &mut [u8], number: u8, list: &[u8]) -> usize
    requires { (all (λ n. ltb n 128) list.now ≡ true) × (4 * length list.now < 2 ^ 16) × (4 * length list.now + field_room ≤ length out.old) }
    ensures { Wrote ((format_of format).bytes_of number (message.numbers list.now)) out.old out.new result × (result ≤ 4 * length list.now + field_room) }
{
    match format {
        BodyFormat::Protobuf => write_bytes_field(out, u64::from(number), list),
        BodyFormat::Tagged => write_tagged_list(out, number, list),
    }
}
