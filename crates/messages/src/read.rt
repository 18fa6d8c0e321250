// A response's body read as the output that an opcode has, told by its places in the body: no copy is made ("Operations and
// their fields").
ghost use Rattle.std.specs.Prelude.{◌≡◌, length, is_some};
ghost use Rattle.messages.specs.Message.{numbers_of, value_at};
ghost use Rattle.messages.specs.Protobuf.{packed_of, protobuf};
ghost use Rattle.messages.specs.Tagged.{tagged};
ghost use Rattle.messages.specs.Formats.{format_of};
ghost use Rattle.messages.specs.Operations.{read_body, output_of, answer_of};
ghost use Rattle.messages.specs.Placed.{read_in, ReadWithin, read_list_outcome};
ghost use Rattle.messages.specs.code.ListBody.{list_schema, field_in, skipped_field, FieldWithin, entries_in, ListWithin};

use crate::ask::span_of;
use crate::format::{BodyFormat, NO_FIELDS, ONE_NUMBER, ONE_OF_BYTES, TWO_NUMBERS, read_fields};
use crate::opcodes::{
    LIST_OPCODES, LIST_PROVIDERS, PING, PSA_ASYMMETRIC_VERIFY, PSA_DESTROY_KEY,
    PSA_EXPORT_PUBLIC_KEY, PSA_IMPORT_KEY,
};
use crate::tagged::read_tagged;
use protobuf::field::{Field, read_field};
use protobuf::group::skip_group;
use protobuf::varint::read_varint;
use wire::number::read_u32;
use wire::span::Span;

// A list is a span of packed varints, or of four bytes an entry; `read_list` takes it apart. Kept: `Nothing` is what some operations
// answer, and no output that is missing.
#[derive(Clone, Copy)]
pub enum Output {
    Nothing,
    Version(u32, u32),
    Providers(Span),
    Opcodes(Span),
    Data(Span),
    Offset(u32),
}

// Whether bytes are varints to their end.
fn is_packed(bytes: &[u8]) -> bool
    ensures { result ≡ is_some (packed_of bytes.now) }
{
    let mut at = 0;
    while at < bytes.len() {
        let Some((_, next)) = read_varint(bytes, at) else {
            return false;
        };
        at = next;
    }
    true
}

// The position behind a field that is not the list.
#[tactic(auto, unfolding(crate::specs::code::ListBody::skipped_field))]
fn skip_field(body: &[u8], f: Field) -> Option<usize>
    ensures { result ≡ skipped_field body.now f }
{
    match f {
        Field::Number { next, .. } | Field::Span { next, .. } | Field::Fixed { next, .. } => {
            Some(next)
        }
        Field::GroupStart { number, next } => skip_group(body, number, next),
        Field::GroupEnd { .. } => None,
    }
}

// The field at `at`: where the list lies, if it is the list, and the position behind it. Its varints are read in its own bytes:
// one that is cut by its end is not finished by what follows.
fn read_list_field(body: &[u8], at: usize) -> Option<(Option<Span>, usize)>
    ensures { (field_in body.now result ≡ protobuf.field_at list_schema body.now at) × FieldWithin (length body.now) at result }
{
    let f = read_field(body, at)?;
    let Field::Span {
        number,
        start,
        len,
        next,
    } = f
    else {
        return Some((None, skip_field(body, f)?));
    };
    if number != 1 {
        return Some((None, next));
    }
    let span = Span { start, len };
    if !is_packed(span.of(body)) {
        return None;
    }
    Some((Some(span), next))
}

// Format 1's list: each of its fields is read, and the last one counts; an absent one is empty.
fn read_packed_body(body: &[u8]) -> Option<Span>
    ensures { (entries_in BodyFormat.Protobuf body.now result ≡ read_body protobuf list_schema body.now (λ m. numbers_of (value_at m 1))) × ListWithin (length body.now) result }
{
    let mut span = Span { start: 0, len: 0 };
    let mut at = 0;
    while at < body.len() {
        let (found, next) = read_list_field(body, at)?;
        span = found.unwrap_or(span);
        at = next;
    }
    Some(span)
}

// Format 2's: its one field, read as bytes, must be whole entries.
fn read_fours_body(body: &[u8]) -> Option<Span>
    ensures { (entries_in BodyFormat.Tagged body.now result ≡ read_body tagged list_schema body.now (λ m. numbers_of (value_at m 1))) × ListWithin (length body.now) result }
{
    let m = read_tagged(body, ONE_OF_BYTES).ok()?;
    if m.f1.len % 4 != 0 {
        return None;
    }
    Some(span_of(m.f1))
}

fn read_list_body(format: BodyFormat, body: &[u8]) -> Option<Span>
    ensures { (entries_in format body.now result ≡ read_body (format_of format) list_schema body.now (λ m. numbers_of (value_at m 1))) × ListWithin (length body.now) result }
{
    match format {
        BodyFormat::Protobuf => read_packed_body(body),
        BodyFormat::Tagged => read_fours_body(body),
    }
}

// The output that a response with status 0 has, by the opcode of its request.
pub fn read_output(format: BodyFormat, opcode: u16, body: &[u8]) -> Option<Output>
    ensures { (read_in format body.now result ≡ output_of (format_of format) opcode body.now) × ReadWithin (length body.now) result }
{
    match opcode {
        PING => {
            let m = read_fields(format, body, TWO_NUMBERS).ok()?;
            Some(Output::Version(m.f1.number, m.f2.number))
        }
        LIST_PROVIDERS => Some(Output::Providers(read_list_body(format, body)?)),
        LIST_OPCODES => Some(Output::Opcodes(read_list_body(format, body)?)),
        PSA_EXPORT_PUBLIC_KEY => {
            let m = read_fields(format, body, ONE_OF_BYTES).ok()?;
            Some(Output::Data(span_of(m.f1)))
        }
        PSA_IMPORT_KEY | PSA_DESTROY_KEY | PSA_ASYMMETRIC_VERIFY => {
            read_fields(format, body, NO_FIELDS).ok()?;
            Some(Output::Nothing)
        }
        _ => None,
    }
}

// The output that a response has, by its status and the opcode of its request.
#[tactic(auto, unfolding(crate::specs::Operations::answer_of))]
pub fn read_answer(format: BodyFormat, opcode: u16, status: u16, body: &[u8]) -> Option<Output>
    ensures { (read_in format body.now result ≡ answer_of (format_of format) opcode status body.now) × ReadWithin (length body.now) result }
{
    match status {
        0 => read_output(format, opcode, body),
        // Where a body broke.
        7 => {
            let m = read_fields(format, body, ONE_NUMBER).ok()?;
            Some(Output::Offset(m.f1.number))
        }
        _ if body.is_empty() => Some(Output::Nothing),
        _ => None,
    }
}

// Takes a packed list apart: its first entries over the front of `entries`, as many as there is room for, up to the first that
// is no varint. Says how many.
fn read_packed(packed: &[u8], entries: &mut [u32]) -> usize
    ensures { record { count = result; entries = entries.new } ≡ read_list_outcome BodyFormat.Protobuf packed.now entries.old }
{
    let mut at = 0;
    for count in 0..entries.len() {
        let Some((value, next)) = read_varint(packed, at) else {
            return count;
        };
        entries[count] = (value % 4294967296) as u32;
        at = next;
    }
    entries.len()
}

// One of four bytes an entry: bytes behind the last whole entry are none.
fn read_fours(list: &[u8], entries: &mut [u32]) -> usize
    ensures { record { count = result; entries = entries.new } ≡ read_list_outcome BodyFormat.Tagged list.now entries.old }
{
    let count = entries.len().min(list.len() / 4);
    for i in 0..count {
        entries[i] = read_u32(list, 4 * i);
    }
    count
}

// Takes a list apart: its first entries over the front of `entries`, as many as there is room for. Says how many.
pub fn read_list(format: BodyFormat, list: &[u8], entries: &mut [u32]) -> usize
    ensures { record { count = result; entries = entries.new } ≡ read_list_outcome format list.now entries.old }
{
    match format {
        BodyFormat::Protobuf => read_packed(list, entries),
        BodyFormat::Tagged => read_fours(list, entries),
    }
}
