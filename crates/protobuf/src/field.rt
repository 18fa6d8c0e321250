// One field: a tag, then what its wire type says ("Operations and their fields").
ghost use Rattle.std.specs.Prelude.{◌≡◌, ◌+◌, length, leb};
ghost use Rattle.protobuf.specs.Field.{number_at, fixed_at, span_at, content_at, field_at};

use crate::varint::read_varint;

// One field, with the position behind it. A span is its bytes' start and count.
#[derive(Clone, Copy)]
pub enum Field {
    Number {
        number: u64,
        value: u64,
        next: usize,
    },
    Span {
        number: u64,
        start: usize,
        len: usize,
        next: usize,
    },
    Fixed {
        number: u64,
        next: usize,
    },
    GroupStart {
        number: u64,
        next: usize,
    },
    GroupEnd {
        number: u64,
        next: usize,
    },
}

// Whether `size` bytes stand at `at`.
fn has_room(body: &[u8], at: usize, size: u64) -> bool
    ensures { result ≡ leb (at + size) (length body.now) }
{
    at <= body.len() && size as usize <= body.len() - at
}

#[tactic(auto, unfolding(crate::specs::Field::number_at))]
fn read_number(body: &[u8], number: u64, at: usize) -> Option<Field>
    ensures { result ≡ number_at body.now number at }
{
    let (value, next) = read_varint(body, at)?;
    Some(Field::Number {
        number,
        value,
        next,
    })
}

#[tactic(auto, unfolding(crate::specs::Field::fixed_at))]
fn read_fixed(body: &[u8], number: u64, size: u64, at: usize) -> Option<Field>
    ensures { result ≡ fixed_at body.now number size at }
{
    if !has_room(body, at, size) {
        return None;
    }
    Some(Field::Fixed {
        number,
        next: at + size as usize,
    })
}

#[tactic(auto, unfolding(crate::specs::Field::span_at))]
fn read_span(body: &[u8], number: u64, at: usize) -> Option<Field>
    ensures { result ≡ span_at body.now number at }
{
    let (len, start) = read_varint(body, at)?;
    if !has_room(body, start, len) {
        return None;
    }
    Some(Field::Span {
        number,
        start,
        len: len as usize,
        next: start + len as usize,
    })
}

#[tactic(auto, unfolding(crate::specs::Field::content_at))]
fn read_content(body: &[u8], number: u64, wire: u64, at: usize) -> Option<Field>
    ensures { result ≡ content_at body.now number wire at }
{
    match wire {
        0 => read_number(body, number, at),
        1 => read_fixed(body, number, 8, at),
        2 => read_span(body, number, at),
        3 => Some(Field::GroupStart { number, next: at }),
        4 => Some(Field::GroupEnd { number, next: at }),
        5 => read_fixed(body, number, 4, at),
        _ => None,
    }
}

#[tactic(auto, unfolding(crate::specs::Field::field_at))]
pub fn read_field(body: &[u8], at: usize) -> Option<Field>
    ensures { result ≡ field_at body.now at }
{
    let (tag, next) = read_varint(body, at)?;
    if u64::from(u32::MAX) < tag {
        return None;
    }
    let number = tag / 8;
    if number == 0 {
        return None;
    }
    read_content(body, number, tag % 8, next)
}
