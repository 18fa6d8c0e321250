// What a field changes in the values so far ("Operations and their fields").
ghost use Rattle.std.specs.Prelude.{◌≡◌};
ghost use Rattle.protobuf.specs.Group.{depth_most, group_at};
ghost use Rattle.protobuf.specs.code.Message as message;

use crate::field::{Field, read_field};
use crate::group::skip_group;
use fields::{Kind, Schema, Value, Values, kind_of, with_value};

// What a reader does with a field that it doesn't refuse: keep a value under a number and go on, or skip it.
#[derive(Clone, Copy)]
pub enum Item {
    Keep(u64, Value, usize),
    Skip(usize),
}

fn of_number(kind: Kind, number: u64, varint: u64, next: usize) -> Item
    ensures { result ≡ message.of_number kind number varint next }
{
    let read = match kind {
        Kind::Uint32 => (varint % (1 << 32)) as u32,
        Kind::Boolean => u32::from(varint != 0),
        Kind::Bytes | Kind::Unlisted => return Item::Skip(next),
    };
    let value = Value {
        number: read,
        ..Value::default()
    };
    Item::Keep(number, value, next)
}

fn of_span(kind: Kind, number: u64, start: usize, len: usize, next: usize) -> Item
    ensures { result ≡ message.of_span kind number start len next }
{
    let Kind::Bytes = kind else {
        return Item::Skip(next);
    };
    let value = Value {
        start,
        len,
        ..Value::default()
    };
    Item::Keep(number, value, next)
}

// What a reader of the schema does with a field. A group is skipped whole, whatever its number stands for.
#[tactic(auto, unfolding(crate::specs::code::Message::item_of))]
fn item_of(body: &[u8], schema: Schema, field: Field) -> Option<Item>
    ensures { result ≡ message.item_of schema body.now field }
{
    match field {
        Field::Number {
            number,
            value,
            next,
        } => Some(of_number(kind_of(schema, number), number, value, next)),
        Field::Span {
            number,
            start,
            len,
            next,
        } => Some(of_span(kind_of(schema, number), number, start, len, next)),
        Field::Fixed { next, .. } => Some(Item::Skip(next)),
        Field::GroupStart { number, next } => Some(Item::Skip(skip_group(body, number, next)?)),
        Field::GroupEnd { .. } => None,
    }
}

// One field of a body, on top of the values so far.
#[tactic(auto, unfolding(crate::specs::code::Message::step_at))]
pub fn read_step(body: &[u8], at: usize, schema: Schema, values: Values) -> Option<(Values, usize)>
    ensures { result ≡ message.step_at schema body.now at values }
{
    match item_of(body, schema, read_field(body, at)?)? {
        Item::Keep(number, value, next) => Some((with_value(values, number, value), next)),
        Item::Skip(next) => Some((values, next)),
    }
}
