// The fields of a body as up to five values, whatever format it is in: which field numbers are listed, and what was read
// ("Operations and their fields").
#![tactic(auto)]

ghost use Rattle.std.specs.Prelude.{◌≡◌};
ghost use Rattle.fields.specs.code.Fields.{kind_of, with_value, all_absent};

// What a field number stands for in a message.
#[derive(Clone, Copy, Default)]
pub enum Kind {
    Bytes,
    Uint32,
    Boolean,
    #[default]
    Unlisted,
}

// The kinds of a message's field numbers 1 to 5; no other is listed, and by default none is. Kept, here and in `Values`: five
// names and no array, since a field is named by its number, which begins at 1, and an array's place for it would be one below.
#[derive(Clone, Copy, Default)]
pub struct Schema {
    pub k1: Kind,
    pub k2: Kind,
    pub k3: Kind,
    pub k4: Kind,
    pub k5: Kind,
}

// A value: of bytes the start and the count in the body, of the other kinds the number. By default a field is absent.
#[derive(Clone, Copy, Default)]
pub struct Value {
    pub start: usize,
    pub len: usize,
    pub number: u32,
}

#[derive(Clone, Copy, Default)]
pub struct Values {
    pub f1: Value,
    pub f2: Value,
    pub f3: Value,
    pub f4: Value,
    pub f5: Value,
}

pub fn kind_of(schema: Schema, number: u64) -> Kind
    ensures { result ≡ kind_of schema number }
{
    match number {
        1 => schema.k1,
        2 => schema.k2,
        3 => schema.k3,
        4 => schema.k4,
        5 => schema.k5,
        _ => Kind::Unlisted,
    }
}

#[tactic(auto, unfolding(crate::specs::code::Fields::with_value))]
pub fn with_value(values: Values, number: u64, value: Value) -> Values
    ensures { result ≡ with_value values number value }
{
    match number {
        1 => Values {
            f1: value,
            ..values
        },
        2 => Values {
            f2: value,
            ..values
        },
        3 => Values {
            f3: value,
            ..values
        },
        4 => Values {
            f4: value,
            ..values
        },
        5 => Values {
            f5: value,
            ..values
        },
        _ => values,
    }
}

pub fn all_absent() -> Values
    ensures { result ≡ all_absent }
{
    Values::default()
}
