// A reader: a body and a place in it, so that the body is read where it lies (document 01, "The form for each place"). Kept: what
// reads a single field takes the two apart, since its callers store places, and no readers.
ghost use Rattle.std.specs.Prelude.{◌≡◌};
ghost use Rattle.fields.specs.code.Fields.{all_absent};
ghost use Rattle.protobuf.specs.code.Body.{body_at};

use crate::body::read_fields;
use fields::{Schema, Values};

#[derive(Clone, Copy)]
pub struct Reader<'a> {
    pub body: &'a [u8],
    pub at: usize,
}

impl<'a> Reader<'a> {
    // A reader at the body's first byte.
    pub fn new(body: &'a [u8]) -> Reader<'a>
        ensures { (result.body ≡ body.entry) × (result.at ≡ 0) }
    {
        Reader { body, at: 0 }
    }

    // The message from the reader's place on.
    pub fn read_message(self, schema: Schema) -> Result<Values, usize>
        ensures { result ≡ body_at schema self.entry.body.now self.entry.at all_absent }
    {
        read_fields(self.body, self.at, schema)
    }
}
