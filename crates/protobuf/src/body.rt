// A body read field by field ("Operations and their fields").
ghost use Rattle.std.specs.Prelude.{◌≡◌};
ghost use Rattle.fields.specs.code.Fields.{all_absent};
ghost use Rattle.protobuf.specs.code.Body.{body_at, body_of};

use crate::message::read_step;
use crate::reader::Reader;
use fields::{Schema, Values, all_absent};

// The fields of the body from `start` on, read as a message of the schema.
#[tactic(auto, using(crate::proofs::BodyLaws::reads))]
pub fn read_fields(body: &[u8], start: usize, schema: Schema) -> Result<Values, usize>
    ensures { result ≡ body_at schema body.now start all_absent }
{
    let mut values = all_absent();
    let mut at = start;
    while at < body.len() {
        let Some((more, next)) = read_step(body, at, schema, values) else {
            return Err(at);
        };
        values = more;
        at = next;
    }
    Ok(values)
}

// The body read as a message of the schema.
pub fn read_body(body: &[u8], schema: Schema) -> Result<Values, usize>
    ensures { result ≡ body_of schema body.now }
{
    Reader::new(body).read_message(schema)
}
