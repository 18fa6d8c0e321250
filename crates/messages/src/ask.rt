// A request's body read as the operation that it asks for, told by its places in the body: no copy is made ("Operations and
// their fields").
ghost use Rattle.std.specs.Prelude.{◌≡◌, length};
ghost use Rattle.messages.specs.Formats.{format_of};
ghost use Rattle.messages.specs.Operations as message;
ghost use Rattle.messages.specs.Placed.{asking_in, AskedWithin};
ghost use Rattle.messages.specs.code.Places.{schema_placed};

use crate::format::{BodyFormat, NO_FIELDS, ONE_NUMBER, ONE_OF_BYTES, read_fields};
use crate::opcodes::{
    LIST_OPCODES, LIST_PROVIDERS, PING, PSA_ASYMMETRIC_VERIFY, PSA_DESTROY_KEY,
    PSA_EXPORT_PUBLIC_KEY, PSA_IMPORT_KEY,
};
use fields::{Kind, Schema, Value};
use wire::span::Span;

// A key's parts in the bytes that were read.
#[derive(Clone, Copy)]
pub struct KeyPlaces {
    pub name: Span,
    pub bytes: Span,
    pub bits: u32,
    pub exported: bool,
    pub verified: bool,
}

// What a request asks for.
#[derive(Clone, Copy)]
pub enum Asked {
    Ping,
    ListProviders,
    ListOpcodes(u32),
    ImportKey(KeyPlaces),
    DestroyKey(Span),
    ExportPublicKey(Span),
    VerifySignature(Span, Span, Span),
}

// The fields of an operation's body.
#[tactic(auto, unfolding(crate::specs::Operations::input_fields))]
pub fn input_schema(opcode: u16) -> Schema
    ensures { result ≡ schema_placed (message.input_fields opcode) }
{
    match opcode {
        LIST_OPCODES => ONE_NUMBER,
        PSA_IMPORT_KEY => Schema {
            k1: Kind::Bytes,
            k2: Kind::Bytes,
            k3: Kind::Uint32,
            k4: Kind::Boolean,
            k5: Kind::Boolean,
        },
        PSA_DESTROY_KEY | PSA_EXPORT_PUBLIC_KEY => ONE_OF_BYTES,
        PSA_ASYMMETRIC_VERIFY => Schema {
            k1: Kind::Bytes,
            k2: Kind::Bytes,
            k3: Kind::Bytes,
            ..NO_FIELDS
        },
        _ => NO_FIELDS,
    }
}

// Where the bytes of a value lie. Kept as a function: `Value` and `Span` are other crates', so that no `From` can stand here.
pub(crate) fn span_of(v: Value) -> Span
    ensures { result ≡ record { start = v.start; len = v.len } }
{
    Span {
        start: v.start,
        len: v.len,
    }
}

// The operation that an opcode and its body ask for; or where the first field of the body that can't be read starts.
pub fn read_operation(format: BodyFormat, opcode: u16, body: &[u8]) -> Result<Asked, usize>
    ensures { (asking_in body.now result ≡ message.asked (format_of format) opcode body.now) × AskedWithin (length body.now) result }
{
    let v = read_fields(format, body, input_schema(opcode))?;
    match opcode {
        PING => Ok(Asked::Ping),
        LIST_PROVIDERS => Ok(Asked::ListProviders),
        LIST_OPCODES => Ok(Asked::ListOpcodes(v.f1.number)),
        PSA_IMPORT_KEY => Ok(Asked::ImportKey(KeyPlaces {
            name: span_of(v.f1),
            bytes: span_of(v.f2),
            bits: v.f3.number,
            exported: v.f4.number != 0,
            verified: v.f5.number != 0,
        })),
        PSA_DESTROY_KEY => Ok(Asked::DestroyKey(span_of(v.f1))),
        PSA_EXPORT_PUBLIC_KEY => Ok(Asked::ExportPublicKey(span_of(v.f1))),
        PSA_ASYMMETRIC_VERIFY => Ok(Asked::VerifySignature(
            span_of(v.f1),
            span_of(v.f2),
            span_of(v.f3),
        )),
        _ => Err(0),
    }
}
