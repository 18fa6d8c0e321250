// What is refused before a byte of a request is written: the first test that holds (document 02, "The client's half", "Checking
// signatures").
ghost use Rattle.std.specs.Prelude.{Bool, ◌≡◌, Some, None, option_copied};
ghost use Rattle.std.specs.Result.{result_err};
ghost use Rattle.wire.specs.Choice.{when◌then◌else◌, first_of};
ghost use Rattle.messages.specs.Operations.{ping, import_key, destroy_key, verify_signature};
ghost use Rattle.client_requests.specs.Writing.{legal_types, legal_sender, legal_body, write_tests};

use crate::{Client, NewKey, SignedHash, Types, WriteRefusal};
use keys::bits::are_import_bits;
use keys::data::is_legal_data;
use keys::names::is_legal;
use keys::{APPLICATION_NAME_MOST, KEY_NAME_MOST};
use messages::HASH_SIZE;
use messages::format::{BodyFormat, format_for, is_content_type};
use messages::write::verify_body_size;
use wire::header::CONTENT_MOST;

// The shortest buffer for a request.
pub const REQUEST_BUFFER_LEAST: usize = 5120;

// The longest body of a request, as a size.
const BODY_MOST: usize = CONTENT_MOST as usize;

// Whether both types are listed.
fn are_legal_types(types: Types) -> bool
    ensures { result ≡ legal_types types }
{
    is_content_type(types.content) && is_content_type(types.accept)
}

// Whether the application's name, if there is one, is legal.
fn is_legal_sender(application: Option<&[u8]>) -> bool
    ensures { result ≡ legal_sender (option_copied application.entry) }
{
    match application {
        Some(name) => is_legal(name, APPLICATION_NAME_MOST),
        None => true,
    }
}

#[tactic(auto, using(crate::proofs::JudgeLaws::too_long))]
// Whether verify's body is short enough. A field that is too long by itself is told before sizes are added up.
fn is_legal_body(format: BodyFormat, signed: SignedHash) -> bool
    ensures { result ≡ legal_body format signed.entry.name.now signed.entry.hash.now signed.entry.signature.now }
{
    signed.name.len() <= BODY_MOST
        && signed.hash.len() <= BODY_MOST
        && signed.signature.len() <= BODY_MOST
        && verify_body_size(format, signed.name, signed.hash, signed.signature) <= BODY_MOST
}

// One test: the refusal where it holds.
fn refuse_if(test: bool, refusal: WriteRefusal) -> Result<(), WriteRefusal>
    ensures { result_err result ≡ (when test then Some refusal else None) }
{
    if test { Err(refusal) } else { Ok(()) }
}

// The tests of an operation on no key, Ping for all.
#[tactic(auto, unfolding(crate::specs::Writing::write_tests, wire::specs::Choice::first_of))]
pub fn judge_sender(out: &[u8], client: Client) -> Result<(), WriteRefusal>
    ensures { result_err result ≡ first_of (write_tests out.now client.entry.types (option_copied client.entry.application) ping) }
{
    refuse_if(!are_legal_types(client.types), WriteRefusal::TypeUnlisted)?;
    refuse_if(
        out.len() < REQUEST_BUFFER_LEAST,
        WriteRefusal::BufferTooSmall,
    )?;
    refuse_if(
        !is_legal_sender(client.application),
        WriteRefusal::ApplicationNameIllegal,
    )
}

// Of one on a key by its name, Destroy for both.
#[tactic(auto, unfolding(crate::specs::Writing::write_tests, wire::specs::Choice::first_of))]
pub fn judge_name(out: &[u8], client: Client, name: &[u8]) -> Result<(), WriteRefusal>
    ensures { result_err result ≡ first_of (write_tests out.now client.entry.types (option_copied client.entry.application) (destroy_key name.now)) }
{
    judge_sender(out, client)?;
    refuse_if(!is_legal(name, KEY_NAME_MOST), WriteRefusal::KeyNameIllegal)
}

// Of Import, whatever its permissions are.
#[tactic(auto, unfolding(crate::specs::Writing::write_tests, wire::specs::Choice::first_of))]
pub fn judge_key(out: &[u8], client: Client, key: NewKey) -> Result<(), WriteRefusal>
    ensures own { result_err result ≡ first_of (write_tests out.now client.entry.types (option_copied client.entry.application) (import_key (record { name = key.entry.name.now; bytes = key.entry.bytes.now; bits = key.entry.bits; export_allowed = key.entry.exported; verify_allowed = key.entry.verified }))) }
    ensures any { (exported verified : Bool) → result_err result ≡ first_of (write_tests out.now client.entry.types (option_copied client.entry.application) (import_key (record { name = key.entry.name.now; bytes = key.entry.bytes.now; bits = key.entry.bits; export_allowed = exported; verify_allowed = verified }))) }
{
    judge_name(out, client, key.name)?;
    refuse_if(!is_legal_data(key.bytes.len()), WriteRefusal::DataIllegal)?;
    refuse_if(
        !are_import_bits(key.bits as usize),
        WriteRefusal::BitsIllegal,
    )
}

// Of verify.
#[tactic(auto, unfolding(crate::specs::Writing::write_tests, wire::specs::Choice::first_of))]
pub fn judge_verify(out: &[u8], client: Client, signed: SignedHash) -> Result<(), WriteRefusal>
    ensures { result_err result ≡ first_of (write_tests out.now client.entry.types (option_copied client.entry.application) (verify_signature signed.entry.name.now signed.entry.hash.now signed.entry.signature.now)) }
{
    judge_name(out, client, signed.name)?;
    refuse_if(signed.hash.len() != HASH_SIZE, WriteRefusal::HashIllegal)?;
    let format = format_for(client.types.content);
    refuse_if(!is_legal_body(format, signed), WriteRefusal::BodyTooLong)
}
