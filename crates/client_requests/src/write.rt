// Requests written over the front of a lent buffer, one function an operation (document 02, "The client's half", "Checking
// signatures"). The body is written straight to its place, then the header before it and the auth bytes behind it. Bytes past
// the request stay.
ghost use Rattle.std.specs.Prelude.{true, ◌≡◌, ◌≤◌, length, take, drop, option_copied};
ghost use Rattle.wire.specs.Request.{request_least, content_most, request_bytes};
ghost use Rattle.wire.specs.code.Wrote.{Wrote};
ghost use Rattle.messages.specs.Operations.{ping, list_providers, list_opcodes, import_key, destroy_key, export_public_key, verify_signature};
ghost use Rattle.client_requests.specs.Writing.{auth_type_of, auth_of, request_around, legal_sender, request_buffer_least, write_outcome};

use crate::judge::{judge_key, judge_name, judge_sender, judge_verify};
use crate::{Client, NewKey, SignedHash, WriteRefusal};
use messages::format::format_for;
use messages::opcodes::{
    LIST_OPCODES, LIST_PROVIDERS, PING, PSA_ASYMMETRIC_VERIFY, PSA_DESTROY_KEY,
    PSA_EXPORT_PUBLIC_KEY, PSA_IMPORT_KEY,
};
use messages::write::{write_bytes_body, write_key_body, write_provider_body, write_verify_body};
use wire::bytes::copy_into;
use wire::header::{REQUEST_LEAST, request_header};

// Providers. Kept as numbers: they are a byte of the header.
const CORE: u8 = 0;

const KEYSTORE: u8 = 1;

// 0 for nobody that is named, 1 for an application.
fn auth_type(application: Option<&[u8]>) -> u8
    ensures { result ≡ auth_type_of (option_copied application.entry) }
{
    match application {
        Some(_) => 1,
        None => 0,
    }
}

fn auth_bytes(application: Option<&[u8]>) -> &[u8]
    ensures { result.now ≡ auth_of (option_copied application.entry) }
{
    application.unwrap_or(&[])
}

#[tactic(auto, using(crate::proofs::WritingLaws::auth_short))]
// The header and the auth bytes around a body of `size` bytes that stands behind the header's place.
fn write_around(out: &mut [u8], client: Client, provider: u8, opcode: u16, size: usize) -> usize
    requires room { request_buffer_least ≤ length out.old }
    requires legal { legal_sender (option_copied client.application) ≡ true }
    requires few { size ≤ content_most }
    ensures { Wrote (request_bytes (request_around client.entry.session client.entry.types (option_copied client.entry.application) provider opcode (take size (drop request_least out.old)))) out.old out.new result }
{
    let auth = auth_bytes(client.application);
    let head = request_header(
        provider,
        client.session,
        client.types.content,
        client.types.accept,
        auth_type(client.application),
        size as u32,
        auth.len() as u16,
        opcode,
    );
    let start = copy_into(out, &head);
    let end = start + size;
    end + copy_into(&mut out[end..], auth)
}

#[tactic(auto, using(crate::proofs::WritingLaws::room_passed, crate::proofs::WritingLaws::sender_passed))]
pub fn write_ping(out: &mut [u8], client: Client) -> Result<usize, WriteRefusal>
    ensures { record { answer = result; out = out.new } ≡ write_outcome out.old client.entry.session client.entry.types (option_copied client.entry.application) ping }
{
    judge_sender(out, client)?;
    Ok(write_around(out, client, CORE, PING, 0))
}

#[tactic(auto, using(crate::proofs::WritingLaws::room_passed, crate::proofs::WritingLaws::sender_passed))]
pub fn write_list_providers(out: &mut [u8], client: Client) -> Result<usize, WriteRefusal>
    ensures { record { answer = result; out = out.new } ≡ write_outcome out.old client.entry.session client.entry.types (option_copied client.entry.application) list_providers }
{
    judge_sender(out, client)?;
    Ok(write_around(out, client, CORE, LIST_PROVIDERS, 0))
}

#[tactic(auto, using(crate::proofs::WritingLaws::room_passed, crate::proofs::WritingLaws::sender_passed))]
pub fn write_list_opcodes(
    out: &mut [u8],
    client: Client,
    provider: u32,
) -> Result<usize, WriteRefusal>
    ensures { record { answer = result; out = out.new } ≡ write_outcome out.old client.entry.session client.entry.types (option_copied client.entry.application) (list_opcodes provider) }
{
    judge_sender(out, client)?;
    let format = format_for(client.types.content);
    let size = write_provider_body(format, &mut out[REQUEST_LEAST..], provider);
    Ok(write_around(out, client, CORE, LIST_OPCODES, size))
}

#[tactic(auto, using(crate::proofs::WritingLaws::room_passed, crate::proofs::WritingLaws::sender_passed))]
pub fn write_import(out: &mut [u8], client: Client, key: NewKey) -> Result<usize, WriteRefusal>
    ensures { record { answer = result; out = out.new } ≡ write_outcome out.old client.entry.session client.entry.types (option_copied client.entry.application) (import_key (record { name = key.entry.name.now; bytes = key.entry.bytes.now; bits = key.entry.bits; export_allowed = key.entry.exported; verify_allowed = key.entry.verified })) }
{
    judge_key(out, client, key)?;
    let format = format_for(client.types.content);
    let size = write_key_body(
        format,
        &mut out[REQUEST_LEAST..],
        key.name,
        key.bytes,
        key.bits,
        key.exported,
        key.verified,
    );
    Ok(write_around(out, client, KEYSTORE, PSA_IMPORT_KEY, size))
}

#[tactic(auto, using(crate::proofs::WritingLaws::room_passed, crate::proofs::WritingLaws::sender_passed))]
pub fn write_destroy(out: &mut [u8], client: Client, name: &[u8]) -> Result<usize, WriteRefusal>
    ensures { record { answer = result; out = out.new } ≡ write_outcome out.old client.entry.session client.entry.types (option_copied client.entry.application) (destroy_key name.now) }
{
    judge_name(out, client, name)?;
    let format = format_for(client.types.content);
    let size = write_bytes_body(format, &mut out[REQUEST_LEAST..], name);
    Ok(write_around(out, client, KEYSTORE, PSA_DESTROY_KEY, size))
}

#[tactic(auto, using(crate::proofs::WritingLaws::room_passed, crate::proofs::WritingLaws::sender_passed))]
pub fn write_export(out: &mut [u8], client: Client, name: &[u8]) -> Result<usize, WriteRefusal>
    ensures { record { answer = result; out = out.new } ≡ write_outcome out.old client.entry.session client.entry.types (option_copied client.entry.application) (export_public_key name.now) }
{
    judge_name(out, client, name)?;
    let format = format_for(client.types.content);
    let size = write_bytes_body(format, &mut out[REQUEST_LEAST..], name);
    Ok(write_around(out, client, KEYSTORE, PSA_EXPORT_PUBLIC_KEY, size))
}

#[tactic(auto, using(crate::proofs::WritingLaws::room_passed, crate::proofs::WritingLaws::sender_passed))]
pub fn write_verify(
    out: &mut [u8],
    client: Client,
    signed: SignedHash,
) -> Result<usize, WriteRefusal>
    ensures { record { answer = result; out = out.new } ≡ write_outcome out.old client.entry.session client.entry.types (option_copied client.entry.application) (verify_signature signed.entry.name.now signed.entry.hash.now signed.entry.signature.now) }
{
    judge_verify(out, client, signed)?;
    let format = format_for(client.types.content);
    let size = write_verify_body(
        format,
        &mut out[REQUEST_LEAST..],
        signed.name,
        signed.hash,
        signed.signature,
    );
    Ok(write_around(out, client, KEYSTORE, PSA_ASYMMETRIC_VERIFY, size))
}
