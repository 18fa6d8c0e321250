// Requests written ("The client's half", "Checking signatures", "A second body format"). A content type says the format of the
// body, an accept type the one that is asked for in the response: 1 or 2. Kept: a flag beside each name, numbers for refusals and a
// function for each request, since C calls and reads them so.
ghost use Rattle.std.specs.Prelude.{◌≡◌, option_copied};
ghost use Rattle.messages.specs.Operations.{ping, list_providers, list_opcodes, import_key, destroy_key, export_public_key, verify_signature};
ghost use Rattle.client_requests.specs.Writing.{write_outcome, sender_of};
ghost use Rattle.client_abi.specs.Numbers.{request_numbers, written_with};

use client_requests::write::{
    write_destroy, write_export, write_import, write_list_opcodes, write_list_providers,
    write_ping, write_verify,
};
use client_requests::{Client, NewKey, SignedHash, Types, WriteRefusal};

// What writing a request says: 0 if it was written, else why not; and how many bytes it has, 0 where there is none.
#[repr(C)]
#[derive(Clone, Copy)]
pub struct Request {
    pub code: u32,
    pub written: usize,
}

#[tactic(auto, unfolding(crate::specs::Numbers::request_numbers, crate::specs::Numbers::refusal_number))]
fn number(written: Result<usize, WriteRefusal>) -> Request
    ensures { result ≡ request_numbers written }
{
    match written {
        Ok(length) => Request {
            code: 0,
            written: length,
        },
        Err(refusal) => Request {
            code: refusal as u32,
            written: 0,
        },
    }
}

// Who asks, from C's arguments: a flag beside the name says whether there is one.
fn client(session: u64, content: u8, accept: u8, named: bool, application: &[u8]) -> Client<'_>
    ensures session { result.session ≡ session }
    ensures types { result.types ≡ record { content = content; accept = accept } }
    ensures sender { option_copied result.application ≡ sender_of named application.now }
{
    Client {
        session,
        types: Types { content, accept },
        application: if named { Some(application) } else { None },
    }
}

#[unsafe(no_mangle)]
pub extern "C" fn razidkot_client_write_ping(
    out: &mut [u8],
    session: u64,
    content_type: u8,
    accept_type: u8,
    named: bool,
    application: &[u8],
) -> Request
    ensures { (result, out.new) ≡ written_with (write_outcome out.old session (record { content = content_type; accept = accept_type }) (sender_of named application.now) ping) }
{
    number(write_ping(
        out,
        client(session, content_type, accept_type, named, application),
    ))
}

#[unsafe(no_mangle)]
pub extern "C" fn razidkot_client_write_list_providers(
    out: &mut [u8],
    session: u64,
    content_type: u8,
    accept_type: u8,
    named: bool,
    application: &[u8],
) -> Request
    ensures { (result, out.new) ≡ written_with (write_outcome out.old session (record { content = content_type; accept = accept_type }) (sender_of named application.now) list_providers) }
{
    number(write_list_providers(
        out,
        client(session, content_type, accept_type, named, application),
    ))
}

#[unsafe(no_mangle)]
pub extern "C" fn razidkot_client_write_list_opcodes(
    out: &mut [u8],
    session: u64,
    content_type: u8,
    accept_type: u8,
    named: bool,
    application: &[u8],
    provider: u32,
) -> Request
    ensures { (result, out.new) ≡ written_with (write_outcome out.old session (record { content = content_type; accept = accept_type }) (sender_of named application.now) (list_opcodes provider)) }
{
    number(write_list_opcodes(
        out,
        client(session, content_type, accept_type, named, application),
        provider,
    ))
}

#[unsafe(no_mangle)]
pub extern "C" fn razidkot_client_write_import(
    out: &mut [u8],
    session: u64,
    content_type: u8,
    accept_type: u8,
    named: bool,
    application: &[u8],
    name: &[u8],
    bytes: &[u8],
    bits: u32,
    exported: bool,
    verified: bool,
) -> Request
    ensures { (result, out.new) ≡ written_with (write_outcome out.old session (record { content = content_type; accept = accept_type }) (sender_of named application.now) (import_key (record { name = name.entry.now; bytes = bytes.now; bits = bits; export_allowed = exported; verify_allowed = verified }))) }
{
    let key = NewKey {
        name,
        bytes,
        bits,
        exported,
        verified,
    };
    number(write_import(
        out,
        client(session, content_type, accept_type, named, application),
        key,
    ))
}

#[unsafe(no_mangle)]
pub extern "C" fn razidkot_client_write_destroy(
    out: &mut [u8],
    session: u64,
    content_type: u8,
    accept_type: u8,
    named: bool,
    application: &[u8],
    name: &[u8],
) -> Request
    ensures { (result, out.new) ≡ written_with (write_outcome out.old session (record { content = content_type; accept = accept_type }) (sender_of named application.now) (destroy_key name.now)) }
{
    number(write_destroy(
        out,
        client(session, content_type, accept_type, named, application),
        name,
    ))
}

#[unsafe(no_mangle)]
pub extern "C" fn razidkot_client_write_export(
    out: &mut [u8],
    session: u64,
    content_type: u8,
    accept_type: u8,
    named: bool,
    application: &[u8],
    name: &[u8],
) -> Request
    ensures { (result, out.new) ≡ written_with (write_outcome out.old session (record { content = content_type; accept = accept_type }) (sender_of named application.now) (export_public_key name.now)) }
{
    number(write_export(
        out,
        client(session, content_type, accept_type, named, application),
        name,
    ))
}

#[unsafe(no_mangle)]
pub extern "C" fn razidkot_client_write_verify(
    out: &mut [u8],
    session: u64,
    content_type: u8,
    accept_type: u8,
    named: bool,
    application: &[u8],
    name: &[u8],
    hash: &[u8],
    signature: &[u8],
) -> Request
    ensures { (result, out.new) ≡ written_with (write_outcome out.old session (record { content = content_type; accept = accept_type }) (sender_of named application.now) (verify_signature name.now hash.now signature.now)) }
{
    let signed = SignedHash {
        name,
        hash,
        signature,
    };
    number(write_verify(
        out,
        client(session, content_type, accept_type, named, application),
        signed,
    ))
}
