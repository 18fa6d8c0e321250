// The third step of the "Order of judgement on one request", up to the body: what the header and the auth bytes decide.
ghost use Rattle.std.specs.Prelude.{◌≡◌, length};
ghost use Rattle.wire.specs.Choice.{first_of};
ghost use Rattle.registry.specs.Registry.{registry_size, application_named};
ghost use Rattle.judgement.specs.code.Decided.{header_tests, checked_of, auth_of};

use crate::Status;
use messages::format::is_content_type;
use messages::opcodes::{is_listed, is_opcode_of};
use registry::Line;
use registry::find::find_application;
use wire::header::Header;

// What the header alone decides: version, content type, accept type, opcode, provider, auth type.
#[tactic(auto, unfolding(crate::specs::code::Decided::header_tests, crate::specs::code::Decided::checked_of, crate::specs::Judgement::refusals, wire::specs::Choice::first_of))]
pub fn check_header(h: Header) -> Result<(), Status>
    ensures { result ≡ checked_of (first_of (header_tests h)) }
{
    if h.major != 1 || h.minor != 0 {
        return Err(Status::WireProtocolVersionNotSupported);
    }
    if !is_content_type(h.content_type) {
        return Err(Status::ContentTypeNotSupported);
    }
    if !is_content_type(h.accept_type) {
        return Err(Status::AcceptTypeNotSupported);
    }
    if !is_listed(h.opcode) {
        return Err(Status::OpcodeDoesNotExist);
    }
    if 1 < h.provider {
        return Err(Status::ProviderDoesNotExist);
    }
    if !is_opcode_of(h.provider, h.opcode) {
        return Err(Status::WrongProviderId);
    }
    if 1 < h.auth_type {
        return Err(Status::AuthenticatorDoesNotExist);
    }
    Ok(())
}

// Who asks, by the auth bytes of a request whose auth type is 0 or 1: None is nobody that is named.
pub fn authenticate(registry: &[u8], auth_type: u8, auth: &[u8]) -> Result<Option<Line>, Status>
    requires { length registry.now ≡ registry_size }
    ensures { result ≡ auth_of auth_type auth.now (application_named registry.now auth.now) }
{
    if auth_type == 0 {
        if !auth.is_empty() {
            return Err(Status::AuthenticationError);
        }
        return Ok(None);
    }
    match find_application(registry, auth) {
        Some(line) => Ok(Some(line)),
        None => Err(Status::AuthenticationError),
    }
}
