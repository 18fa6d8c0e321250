// The operations ("Operations and their fields"): what each comes to. Nothing is changed or written here.
// Kept: registry, list and line are three parameters, as the public functions of lookup take them.
ghost use Rattle.std.specs.Prelude.{true, List, ◌≡◌, ℕ, ◌^◌, ◌<◌, length};
ghost use Rattle.messages.specs.Formats.{format_of};
ghost use Rattle.messages.specs.Placed.{key_in, operation_at, OperationWithin};
ghost use Rattle.registry.specs.Registry.{line_count, registry_size, slots_of};
ghost use Rattle.registry.specs.WellFormed.{well_formed_registry};
ghost use Rattle.shipped.specs.Shipped.{keys_in, well_formed_list};
ghost use Rattle.judgement.specs.Operations.{operated, perform, perform_list_opcodes, perform_import, perform_destroy, perform_export, within_bounds};
ghost use Rattle.judgement.specs.code.Decided.{refused_with, broken_at, counted_at, KeyWithin, Decided, DecidedAnywhere};

use crate::signature::verify;
use crate::{Decision, Edit, Output, Status};
use keys::KEY_NAME_MOST;
use keys::bits::are_import_bits;
use keys::data::is_legal_data;
use keys::names::is_legal;
use lookup::Place;
use lookup::find::find_key;
use lookup::key::is_exportable;
use messages::ask::{Asked, KeyPlaces, read_operation};
use messages::format::BodyFormat;
use registry::Line;
use registry::find::find_slot;

// A request that is refused: no output, and nothing changes.
pub fn refused(status: Status) -> Decision
    ensures { result ≡ refused_with status }
{
    Decision {
        status,
        output: Output::Nothing,
        edit: Edit::Stays,
    }
}

// A request whose body can't be read: where its first such field starts.
fn broken(at: u32) -> Decision
    ensures { result ≡ broken_at at }
{
    Decision {
        status: Status::DeserializingBodyFailed,
        output: Output::Offset(at),
        edit: Edit::Stays,
    }
}

// A request that is served with this body in its response, and changes nothing.
pub fn served(output: Output) -> Decision
    ensures { result ≡ record { status = Status.Success; output = output; edit = Edit.Stays } }
{
    Decision {
        status: Status::Success,
        output,
        edit: Edit::Stays,
    }
}

// What a request for the key at a place comes to, with its use counted where it is served and the key is the application's own
// (document 02, "Use per key").
pub fn counted(place: Place, d: Decision) -> Decision
    ensures { result ≡ counted_at place d }
{
    if d.status != Status::Success {
        return d;
    }
    match place {
        Place::Own(slot) => Decision {
            edit: Edit::Uses(slot),
            ..d
        },
        Place::Listed(_) | Place::Nothing => d,
    }
}

fn list_opcodes(provider: u32) -> Decision
    ensures { (body : List ℕ) → DecidedAnywhere body (λ slots keys. perform_list_opcodes provider) result }
{
    if 1 < provider {
        return refused(Status::ProviderDoesNotExist);
    }
    served(Output::Opcodes(provider))
}

// Whether the key's name and data are within Import's bounds.
fn is_within_bounds(body: &[u8], key: KeyPlaces) -> bool
    requires { KeyWithin (length body.now) key }
    ensures { result ≡ within_bounds (key_in body.now key) }
{
    is_legal(key.name.of(body), KEY_NAME_MOST) && is_legal_data(key.bytes.len)
}

// Import, of a key in its body.
fn import(registry: &[u8], list: &[u8], line: Line, body: &[u8], key: KeyPlaces) -> Decision
    requires { (length registry.now ≡ registry_size) × (line.0 < line_count) × (well_formed_list list.now ≡ true) × KeyWithin (length body.now) key }
    ensures { Decided (slots_of registry.now line) list.now body.now (perform_import (key_in body.now key) (slots_of registry.now line) (keys_in list.now)) result }
{
    if !is_within_bounds(body, key) {
        return refused(Status::PsaErrorInvalidArgument);
    }
    if !are_import_bits(key.bits as usize) {
        return refused(Status::PsaErrorNotSupported);
    }
    let Place::Nothing = find_key(registry, list, line, key.name.of(body)) else {
        return refused(Status::PsaErrorAlreadyExists);
    };
    // The empty name: a free slot.
    let Some(slot) = find_slot(registry, line, &[]) else {
        return refused(Status::PsaErrorInsufficientStorage);
    };
    Decision {
        status: Status::Success,
        output: Output::Nothing,
        edit: Edit::Fills(slot, key),
    }
}

// Destroy, of a name in its body.
fn destroy(registry: &[u8], list: &[u8], line: Line, name: &[u8]) -> Decision
    requires { (length registry.now ≡ registry_size) × (line.0 < line_count) × (well_formed_list list.now ≡ true) }
    ensures { (body : List ℕ) → Decided (slots_of registry.now line) list.now body (perform_destroy name.now (slots_of registry.now line) (keys_in list.now)) result }
{
    if !is_legal(name, KEY_NAME_MOST) {
        return refused(Status::PsaErrorInvalidArgument);
    }
    match find_key(registry, list, line, name) {
        Place::Own(slot) => Decision {
            status: Status::Success,
            output: Output::Nothing,
            edit: Edit::Clears(slot),
        },
        Place::Listed(_) => refused(Status::PsaErrorNotPermitted),
        Place::Nothing => refused(Status::PsaErrorDoesNotExist),
    }
}

// Export, of a name in its body.
fn export(registry: &[u8], list: &[u8], line: Line, name: &[u8]) -> Decision
    requires { (well_formed_registry registry.now ≡ true) × (line.0 < line_count) × (well_formed_list list.now ≡ true) }
    ensures { (body : List ℕ) → Decided (slots_of registry.now line) list.now body (perform_export name.now (slots_of registry.now line) (keys_in list.now)) result }
{
    if !is_legal(name, KEY_NAME_MOST) {
        return refused(Status::PsaErrorInvalidArgument);
    }
    let place = find_key(registry, list, line, name);
    if let Place::Nothing = place {
        return refused(Status::PsaErrorDoesNotExist);
    }
    // An own key that may not be exported is not looked for in the list.
    if !is_exportable(registry, list, line, place) {
        return refused(Status::PsaErrorNotPermitted);
    }
    counted(place, served(Output::Data(place)))
}

// What an operation that was read from the body comes to, for the application of a line; no core operation looks at the line.
fn perform<'a>(
    asked: Asked,
    body: &[u8],
    registry: &'a [u8],
    list: &'a [u8],
    line: Line,
) -> Decision
    requires { (well_formed_registry registry.now ≡ true) × (line.0 < line_count) × (well_formed_list list.now ≡ true) × OperationWithin (length body.now) asked }
    ensures { Decided (slots_of registry.now line) list.now body.now (perform (operation_at body.now asked) (slots_of registry.now line) (keys_in list.now)) result }
{
    match asked {
        Asked::Ping => served(Output::Version),
        Asked::ListProviders => served(Output::Providers),
        Asked::ListOpcodes(provider) => list_opcodes(provider),
        Asked::ImportKey(key) => import(registry, list, line, body, key),
        Asked::DestroyKey(name) => destroy(registry, list, line, name.of(body)),
        Asked::ExportPublicKey(name) => export(registry, list, line, name.of(body)),
        Asked::VerifySignature(name, hash, signature) => verify(
            registry,
            list,
            line,
            name.of(body),
            hash.of(body),
            signature.of(body),
        ),
    }
}

// The operation that an opcode and its body ask for.
pub fn perform_operation<'a>(
    format: BodyFormat,
    opcode: u16,
    body: &[u8],
    registry: &'a [u8],
    list: &'a [u8],
    line: Line,
) -> Decision
    requires { (well_formed_registry registry.now ≡ true) × (line.0 < line_count) × (well_formed_list list.now ≡ true) × (length body.now < 2 ^ 32) }
    ensures { Decided (slots_of registry.now line) list.now body.now (operated (format_of format) opcode body.now (slots_of registry.now line) (keys_in list.now)) result }
{
    match read_operation(format, opcode, body) {
        Ok(asked) => perform(asked, body, registry, list, line),
        Err(at) => broken(at as u32),
    }
}
