// Verify (document 02, "Checking signatures"): `verify` looks for the key, `verify_with` decides by it.
ghost use Rattle.std.specs.Prelude.{true, List, ◌≡◌, ℕ, ◌<◌};
ghost use Rattle.registry.specs.Slots.{Entry};
ghost use Rattle.registry.specs.Registry.{line_count, slots_of};
ghost use Rattle.registry.specs.WellFormed.{well_formed_registry};
ghost use Rattle.shipped.specs.Shipped.{keys_in, well_formed_list};
ghost use Rattle.judgement.specs.Operations.{checked, verify_with, perform_verify};
ghost use Rattle.judgement.specs.code.Decided.{Decided, verifier};

use crate::operations::{counted, refused, served};
use crate::{Decision, Output, Status};
use keys::KEY_NAME_MOST;
use keys::bits::are_import_bits;
use keys::names::is_legal;
use lookup::Place;
use lookup::find::find_key;
use lookup::key::{is_verifiable, key_bits, key_bytes};
use messages::HASH_SIZE;
use registry::Line;
use rsa::verify::Outcome;

// What a signature that was checked comes to.
fn judge_outcome(outcome: Outcome) -> Decision
    ensures { (slots : List Entry) (list body : List ℕ) → Decided slots list body (checked outcome) result }
{
    match outcome {
        Outcome::ValidSignature => served(Output::Nothing),
        Outcome::InvalidKey => refused(Status::PsaErrorNotSupported),
        Outcome::InvalidSignature => refused(Status::PsaErrorInvalidSignature),
    }
}

// Verify by a key that was found, wherever it lies: by whether it is allowed, its data and its bits.
pub fn verify_with(
    allowed: bool,
    key: &[u8],
    bits: usize,
    hash: &[u8],
    signature: &[u8],
) -> Decision
    ensures { (slots : List Entry) (list body : List ℕ) → Decided slots list body (verify_with hash.now signature.now (verifier allowed key.now bits)) result }
{
    if !allowed {
        return refused(Status::PsaErrorNotPermitted);
    }
    if hash.len() != HASH_SIZE {
        return refused(Status::PsaErrorInvalidArgument);
    }
    if !are_import_bits(bits) {
        return refused(Status::PsaErrorNotSupported);
    }
    judge_outcome(rsa::verify::verify(key, bits, hash, signature).outcome)
}

// Verify, of a name, a hash and a signature in its body.
pub fn verify<'a>(
    registry: &'a [u8],
    list: &'a [u8],
    line: Line,
    name: &[u8],
    hash: &[u8],
    signature: &[u8],
) -> Decision
    requires { (well_formed_registry registry.now ≡ true) × (line.0 < line_count) × (well_formed_list list.now ≡ true) }
    ensures { (body : List ℕ) → Decided (slots_of registry.now line) list.now body (perform_verify name.now hash.now signature.now (slots_of registry.now line) (keys_in list.now)) result }
{
    if !is_legal(name, KEY_NAME_MOST) {
        return refused(Status::PsaErrorInvalidArgument);
    }
    let place = find_key(registry, list, line, name);
    if let Place::Nothing = place {
        return refused(Status::PsaErrorDoesNotExist);
    }
    let allowed = is_verifiable(registry, list, line, place);
    let bits = key_bits(registry, list, line, place);
    let key = key_bytes(registry, list, line, place);
    counted(place, verify_with(allowed, key, bits, hash, signature))
}
