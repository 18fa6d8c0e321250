// The bodies of requests and of responses, written over the front of a lent buffer ("Operations and their fields").
// Kept: `length bytes.now < 2 ^ 16` and the room stand in each contract, since a type for short bytes, or for a buffer with room, would
// ask each caller to make one; and sizes are added up, since a writer with a place in it would hold the same two numbers.
ghost use Rattle.std.specs.Prelude.{◌≡◌, true, [], ◌∷◌, ◌+◌, ◌*◌, ◌^◌, ◌<◌, ◌≤◌, length, ltb};
ghost use Rattle.wire.specs.Lists.{all};
ghost use Rattle.wire.specs.code.Wrote.{Wrote};
ghost use Rattle.messages.specs.Message.{octets, numbers};
ghost use Rattle.messages.specs.Format.{message_bytes};
ghost use Rattle.messages.specs.Formats.{format_of};
ghost use Rattle.messages.specs.Operations.{list_opcodes, import_key, verify_signature, operation_body, version, offset, output_bytes};
ghost use Rattle.messages.specs.code.Bodies.{field_room, bytes_body_room, key_numbers, key_numbers_room, key_body_room, verify_body_room, version_body_room, list_body_room};

use crate::format::{BodyFormat, bytes_size, write_bytes, write_flag, write_list, write_number};

// ListOpcodes' body.
#[tactic(auto, using(crate::proofs::WriteLaws::provider_body))]
pub fn write_provider_body(format: BodyFormat, out: &mut [u8], provider: u32) -> usize
    requires { field_room ≤ length out.old }
    ensures { Wrote (operation_body (format_of format) (list_opcodes provider)) out.old out.new result }
{
    write_number(format, out, 1, provider)
}

// Destroy's and Export's; and Export's output.
#[tactic(auto, using(crate::proofs::WriteLaws::one_body))]
pub fn write_bytes_body(format: BodyFormat, out: &mut [u8], bytes: &[u8]) -> usize
    requires { (length bytes.now < 2 ^ 16) × (bytes_body_room bytes.now ≤ length out.old) }
    ensures { Wrote (message_bytes (format_of format) (octets bytes.now ∷ [])) out.old out.new result }
{
    write_bytes(format, out, 1, bytes)
}

// The last three fields of Import's.
fn write_key_numbers(
    format: BodyFormat,
    out: &mut [u8],
    bits: u32,
    exported: bool,
    verified: bool,
) -> usize
    requires { key_numbers_room ≤ length out.old }
    ensures { Wrote (key_numbers (format_of format) bits exported verified) out.old out.new result × (result ≤ key_numbers_room) }
{
    let first = write_number(format, out, 3, bits);
    let second = write_flag(format, &mut out[first..], 4, exported);
    let behind = first + second;
    let third = write_flag(format, &mut out[behind..], 5, verified);
    behind + third
}

// Import's. Kept: a key's parts come one by one, as the C function that asks for the import has them.
pub fn write_key_body(
    format: BodyFormat,
    out: &mut [u8],
    name: &[u8],
    bytes: &[u8],
    bits: u32,
    exported: bool,
    verified: bool,
) -> usize
    requires { (length name.now < 2 ^ 16) × (length bytes.now < 2 ^ 16) × (key_body_room name.now bytes.now ≤ length out.old) }
    ensures { Wrote (operation_body (format_of format) (import_key (record { name = name.entry.now; bytes = bytes.now; bits = bits; export_allowed = exported; verify_allowed = verified }))) out.old out.new result }
{
    let first = write_bytes(format, out, 1, name);
    let second = write_bytes(format, &mut out[first..], 2, bytes);
    let behind = first + second;
    let third = write_key_numbers(format, &mut out[behind..], bits, exported, verified);
    behind + third
}

// Verify's.
pub fn write_verify_body(
    format: BodyFormat,
    out: &mut [u8],
    name: &[u8],
    hash: &[u8],
    signature: &[u8],
) -> usize
    requires { (length name.now < 2 ^ 16) × (length hash.now < 2 ^ 16) × (length signature.now < 2 ^ 16) × (verify_body_room name.now hash.now signature.now ≤ length out.old) }
    ensures { Wrote (operation_body (format_of format) (verify_signature name.now hash.now signature.now)) out.old out.new result }
{
    let name_size = write_bytes(format, out, 1, name);
    let hash_size = write_bytes(format, &mut out[name_size..], 2, hash);
    let behind = name_size + hash_size;
    let signature_size = write_bytes(format, &mut out[behind..], 3, signature);
    behind + signature_size
}

// How many bytes Verify's would take, for a client that must refuse it before it writes any.
pub fn verify_body_size(format: BodyFormat, name: &[u8], hash: &[u8], signature: &[u8]) -> usize
    requires { (length name.now < 2 ^ 32) × (length hash.now < 2 ^ 32) × (length signature.now < 2 ^ 32) }
    ensures { result ≡ length (operation_body (format_of format) (verify_signature name.now hash.now signature.now)) }
{
    let name_size = bytes_size(format, 1, name.len());
    let hash_size = bytes_size(format, 2, hash.len());
    let signature_size = bytes_size(format, 3, signature.len());
    name_size + hash_size + signature_size
}

// Ping's output.
pub fn write_version_body(format: BodyFormat, out: &mut [u8], major: u32, minor: u32) -> usize
    requires { version_body_room ≤ length out.old }
    ensures { Wrote (output_bytes (format_of format) (version major minor)) out.old out.new result }
{
    let first = write_number(format, out, 1, major);
    let second = write_number(format, &mut out[first..], 2, minor);
    first + second
}

// ListProviders' and ListOpcodes' output, of numbers below 128.
#[tactic(auto, using(crate::proofs::WriteLaws::one_body))]
pub fn write_list_body(format: BodyFormat, out: &mut [u8], list: &[u8]) -> usize
    requires { (all (λ n. ltb n 128) list.now ≡ true) × (4 * length list.now < 2 ^ 16) × (list_body_room list.now ≤ length out.old) }
    ensures { Wrote (message_bytes (format_of format) (numbers list.now ∷ [])) out.old out.new result }
{
    write_list(format, out, 1, list)
}

// Where a body broke.
#[tactic(auto, using(crate::proofs::WriteLaws::offset_body))]
pub fn write_offset_body(format: BodyFormat, out: &mut [u8], at: u32) -> usize
    requires { field_room ≤ length out.old }
    ensures { Wrote (output_bytes (format_of format) (offset at)) out.old out.new result }
{
    write_number(format, out, 1, at)
}
