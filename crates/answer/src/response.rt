// A response written: the header, and behind it the body, straight to its place ("Bytes on the wire", "Operations and their
// fields").
ghost use Rattle.std.specs.Prelude.{true, [], ◌≡◌, ◌≤◌, ◌<◌, length};
ghost use Rattle.wire.specs.Response.{buffer_least, response_bytes};
ghost use Rattle.wire.specs.code.Wrote.{Wrote};
ghost use Rattle.messages.specs.Formats.{format_of, format_for, content_type_of};
ghost use Rattle.registry.specs.Registry.{line_count, slots_of};
ghost use Rattle.registry.specs.WellFormed.{well_formed_registry};
ghost use Rattle.judgement.specs.Status.{status_number};
ghost use Rattle.judgement.specs.code.Decided.{output_most, SafeOutput, output_bytes};

use judgement::statuses::status_number;
use judgement::{Output, Status};
use lookup::key::key_bytes;
use messages::format::{BodyFormat, content_type_of, format_for};
use messages::opcodes::{CORE, KEYSTORE};
use messages::write::{write_bytes_body, write_list_body, write_offset_body, write_version_body};
use registry::Line;
use wire::bytes::copy_into;
use wire::header::Header;
use wire::response::response_header;

// A response's body, written straight to its place.
fn write_output<'a>(
    format: BodyFormat,
    out: &mut [u8],
    registry: &'a [u8],
    list: &'a [u8],
    line: Line,
    output: Output,
) -> usize
    requires { (well_formed_registry registry.now ≡ true) × (line.0 < line_count) × SafeOutput list.now output × (output_most ≤ length out.old) }
    ensures { Wrote (output_bytes (format_of format) (slots_of registry.now line) list.now output) out.old out.new result }
{
    match output {
        Output::Nothing => 0,
        // The wire protocol's version.
        Output::Version => write_version_body(format, out, 1, 0),
        Output::Providers => write_list_body(format, out, &[0, 1]),
        Output::Opcodes(0) => write_list_body(format, out, &CORE),
        Output::Opcodes(_) => write_list_body(format, out, &KEYSTORE),
        Output::Data(place) => {
            write_bytes_body(format, out, key_bytes(registry, list, line, place))
        }
        Output::Offset(at) => write_offset_body(format, out, at),
    }
}

// A response, in the format that the accept type asks for: the body, behind the 26 bytes of the header, and then the header, which
// says how long the body is.
pub fn write_response<'a>(
    out: &mut [u8],
    h: Header,
    status: Status,
    registry: &'a [u8],
    list: &'a [u8],
    line: Line,
    output: Output,
) -> usize
    requires { (well_formed_registry registry.now ≡ true) × (line.0 < line_count) × SafeOutput list.now output × (buffer_least ≤ length out.old) }
    ensures { Wrote (response_bytes h.provider h.session (content_type_of (format_for h.accept_type)) h.opcode (status_number status) (output_bytes (format_of (format_for h.accept_type)) (slots_of registry.now line) list.now output)) out.old out.new result }
{
    let format = format_for(h.accept_type);
    let size = write_output(format, &mut out[26..], registry, list, line, output);
    let head = response_header(
        h.provider,
        h.session,
        content_type_of(format),
        size as u32,
        h.opcode,
        status_number(status),
    );
    let k = copy_into(out, &head);
    k + size
}

// The response to a request that is refused, in this format: an empty body.
pub fn write_refused(out: &mut [u8], h: Header, format: BodyFormat, status: Status) -> usize
    requires { buffer_least ≤ length out.old }
    ensures { Wrote (response_bytes h.provider h.session (content_type_of format) h.opcode (status_number status) []) out.old out.new result }
{
    let head = response_header(
        h.provider,
        h.session,
        content_type_of(format),
        0,
        h.opcode,
        status_number(status),
    );
    copy_into(out, &head)
}
