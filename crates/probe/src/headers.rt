// The headers of requests and responses.
ghost use Rattle.std.specs.Prelude.{◌≡◌};
ghost use Rattle.wire.specs.Response.{response_header};
ghost use Rattle.probe.specs.code.Numbers.{header_numbers};

use wire::header::{REQUEST_LEAST, read_header};
use wire::response::response_header;

// The fields of the header in `s`, in their order on the wire: 1 and the fields, or zeros where `s` is too short.
#[unsafe(no_mangle)]
pub extern "C" fn probe_read_header(s: &[u8], out: &mut [u64; 12])
    ensures { out.new ≡ header_numbers s.now }
{
    if s.len() < REQUEST_LEAST {
        *out = [0, 0, 0, 0, 0, 0, 0, 0, 0, 0, 0, 0];
        return;
    }
    let h = read_header(s);
    *out = [
        1,
        h.size as u64,
        h.major as u64,
        h.minor as u64,
        h.provider as u64,
        h.session,
        h.content_type as u64,
        h.accept_type as u64,
        h.auth_type as u64,
        h.content_length as u64,
        h.auth_length as u64,
        h.opcode as u64,
    ];
}

#[unsafe(no_mangle)]
pub extern "C" fn probe_response_header(
    provider: u8,
    session: u64,
    content_length: u32,
    opcode: u16,
    status: u16,
    out: &mut [u8; 26],
)
    ensures { out.new ≡ response_header provider session 1 content_length opcode status }
{
    *out = response_header(provider, session, 1, content_length, opcode, status);
}
