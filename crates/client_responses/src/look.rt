// What the bytes that a state holds are: the beginning of a response, a response, or none that is read (document 02, "The
// client's half").
ghost use Rattle.std.specs.Prelude.{◌≡◌, true, ◌||◌, [], ◌+◌, ◌≤◌, ◌<◌, length, take, drop, Some, None};
ghost use Rattle.std.specs.Result.{result_err};
ghost use Rattle.wire.specs.Choice.{first_of};
ghost use Rattle.wire.specs.Numbers.{field};
ghost use Rattle.messages.specs.Placed.{OutputWithin, SpanWithin};
ghost use Rattle.client_responses.specs.Reading.{provider_for, response_content_most, is_its, is_invalid_header, type_for, header_tests, body_reply, found_behind, found};
ghost use Rattle.client_responses.specs.State.{count_at, bytes_at, response_most, state_size, asked_in, bytes_in, well_formed_state};
ghost use Rattle.client_responses.specs.Handed.{format_in};
ghost use Rattle.client_responses.specs.code.Looked.{body_at, span_moved, output_moved, wanted_of, whole, Looked, Run};

use crate::state::{BODY_AT, BYTES_AT, CONTENT_MOST, COUNT_AT, accept_type_of, asked_in};
use crate::{Asked, ReadRefusal};
use messages::format::format_for;
use messages::opcodes::is_core;
use messages::read::{Output, read_answer};
use wire::header::MAGIC;
use wire::number::{read_u16, read_u32};
use wire::response::{RESPONSE_HEADER_SIZE, RESPONSE_LEAST, ResponseHeader, read_response};
use wire::span::Span;

// The status's number, and the output, whose places are places in the state's memory.
#[derive(Clone, Copy)]
pub struct Response {
    pub status: u16,
    pub output: Output,
}

// The status of a response to a request whose header could not be read.
const INVALID_HEADER: u16 = 17;

// The provider whose the opcode is.
fn provider_for(opcode: u16) -> u8
    ensures { result ≡ provider_for opcode }
{
    if is_core(opcode) { 0 } else { 1 }
}

// Whether opcode, session and provider are the request's.
#[tactic(auto, unfolding(crate::specs::Reading::is_its))]
fn is_its(asked: Asked, h: ResponseHeader) -> bool
    ensures { result ≡ is_its asked.opcode asked.session h }
{
    h.opcode == asked.opcode
        && h.session == asked.session
        && h.provider == provider_for(asked.opcode)
}

// Status 17 with opcode, session and provider zero and no content.
#[tactic(auto, unfolding(crate::specs::Reading::is_invalid_header))]
fn is_invalid_header(h: ResponseHeader) -> bool
    ensures { result ≡ is_invalid_header h }
{
    h.status == INVALID_HEADER
        && h.opcode == 0
        && h.session == 0
        && h.provider == 0
        && h.content_length == 0
}

// The answer to the request, or one that is read for any request.
fn is_answer(asked: Asked, h: ResponseHeader) -> bool
    ensures { result ≡ is_its asked.opcode asked.session h || is_invalid_header h }
{
    is_its(asked, h) || is_invalid_header(h)
}

// The content type that a response must have.
#[tactic(auto, unfolding(crate::specs::Reading::type_for))]
fn type_for(accept_type: u8, status: u16) -> u8
    ensures { result ≡ type_for accept_type status }
{
    match status {
        INVALID_HEADER => 1,
        _ => accept_type,
    }
}

// The first test that applies.
#[tactic(auto, unfolding(crate::specs::Reading::header_tests, wire::specs::Choice::first_of))]
fn check_header(asked: Asked, h: ResponseHeader) -> Result<(), ReadRefusal>
    ensures { result_err result ≡ first_of (header_tests asked h) }
{
    if h.major != 1 || h.minor != 0 {
        return Err(ReadRefusal::WrongVersion);
    }
    if h.content_type != type_for(asked.accept_type, h.status) {
        return Err(ReadRefusal::WrongContentType);
    }
    if !is_answer(asked, h) {
        return Err(ReadRefusal::NotItsRequests);
    }
    if (CONTENT_MOST as u32) < h.content_length {
        return Err(ReadRefusal::ContentTooLong);
    }
    Ok(())
}

// A place in the body, as a place in the state's memory.
fn move_span(span: Span) -> Span
    requires { SpanWithin response_content_most span }
    ensures { result ≡ span_moved body_at span }
{
    Span {
        start: BODY_AT + span.start,
        len: span.len,
    }
}

fn move_output(output: Output) -> Output
    requires { OutputWithin response_content_most output }
    ensures { result ≡ output_moved body_at output }
{
    match output {
        Output::Providers(span) => Output::Providers(move_span(span)),
        Output::Opcodes(span) => Output::Opcodes(move_span(span)),
        Output::Data(span) => Output::Data(move_span(span)),
        Output::Nothing | Output::Version(_, _) | Output::Offset(_) => output,
    }
}

// What a whole body is read as.
fn read_reply(
    memory: &[u8],
    opcode: u16,
    status: u16,
    content: usize,
) -> Result<Response, ReadRefusal>
    requires { (length memory.now ≡ state_size) × (content ≤ response_content_most) }
    ensures { Looked memory.now (Some (body_reply (format_in memory.now) opcode status (take content (drop body_at memory.now)))) (whole result) }
{
    let format = format_for(accept_type_of(memory));
    let end = BODY_AT + content;
    match read_answer(format, opcode, status, &memory[BODY_AT..end]) {
        Some(output) => Ok(Response {
            status,
            output: move_output(output),
        }),
        None => Err(ReadRefusal::UnreadableBody),
    }
}

// What `count` bytes with a whole header are; `None` while more are awaited.
fn look_behind(
    memory: &[u8],
    count: usize,
    h: ResponseHeader,
) -> Result<Option<Response>, ReadRefusal>
    requires { (length memory.now ≡ state_size) × (count ≤ response_most) }
    ensures { Looked memory.now (found_behind (asked_in memory.now) h (take count (drop bytes_at memory.now))) result }
{
    let asked = asked_in(memory);
    check_header(asked, h)?;
    let content = h.content_length as usize;
    if count < RESPONSE_LEAST + content {
        return Ok(None);
    }
    let response = read_reply(memory, asked.opcode, h.status, content)?;
    Ok(Some(response))
}

// What the bytes that a state holds are; `None` while more are awaited.
pub fn look(memory: &[u8]) -> Result<Option<Response>, ReadRefusal>
    requires { well_formed_state memory.now ≡ true }
    ensures { Looked memory.now (found (asked_in memory.now) (bytes_in memory.now)) result }
{
    let count = read_u16(memory, COUNT_AT) as usize;
    if count < 6 {
        return Ok(None);
    }
    let end = BYTES_AT + count;
    let bytes = &memory[BYTES_AT..end];
    if read_u32(bytes, 0) != MAGIC {
        return Err(ReadRefusal::WrongMagic);
    }
    if read_u16(bytes, 4) != RESPONSE_HEADER_SIZE {
        return Err(ReadRefusal::WrongHeaderSize);
    }
    if count < RESPONSE_LEAST {
        return Ok(None);
    }
    look_behind(memory, count, read_response(bytes))
}

// How many bytes must be there before more can be said of them.
pub fn wanted(memory: &[u8]) -> usize
    requires { (well_formed_state memory.now ≡ true) × (found (asked_in memory.now) (bytes_in memory.now) ≡ None) }
    ensures { (result ≡ wanted_of (bytes_in memory.now)) × (field count_at 2 memory.now < result) × (result ≤ response_most) }
{
    let count = read_u16(memory, COUNT_AT) as usize;
    if count < 6 {
        return 6;
    }
    if count < RESPONSE_LEAST {
        return RESPONSE_LEAST;
    }
    let end = BYTES_AT + count;
    let h = read_response(&memory[BYTES_AT..end]);
    RESPONSE_LEAST + h.content_length as usize
}

// How many bytes of a chunk a state that holds none can take before more can be said of them: up to the sixth; where these six
// are right, to the header's end; where the header is, to the response's.
pub fn first_run(memory: &[u8], chunk: &[u8]) -> usize
    requires { length memory.now ≡ state_size }
    ensures { Run (asked_in memory.now) [] chunk.now result }
{
    if chunk.len() < RESPONSE_LEAST {
        return 6;
    }
    if read_u32(chunk, 0) != MAGIC {
        return 6;
    }
    if read_u16(chunk, 4) != RESPONSE_HEADER_SIZE {
        return 6;
    }
    let h = read_response(chunk);
    match check_header(asked_in(memory), h) {
        Err(_) => RESPONSE_LEAST,
        Ok(()) => RESPONSE_LEAST + h.content_length as usize,
    }
}
