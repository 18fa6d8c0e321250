// A request answered, by the order's three steps ("Order of judgement on one request"): its response written, and what it
// changes carried out.
// Kept: the lent slices are parameters. Each function takes others of them, so that a struct would be taken apart at each call.
ghost use Rattle.std.specs.Prelude.{true, false, List, ◌≡◌, ℕ, ◌^◌, ◌≤◌, ◌<◌, length, take};
ghost use Rattle.wire.specs.Request.{request_least, header_length, request_length};
ghost use Rattle.wire.specs.Choice.{first_of};
ghost use Rattle.wire.specs.Response.{buffer_least};
ghost use Rattle.wire.specs.code.Wrote.{Wrote};
ghost use Rattle.stream.specs.Frame.{legal_start, oversized};
ghost use Rattle.stream.specs.Rules.{judge};
ghost use Rattle.messages.specs.Formats.{format_for, content_type_of};
ghost use Rattle.registry.specs.Registry.{line_count, registry_size, application_named, slots_of, changed};
ghost use Rattle.registry.specs.WellFormed.{well_formed_registry};
ghost use Rattle.shipped.specs.Shipped.{well_formed_list};
ghost use Rattle.judgement.specs.code.Decided.{header_tests, auth_of, SafeEdit, change_of};
ghost use Rattle.journal.specs.Journalling.{record_for, journalling};
ghost use Rattle.journal.specs.Record.{record_most};
ghost use Rattle.journal.specs.code.Written.{act_of_change};
ghost use Rattle.answer.specs.code.Answers.{AnsweredBy, RefusedWith, PassedHeader, sender_of, result_for_named, result_for_nobody, ResultAnswered};

use crate::Answered;
use crate::response::{write_refused, write_response};
use journal::record::write_record;
use judgement::operations::perform_operation;
use judgement::order::{authenticate, check_header};
use judgement::statuses::status_number;
use judgement::{Decision, Edit, Status};
use messages::format::{BodyFormat, content_type_of, format_for};
use registry::Line;
use registry::change::{add_use, clear_slot, fill_slot};
use stream::frame::is_oversized;
use wire::bytes::copy_into;
use wire::header::{CONTENT_MOST, Header, header_length, read_header};
use wire::response::response_header;

// Carries out what an operation changes.
fn make_edit(registry: &mut [u8], line: Line, body: &[u8], edit: Edit)
    requires { (length registry.old ≡ registry_size) × (line.0 < line_count) × SafeEdit (length body.now) edit }
    ensures { registry.new ≡ changed registry.old line (change_of body.now edit) }
{
    match edit {
        Edit::Stays => {}
        Edit::Fills(slot, key) => fill_slot(
            registry,
            line,
            slot,
            key.name.of(body),
            key.bytes.of(body),
            key.bits as u16,
            key.exported,
            key.verified,
        ),
        Edit::Clears(slot) => clear_slot(registry, line, slot),
        Edit::Uses(slot) => add_use(registry, line, slot),
    }
}

// A refused request is nobody's: it counts by its status alone.
fn refuse_as(out: &mut [u8], h: Header, format: BodyFormat, status: Status) -> Answered
    requires { buffer_least ≤ length out.old }
    ensures { RefusedWith h.provider h.session (content_type_of format) h.opcode status out.old out.new result }
{
    let written = write_refused(out, h, format, status);
    Answered {
        status,
        asker: None,
        written,
        recorded: 0,
    }
}

// One that is refused at its last byte, in the format that the accept type asks for.
fn refuse(out: &mut [u8], h: Header, status: Status) -> Answered
    requires { buffer_least ≤ length out.old }
    ensures { RefusedWith h.provider h.session (content_type_of (format_for h.accept_type)) h.opcode status out.old out.new result }
{
    refuse_as(out, h, format_for(h.accept_type), status)
}

// A request whose header and auth bytes have passed, answered for an application.
fn answer_named(
    out: &mut [u8],
    journal: &mut [u8],
    h: Header,
    body: &[u8],
    registry: &mut [u8],
    list: &[u8],
    line: Line,
) -> Answered
    requires { (well_formed_registry registry.old ≡ true) × (line.0 < line_count) × (buffer_least ≤ length out.old) × (well_formed_list list.now ≡ true) × (record_most ≤ length journal.old) × (length body.now < 2 ^ 32) }
    ensures { ResultAnswered h (result_for_named h body.now registry.old list.now line) (Some line) out.old out.new result × (registry.new ≡ changed registry.old line (result_for_named h body.now registry.old list.now line).change) × Wrote (record_for (act_of_change (slots_of registry.old line) line (result_for_named h body.now registry.old list.now line).change)) journal.old journal.new result.recorded }
{
    let format = format_for(h.content_type);
    let Decision {
        status,
        output,
        edit,
    } = perform_operation(format, h.opcode, body, registry, list, line);
    let written = write_response(out, h, status, registry, list, line, output);
    let recorded = write_record(journal, registry, line, body, edit);
    make_edit(registry, line, body, edit);
    Answered {
        status,
        asker: Some(line),
        written,
        recorded,
    }
}

// The same for nobody that is named: the keystore is not for them.
fn answer_nobody<'a>(
    out: &mut [u8],
    h: Header,
    body: &[u8],
    registry: &'a [u8],
    list: &'a [u8],
) -> Answered
    requires { PassedHeader h × (well_formed_registry registry.now ≡ true) × (buffer_least ≤ length out.old) × (well_formed_list list.now ≡ true) × (length body.now < 2 ^ 32) }
    ensures { ResultAnswered h (result_for_nobody h body.now list.now) None out.old out.new result × (result.recorded ≡ 0) }
{
    if h.provider == 1 {
        return refuse(out, h, Status::NotAuthenticated);
    }
    // No core operation looks at a line.
    let line = Line(0);
    let format = format_for(h.content_type);
    let Decision { status, output, .. } = perform_operation(
        format, h.opcode, body, registry, list, line,
    );
    let written = write_response(out, h, status, registry, list, line, output);
    Answered {
        status,
        asker: None,
        written,
        recorded: 0,
    }
}

// Who asks, by the tests that look at neither the operation nor its body: None is nobody that is named.
fn judge_sender(registry: &[u8], h: Header, auth: &[u8]) -> Result<Option<Line>, Status>
    requires { length registry.now ≡ registry_size }
    ensures { result ≡ sender_of (first_of (header_tests h)) (auth_of h.auth_type auth.now (application_named registry.now auth.now)) }
{
    check_header(h)?;
    authenticate(registry, h.auth_type, auth)
}

// A whole request that is not oversized.
fn answer_request(
    out: &mut [u8],
    journal: &mut [u8],
    request: &[u8],
    registry: &mut [u8],
    list: &[u8],
) -> Answered
    requires { (legal_start request.now ≡ true) × (length request.now ≡ request_length request.now) × (oversized request.now ≡ false) × (well_formed_registry registry.old ≡ true) × (buffer_least ≤ length out.old) × (well_formed_list list.now ≡ true) × (record_most ≤ length journal.old) }
    ensures { AnsweredBy (λ c. (journalling list.now).on_request registry.old c request.now) registry.new out.old out.new journal.old journal.new result }
{
    let h = read_header(request);
    let start = 6 + h.size as usize;
    let end = start + h.content_length as usize;
    let body = &request[start..end];
    match judge_sender(registry, h, &request[end..]) {
        Err(status) => refuse(out, h, status),
        Ok(None) => answer_nobody(out, h, body, registry, list),
        Ok(Some(line)) => answer_named(out, journal, h, body, registry, list, line),
    }
}

// An oversized request, from its header: 20 if C is too large, else 11.
fn answer_oversized(out: &mut [u8], header: &[u8]) -> Answered
    requires { (request_least ≤ length header.now) × (buffer_least ≤ length out.old) }
    ensures { (list registry journal : List ℕ) → AnsweredBy (λ c. (journalling list).on_oversized registry c header.now) registry out.old out.new journal journal result }
{
    let h = read_header(header);
    if CONTENT_MOST < h.content_length {
        return refuse_as(out, h, BodyFormat::Protobuf, Status::BodySizeExceedsLimit);
    }
    refuse_as(out, h, BodyFormat::Protobuf, Status::AuthenticationError)
}

// The response to an oversized request, whose header the bytes begin with.
pub fn answer_skipped(out: &mut [u8], bytes: &[u8]) -> Answered
    requires { (request_least ≤ header_length bytes.now) × (header_length bytes.now ≤ length bytes.now) × (buffer_least ≤ length out.old) }
    ensures { (list registry journal : List ℕ) → AnsweredBy (λ c. (journalling list).on_oversized registry c (take (header_length bytes.now) bytes.now)) registry out.old out.new journal journal result }
{
    let end = header_length(bytes);
    answer_oversized(out, &bytes[..end])
}

// A wrong magic or H: provider, session and opcode are zero.
pub fn answer_bad_start(out: &mut [u8]) -> Answered
    requires { buffer_least ≤ length out.old }
    ensures { (list registry journal : List ℕ) → AnsweredBy (λ c. (journalling list).on_bad_start registry c) registry out.old out.new journal journal result }
{
    let status = Status::InvalidHeader;
    let head = response_header(0, 0, 1, 0, 0, status_number(status));
    Answered {
        status,
        asker: None,
        written: copy_into(out, &head),
        recorded: 0,
    }
}

// A whole request, oversized or not.
pub fn answer_whole(
    out: &mut [u8],
    journal: &mut [u8],
    request: &[u8],
    registry: &mut [u8],
    list: &[u8],
) -> Answered
    requires { (legal_start request.now ≡ true) × (length request.now ≡ request_length request.now) × (well_formed_registry registry.old ≡ true) × (buffer_least ≤ length out.old) × (well_formed_list list.now ≡ true) × (record_most ≤ length journal.old) }
    ensures { AnsweredBy (λ c. judge (journalling list.now) registry.old c request.now) registry.new out.old out.new journal.old journal.new result }
{
    if is_oversized(request) {
        return answer_skipped(out, request);
    }
    answer_request(out, journal, request, registry, list)
}
