// Responses read in chunks ("The client's half", "A second body format"). Kept: numbers for kinds and refusals, which C reads.
ghost use Rattle.std.specs.Prelude.{◌≡◌};
ghost use Rattle.messages.specs.Formats.{format_for};
ghost use Rattle.messages.specs.Placed.{read_list_outcome};
ghost use Rattle.client_responses.specs.State.{begin_state, read_outcome};
ghost use Rattle.client_abi.specs.Numbers.{began_with, placed_numbers, output_numbers, without_response, answer_numbers, Says};

use client_responses::read::{ReadAnswer, read};
use client_responses::state::begin;
use client_responses::{Asked, ReadFault};
use messages::format::format_for;
use messages::read::{Output, read_list};
use wire::span::Span;

// An output: its number; a version's two; where a body broke; the place, in the state's memory, of data or of a list's
// entries. What an output doesn't have is 0.
#[repr(C)]
#[derive(Clone, Copy)]
pub struct OutputNumbers {
    pub kind: u32,
    pub major: u32,
    pub minor: u32,
    pub offset: u32,
    pub start: usize,
    pub length: usize,
}

// What a call says: a number; how many bytes of the chunk it took; a response's status and output, 0 where there is none.
#[repr(C)]
#[derive(Clone, Copy)]
pub struct Answer {
    pub code: u32,
    pub status: u32,
    pub taken: usize,
    pub output: OutputNumbers,
}

#[tactic(auto, unfolding(crate::specs::Numbers::begun_number, crate::specs::Numbers::begin_refusal_number))]
// 0 for a state begun, 1 for memory of another size, 2 for an opcode that is not listed, 3 for an accept type that is not.
#[unsafe(no_mangle)]
pub extern "C" fn razidkot_client_begin(
    state: &mut [u8],
    opcode: u16,
    session: u64,
    accept_type: u8,
) -> u32
    ensures { (result, state.new) ≡ began_with (begin_state state.old (record { opcode = opcode; session = session; accept_type = accept_type })) }
{
    let asked = Asked {
        opcode,
        session,
        accept_type,
    };
    match begin(state, asked) {
        Ok(()) => 0,
        Err(refusal) => refusal as u32,
    }
}

// No output.
const NOTHING: OutputNumbers = OutputNumbers {
    kind: 0,
    major: 0,
    minor: 0,
    offset: 0,
    start: 0,
    length: 0,
};

fn placed(kind: u32, span: Span) -> OutputNumbers
    ensures { result ≡ placed_numbers kind span }
{
    OutputNumbers {
        kind,
        start: span.start,
        length: span.len,
        ..NOTHING
    }
}

#[tactic(auto, unfolding(crate::specs::Numbers::output_numbers))]
fn number_output(output: Output) -> OutputNumbers
    ensures { result ≡ output_numbers output }
{
    match output {
        Output::Nothing => NOTHING,
        Output::Version(major, minor) => OutputNumbers {
            kind: 1,
            major,
            minor,
            ..NOTHING
        },
        Output::Providers(span) => placed(2, span),
        Output::Opcodes(span) => placed(3, span),
        Output::Data(span) => placed(4, span),
        Output::Offset(at) => OutputNumbers {
            kind: 5,
            offset: at,
            ..NOTHING
        },
    }
}

// No response: a code alone.
#[tactic(auto, unfolding(crate::specs::Numbers::output_numbers))]
fn without(code: u32, taken: usize) -> Answer
    ensures { result ≡ without_response code taken }
{
    Answer {
        code,
        status: 0,
        taken,
        output: NOTHING,
    }
}

#[tactic(auto, unfolding(crate::specs::Numbers::said_numbers, crate::specs::Numbers::read_refusal_number))]
fn number(answer: ReadAnswer) -> Answer
    ensures { result ≡ answer_numbers answer }
{
    match answer.said {
        Ok(None) => without(0, answer.taken),
        Ok(Some(response)) => Answer {
            code: 1,
            status: u32::from(response.status),
            taken: answer.taken,
            output: number_output(response.output),
        },
        Err(ReadFault::IllFormed) => without(2, answer.taken),
        Err(ReadFault::Refused(refusal)) => without(refusal as u32, answer.taken),
    }
}

// 0 while more is awaited, 1 for a response, 2 for an ill-formed state, 3 to 9 for a refusal.
#[unsafe(no_mangle)]
pub extern "C" fn razidkot_client_read(state: &mut [u8], chunk: &[u8]) -> Answer
    ensures { Says state.new (read_outcome state.old chunk.now) result }
{
    number(read(state, chunk))
}

// The entries of a list in the format of its accept type, as many as there is room for, and how many those are. A type other than
// 2 is read as 1.
#[unsafe(no_mangle)]
pub extern "C" fn razidkot_client_read_list(
    accept_type: u8,
    list: &[u8],
    entries: &mut [u32],
) -> usize
    ensures { record { count = result; entries = entries.new } ≡ read_list_outcome (format_for accept_type) list.now entries.old }
{
    read_list(format_for(accept_type), list, entries)
}
