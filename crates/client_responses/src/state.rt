// A reader's state in memory that the caller lends: the request's opcode, session and accept type, how many bytes of the response
// are held, and they (docs/LAYOUT.md).
ghost use Rattle.std.specs.Prelude.{◌≡◌, List, ◌++◌, ℕ, ◌+◌, ◌≤◌, length};
ghost use Rattle.wire.specs.Numbers.{field};
ghost use Rattle.client_responses.specs.Reading.{Asked};
ghost use Rattle.client_responses.specs.State.{response_most, accept_at, state_size, state_bytes, asked_in, well_formed_state, begin_state};

use crate::{Asked, BeginRefusal};
use messages::format::is_content_type;
use messages::opcodes::is_listed;
use wire::bytes::{all_zero_long, clear, copy_into};
use wire::number::{bytes_of_u16, bytes_of_u64, read_u16, read_u64};
use wire::response::RESPONSE_LEAST;

// The longest body of a response, and the longest response.
pub const CONTENT_MOST: usize = 998;

pub const RESPONSE_MOST: usize = RESPONSE_LEAST + CONTENT_MOST;

// Where the session begins, behind the opcode, the accept type, the count of bytes held, and they; and the response's body among
// them.
pub const SESSION_AT: usize = 2;

pub const ACCEPT_AT: usize = SESSION_AT + 8;

pub const COUNT_AT: usize = ACCEPT_AT + 1;

pub const BYTES_AT: usize = COUNT_AT + 2;

pub const BODY_AT: usize = BYTES_AT + RESPONSE_LEAST;

pub const STATE_SIZE: usize = BYTES_AT + RESPONSE_MOST;

// The accept type of the request.
pub fn accept_type_of(memory: &[u8]) -> u8
    requires { length memory.now ≡ state_size }
    ensures { result ≡ field accept_at 1 memory.now }
{
    memory[ACCEPT_AT]
}

#[tactic(auto, unfolding(crate::specs::State::asked_in))]
// The request whose response is read.
pub(crate) fn asked_in(memory: &[u8]) -> Asked
    requires { length memory.now ≡ state_size }
    ensures { result ≡ asked_in memory.now }
{
    Asked {
        opcode: read_u16(memory, 0),
        session: read_u64(memory, SESSION_AT),
        accept_type: accept_type_of(memory),
    }
}

// Whether a slice of any length is a well-formed state.
pub fn is_well_formed(memory: &[u8]) -> bool
    ensures { result ≡ well_formed_state memory.now }
{
    if memory.len() != STATE_SIZE {
        return false;
    }
    if !is_listed(read_u16(memory, 0)) {
        return false;
    }
    if !is_content_type(accept_type_of(memory)) {
        return false;
    }
    let count = read_u16(memory, COUNT_AT) as usize;
    if RESPONSE_MOST < count {
        return false;
    }
    let end = BYTES_AT + count;
    all_zero_long(&memory[end..], end)
}

// Makes memory of the exact size a fresh state for the response to a request; any other memory stays as it came.
pub fn begin(memory: &mut [u8], asked: Asked) -> Result<(), BeginRefusal>
    ensures { record { answer = result; memory = memory.new } ≡ begin_state memory.old asked }
{
    if memory.len() != STATE_SIZE {
        return Err(BeginRefusal::WrongSize);
    }
    if !is_listed(asked.opcode) {
        return Err(BeginRefusal::UnlistedOpcode);
    }
    if !is_content_type(asked.accept_type) {
        return Err(BeginRefusal::UnlistedType);
    }
    clear(memory);
    let first = bytes_of_u16(asked.opcode);
    copy_into(memory, &first);
    let second = bytes_of_u64(asked.session);
    copy_into(&mut memory[SESSION_AT..], &second);
    memory[ACCEPT_AT] = asked.accept_type;
    Ok(())
}

// Puts the bytes behind the `held` bytes that are there.
pub fn append(memory: &mut [u8], held: usize, bytes: &[u8])
    requires { (length memory.old ≡ state_size) × (held + length bytes.now ≤ response_most) }
    ensures { (asked : Asked) (before : List ℕ) → length before ≡ held → memory.old ≡ state_bytes asked before → memory.new ≡ state_bytes asked (before ++ bytes.now) }
{
    let count = bytes_of_u16((held + bytes.len()) as u16);
    copy_into(&mut memory[COUNT_AT..], &count);
    let end = BYTES_AT + held;
    copy_into(&mut memory[end..], bytes);
}
