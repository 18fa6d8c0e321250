// Whether lent memory is a well-formed connection, and what a well-formed one is
// ("Roster, registry, connection, tally").
ghost use Rattle.std.specs.Prelude.{◌≡◌, true, ◌≤◌, length, drop, get_or};
ghost use Rattle.wire.specs.Lists.{all, is_zero};
ghost use Rattle.stream.specs.Call.{is_beginning};
ghost use Rattle.stream.specs.Rules.{held_bytes};
ghost use Rattle.connection.specs.Connection.{connection_size, connection_of, well_formed_connection};
ghost use Rattle.connection.specs.code.State.{state_of};

use crate::{BYTES_AT, CLOSED, CONNECTION_SIZE, HELD_MOST, NUMBER_AT, OPEN, SKIPPING};
use stream::frame::{Frame, is_legal_start, is_oversized, read_frame, request_length};
use wire::bytes::all_zero_long;
use wire::header::header_length;
use wire::number::{read_u16, read_u32, read_u64};

// A connection without its bytes: how many it holds, or how many are to go.
#[derive(Clone, Copy)]
pub enum State {
    Open(usize),
    Skipping(u64),
    Closed,
}

// Whether all bytes from `from` on are zero.
fn is_zero_from(memory: &[u8], from: usize) -> bool
    requires { from ≤ length memory.now }
    ensures { result ≡ all is_zero (drop from memory.now) }
{
    all_zero_long(&memory[from..], from)
}

// Whether bytes are the beginning of a request that an open connection may hold.
fn is_beginning(bytes: &[u8]) -> bool
    ensures { result ≡ is_beginning bytes.now }
{
    matches!(read_frame(bytes), Frame::Unfinished)
}

// The next three take memory of the exact size and of the kind that they name.
fn open_well_formed(memory: &[u8]) -> bool
    requires { (length memory.now ≡ connection_size) × (get_or memory.now 0 0 ≡ 0) }
    ensures { result ≡ well_formed_connection memory.now }
{
    let number = read_u64(memory, NUMBER_AT);
    if number > HELD_MOST as u64 {
        return false;
    }
    let end = BYTES_AT + number as usize;
    is_zero_from(memory, end) && is_beginning(&memory[BYTES_AT..end])
}

fn skipping_well_formed(memory: &[u8]) -> bool
    requires { (length memory.now ≡ connection_size) × (get_or memory.now 0 0 ≡ 1) }
    ensures { result ≡ well_formed_connection memory.now }
{
    let held = &memory[BYTES_AT..];
    let to_go = read_u64(memory, NUMBER_AT);
    let past = 1 + u64::from(read_u32(held, 20)) + u64::from(read_u16(held, 24));
    is_legal_start(held)
        && is_oversized(held)
        && (1..past).contains(&to_go)
        && is_zero_from(memory, BYTES_AT + header_length(held))
}

fn closed_well_formed(memory: &[u8]) -> bool
    requires { (length memory.now ≡ connection_size) × (get_or memory.now 0 0 ≡ 2) }
    ensures { result ≡ well_formed_connection memory.now }
{
    is_zero_from(memory, NUMBER_AT)
}

// Whether a slice of any length is a well-formed connection (document 01's C3).
pub fn is_well_formed(memory: &[u8]) -> bool
    ensures { result ≡ well_formed_connection memory.now }
{
    if memory.len() != CONNECTION_SIZE {
        return false;
    }
    match memory[0] {
        OPEN => open_well_formed(memory),
        SKIPPING => skipping_well_formed(memory),
        CLOSED => closed_well_formed(memory),
        _ => false,
    }
}

// What a well-formed connection is.
pub fn read_state(memory: &[u8]) -> State
    requires { well_formed_connection memory.now ≡ true }
    ensures { result ≡ state_of (connection_of memory.now) }
{
    let number = read_u64(memory, NUMBER_AT);
    match memory[0] {
        OPEN => State::Open(number as usize),
        SKIPPING => State::Skipping(number),
        _ => State::Closed,
    }
}

// How many bytes of an unfinished request a well-formed connection has seen, skipped ones too.
pub fn held_bytes(memory: &[u8]) -> u64
    requires { well_formed_connection memory.now ≡ true }
    ensures { result ≡ held_bytes (connection_of memory.now) }
{
    match read_state(memory) {
        State::Open(held) => held as u64,
        State::Skipping(to_go) => request_length(&memory[BYTES_AT..]) - to_go,
        State::Closed => 0,
    }
}
