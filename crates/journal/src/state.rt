// The reader's state in memory that the caller lends (docs/LAYOUT.md).
ghost use Rattle.std.specs.Prelude.{◌≡◌, [], ◌≤◌, length, drop};
ghost use Rattle.journal.specs.Compact.{is_begun_whole};
ghost use Rattle.journal.specs.Memory.{front_at, state_size, state_bytes, well_formed_state, begin_state};
ghost use Rattle.journal.specs.code.Done.{progress_in, progress_between, compact_with};

use crate::Progress;
use crate::replay::VALUE_MOST;
use wire::bytes::{all_zero, clear};
use wire::number::{bytes_of_u32, bytes_of_u64, read_u16, read_u32, read_u64};

pub const FRONT_MOST: usize = 3 + VALUE_MOST;

// No file is longer.
pub const FILE_MOST: u64 = 4611686018427387904;

// The CRC's register before any byte.
pub const ALL_ONES: u32 = 0xFFFFFFFF;

const KEPT_AT: usize = 1;

const COUNT_AT: usize = KEPT_AT + 8;

const REGISTER_AT: usize = COUNT_AT + 8;

pub const FRONT_AT: usize = REGISTER_AT + 4;

pub const STATE_SIZE: usize = FRONT_AT + FRONT_MOST;

// Why memory is no beginning of a reader's state.
#[derive(Clone, Copy)]
pub enum BeginRefusal {
    WrongSize,
}

// No record is begun.
pub(crate) fn between(fault: u8, kept: u64) -> Progress
    ensures { result ≡ progress_between fault kept }
{
    Progress {
        fault,
        kept,
        count: 0,
        register: ALL_ONES,
    }
}

// Whether so many bytes, which begin with `front`, are a whole record.
pub fn is_whole(count: u64, front: &[u8]) -> bool
    requires { 3 ≤ length front.now }
    ensures { result ≡ is_begun_whole count front.now }
{
    3 <= count && 3 + u64::from(read_u16(front, 1)) + 4 <= count
}

// Whether a slice of any length is a well-formed state.
pub fn is_well_formed(state: &[u8]) -> bool
    ensures { result ≡ well_formed_state state.now }
{
    if state.len() != STATE_SIZE {
        return false;
    }
    if 3 < state[0] {
        return false;
    }
    let kept = read_u64(state, KEPT_AT);
    let count = read_u64(state, COUNT_AT);
    if FILE_MOST < kept {
        return false;
    }
    if FILE_MOST - kept < count {
        return false;
    }
    if is_whole(count, &state[FRONT_AT..]) {
        return false;
    }
    if FRONT_MOST as u64 <= count {
        return true;
    }
    let end = FRONT_AT + count as usize;
    all_zero(&state[end..])
}

// What a state holds beside the record's front.
#[tactic(auto, unfolding(crate::specs::code::Done::progress_in))]
pub fn load(state: &[u8]) -> Progress
    requires { length state.now ≡ state_size }
    ensures { result ≡ progress_in state.now }
{
    Progress {
        fault: state[0],
        kept: read_u64(state, KEPT_AT),
        count: read_u64(state, COUNT_AT),
        register: read_u32(state, REGISTER_AT),
    }
}

// Writes all of a state but the record's front, which stays.
pub fn store(state: &mut [u8], p: Progress)
    requires { length state.old ≡ state_size }
    ensures { state.new ≡ state_bytes (compact_with [] p (drop front_at state.old)) }
{
    state[0] = p.fault;
    state[KEPT_AT..COUNT_AT].copy_from_slice(&bytes_of_u64(p.kept));
    state[COUNT_AT..REGISTER_AT].copy_from_slice(&bytes_of_u64(p.count));
    state[REGISTER_AT..FRONT_AT].copy_from_slice(&bytes_of_u32(p.register));
}

// Makes memory of the exact size a fresh state; any other memory stays as it came.
pub fn begin_journal(state: &mut [u8]) -> Result<(), BeginRefusal>
    ensures { record { answer = result; state = state.new } ≡ begin_state state.old }
{
    if state.len() != STATE_SIZE {
        return Err(BeginRefusal::WrongSize);
    }
    clear(state);
    store(state, between(0, 0));
    Ok(())
}
