// The journal read back in chunks (document 02, "Surviving a power cut"): byte by byte, each record carried out with its last one.
ghost use Rattle.std.specs.Prelude.{◌≡◌, ◌+◌, ◌≤◌, ◌<◌, length};
ghost use Rattle.registry.specs.Registry.{registry_size};
ghost use Rattle.reading.specs.Reader.{read};
ghost use Rattle.crc.specs.Crc.{table_entries};
ghost use Rattle.journal.specs.Compact.{front_most, file_most, front_then, with_byte, judge_begun, compact_record, compact_step, has_ended, compact_journal};
ghost use Rattle.journal.specs.Memory.{said_of, read_outcome};
ghost use Rattle.journal.specs.code.Done.{left_by, compact_with};

use crate::replay::{VALUE_MOST, replay};
use crate::state::{
    FILE_MOST, FRONT_AT, FRONT_MOST, between, is_well_formed, is_whole, load, store,
};
use crate::{Fault, Progress};
use crc::{table, take_byte};
use registry::check;
use wire::bytes::clear;
use wire::number::read_u16;

// The register after a record that ends with its CRC.
const RESIDUE: u32 = 0xDEBB20E3;

// What a call says. A border is where a record ends and no other is begun. Kept: five answers, two of them refusals of the
// call and one of the file.
#[derive(Clone, Copy)]
pub enum Said {
    RegistryIllFormed,
    StateIllFormed,
    Waiting,
    AtBorder,
    Refused(Fault),
}

// What a call says, how many bytes of the chunk it took, and how many bytes the records take that are carried out.
#[derive(Clone, Copy)]
pub struct ReadAnswer {
    pub said: Said,
    pub taken: usize,
    pub kept: u64,
}

#[derive(Clone, Copy)]
struct Reached {
    progress: Progress,
    taken: usize,
}

// Judges a whole record by its register and its front, and carries it out.
fn judge(front: &[u8], registry: &mut [u8], register: u32) -> Result<(), Fault>
    requires { (length front.now ≡ front_most) × (length registry.old ≡ registry_size) }
    ensures { record { judged = result; registry = registry.new } ≡ left_by registry.old (judge_begun registry.old register front.now) }
{
    if register != RESIDUE {
        return Err(Fault::WrongCrc);
    }
    let n = usize::from(read_u16(front, 1));
    if VALUE_MOST < n {
        return Err(Fault::WrongLayout);
    }
    let e = 3 + n;
    replay(registry, front[0], &front[3..e])
}

// Ends the record begun: it is judged, and its front is cleared.
fn end_record(front: &mut [u8], registry: &mut [u8], p: Progress) -> Progress
    requires { (length front.old ≡ front_most) × (length registry.old ≡ registry_size) × (p.kept + p.count ≤ file_most) }
    ensures { compact_with registry.new result front.new ≡ (compact_record (compact_with registry.old p front.old) (judge_begun registry.old p.register front.old)).kept }
{
    let judged = judge(front, registry, p.register);
    clear(front);
    match judged {
        Ok(()) => between(0, p.kept + p.count),
        Err(fault) => between(u8::from(fault), p.kept),
    }
}

// Keeps a byte that is one of a record's front.
fn keep_byte(front: &mut [u8], count: u64, byte: u8)
    requires { length front.old ≡ front_most }
    ensures { front.new ≡ front_then front.old count byte }
{
    if FRONT_MOST as u64 <= count {
        return;
    }
    let at = count as usize;
    front[at] = byte;
}

// Takes one byte.
fn take_on(
    front: &mut [u8],
    registry: &mut [u8],
    entries: &[u32; 256],
    p: Progress,
    byte: u8,
) -> Progress
    requires { (length front.old ≡ front_most) × (length registry.old ≡ registry_size) × (p.kept + p.count < file_most) × (entries.now ≡ table_entries) }
    ensures { compact_with registry.new result front.new ≡ (compact_step (with_byte (compact_with registry.old p front.old) byte)).kept }
{
    let count = p.count;
    keep_byte(front, count, byte);
    let next = Progress {
        fault: p.fault,
        kept: p.kept,
        count: count + 1,
        register: take_byte(entries, p.register, byte),
    };
    if is_whole(count + 1, front) {
        return end_record(front, registry, next);
    }
    next
}

// Whether no byte is taken any more.
fn has_ended(p: Progress) -> bool
    requires { p.kept + p.count ≤ file_most }
    ensures { result ≡ has_ended p.fault p.kept p.count }
{
    p.fault != 0 || FILE_MOST <= p.kept + p.count
}

// Takes the bytes of a chunk, one by one, up to its end or the reader's.
fn read_on(front: &mut [u8], registry: &mut [u8], start: Progress, chunk: &[u8]) -> Reached
    requires { (length front.old ≡ front_most) × (length registry.old ≡ registry_size) × (start.kept + start.count ≤ file_most) }
    ensures { (compact_with registry.new result.progress front.new ≡ (read compact_journal (compact_with registry.old start front.old) chunk.now).kept) × (result.taken ≡ (read compact_journal (compact_with registry.old start front.old) chunk.now).taken) }
{
    let entries = table();
    let mut progress = start;
    for (i, byte) in chunk.iter().enumerate() {
        if has_ended(progress) {
            return Reached { progress, taken: i };
        }
        progress = take_on(front, registry, &entries, progress, *byte);
    }
    Reached {
        progress,
        taken: chunk.len(),
    }
}

// What is said of what was read.
fn say(p: Progress) -> Said
    ensures { result ≡ said_of p.fault p.count }
{
    match p.fault {
        0 if p.count == 0 => Said::AtBorder,
        0 => Said::Waiting,
        1 => Said::Refused(Fault::WrongCrc),
        2 => Said::Refused(Fault::WrongLayout),
        _ => Said::Refused(Fault::NotAllowed),
    }
}

// A call that is refused.
fn refused(said: Said) -> ReadAnswer
    ensures { result ≡ record { said = said; taken = 0; kept = 0 } }
{
    ReadAnswer {
        said,
        taken: 0,
        kept: 0,
    }
}

// A CALL: all that it says and leaves is what the definition gives.
pub fn read_journal(state: &mut [u8], registry: &mut [u8], chunk: &[u8]) -> ReadAnswer
    ensures { record { said = result.said; taken = result.taken; kept = result.kept; state = state.new; registry = registry.new } ≡ read_outcome registry.old state.old chunk.now }
{
    if !check::is_well_formed(registry) {
        return refused(Said::RegistryIllFormed);
    }
    if !is_well_formed(state) {
        return refused(Said::StateIllFormed);
    }
    let start = load(state);
    let reached = read_on(&mut state[FRONT_AT..], registry, start, chunk);
    let p = reached.progress;
    store(state, p);
    ReadAnswer {
        said: say(p),
        taken: reached.taken,
        kept: p.kept,
    }
}
