// What is printed: the verdict and the bill, or the one line that stands for both.
ghost use Rattle.std.specs.Prelude.{◌≡◌, ◌+◌, ◌≤◌, length};
ghost use Rattle.wire.specs.code.Wrote.{Wrote};
ghost use Rattle.registry.specs.Registry.{registry_size};
ghost use Rattle.billing.specs.Outcome.{bill_most};
ghost use Rattle.audit_program.specs.Lines.{wrong_line, verdict_line, journal_line};
ghost use Rattle.audit.specs.declared.Verdict.TheVariants.{Accepted};

use crate::restore::{JournalRefusal, restore};
use crate::streams::{Audited, read_streams};
use audit::Verdict;
use billing::BILL_MOST;
use billing::text::{write_decimal, write_number, write_word};
use billing::whole::write_bill;
use counters::Counters;
use file_input::{read_list, read_roster};
use journal::Fault;
use starting::memory::{connection_memory, list_front, registry_memory};
use starting::start::{StartRefusal, with_list};
use starting::text::{write_line, write_no_file};
use std::fs::File;

// Room for the longest verdict.
const VERDICT_MOST: usize = 64;

pub const TEXT_MOST: usize = BILL_MOST + VERDICT_MOST;

pub fn text_buffer() -> [u8; TEXT_MOST]
    ensures { bill_most + 64 ≡ length result }
{
    [0; TEXT_MOST]
}

fn write_wrong(out: &mut [u8], number: u64, byte: usize) -> usize
    requires { bill_most ≤ length out.old }
    ensures { Wrote (wrong_line number byte) out.old out.new result }
{
    let named = write_word(out, 0, b"wrong");
    let numbered = write_number(out, named, number);
    let placed = write_number(out, numbered, byte as u64);
    write_word(out, placed, b"\n")
}

fn write_accepted(out: &mut [u8]) -> usize
    requires { bill_most ≤ length out.old }
    ensures { Wrote (verdict_line Accepted) out.old out.new result }
{
    write_word(out, 0, b"accepted\n")
}

#[tactic(auto, unfolding(crate::specs::Lines::verdict_line))]
fn write_verdict(out: &mut [u8], verdict: Verdict) -> usize
    requires { bill_most ≤ length out.old }
    ensures { Wrote (verdict_line verdict) out.old out.new result }
{
    match verdict {
        Verdict::Accepted => write_accepted(out),
        Verdict::Wrong(number, byte) => write_wrong(out, number, byte),
    }
}

// The line of a refused journal, as `journal J2`.
fn write_refused(out: &mut [u8], fault: Fault) -> usize
    requires { bill_most ≤ length out.old }
    ensures { Wrote (journal_line fault) out.old out.new result }
{
    let named = write_word(out, 0, b"journal J");
    let numbered = write_decimal(out, named, u64::from(u8::from(fault)));
    write_word(out, numbered, b"\n")
}

// Where a text ends that is so long, and starts at a place.
fn end_of(at: usize, size: usize, most: usize) -> usize {
    if most < at || most - at < size {
        return at;
    }
    at + size
}

// The bill behind the verdict.
fn write_behind(
    out: &mut [u8],
    at: usize,
    counters: Counters,
    registry: &[u8],
    connection: &[u8],
) -> usize {
    if out.len() < at {
        return 0;
    }
    match write_bill(&mut out[at..], counters, registry, connection) {
        Ok(size) => end_of(at, size, out.len()),
        // Never: there is room, and memory is well formed.
        _ => at,
    }
}

// The verdict, and the bill.
fn write_audit(out: &mut [u8], audited: Audited, registry: &[u8], connection: &[u8]) -> usize
    requires { bill_most ≤ length out.old }
{
    let Some(verdict) = audited.ending else {
        return write_no_file(out);
    };
    let at = write_verdict(out, verdict);
    write_behind(out, at, audited.counters, registry, connection)
}

// What a good start comes to: the journal's fault, or the verdict and the bill.
fn write_started(
    out: &mut [u8],
    restored: Result<(), JournalRefusal>,
    audited: Audited,
    registry: &[u8],
    connection: &[u8],
) -> usize
    requires { bill_most ≤ length out.old }
{
    match restored {
        Ok(()) => write_audit(out, audited, registry, connection),
        Err(JournalRefusal::Faulty(fault)) => write_refused(out, fault),
        Err(JournalRefusal::Unreadable) => write_no_file(out),
    }
}

// The text for what became of the files: an unreadable one first, then the roster's fault, a bad list, the journal's fault.
fn write_outcome(
    out: &mut [u8],
    source: Result<(), StartRefusal>,
    restored: Result<(), JournalRefusal>,
    audited: Option<Audited>,
    registry: &[u8],
    connection: &[u8],
) -> usize
    requires { bill_most ≤ length out.old }
{
    let Some(audited) = audited else {
        return write_no_file(out);
    };
    if let Err(JournalRefusal::Unreadable) = restored {
        return write_no_file(out);
    }
    if source.is_err() {
        return write_line(out, source);
    }
    write_started(out, restored, audited, registry, connection)
}

// The text for two streams, from what became of the files of the start.
fn write_streams(
    out: &mut [u8],
    source: Result<(), StartRefusal>,
    restored: Result<(), JournalRefusal>,
    requests: Option<File>,
    responses: Option<File>,
    registry: &mut [u8],
    connection: &mut [u8],
    list: &[u8],
) -> usize
    requires { bill_most ≤ length out.old }
{
    let audited = read_streams(
        requests,
        responses,
        source.is_ok() && restored.is_ok(),
        connection,
        registry,
        list,
    );
    write_outcome(out, source, restored, audited, registry, connection)
}

// The text for journal and streams, from what became of roster and list.
fn write_restored(
    out: &mut [u8],
    source: Result<(), StartRefusal>,
    journal: Option<File>,
    requests: Option<File>,
    responses: Option<File>,
    registry: &mut [u8],
    connection: &mut [u8],
    list: &[u8],
) -> usize
    requires { bill_most ≤ length out.old }
{
    let start = with_list(source, list);
    let restored = restore(journal, start.is_ok(), registry);
    write_streams(
        out, start, restored, requests, responses, registry, connection, list,
    )
}

// The text for five files, in memory that is lent.
fn write_files(
    out: &mut [u8],
    roster: Option<File>,
    list: Option<File>,
    journal: Option<File>,
    requests: Option<File>,
    responses: Option<File>,
    registry: &mut [u8],
    connection: &mut [u8],
    front: &mut [u8],
) -> usize
    requires { (bill_most ≤ length out.old) × (length registry.old ≡ registry_size) }
{
    let source = read_roster(roster, registry);
    let read = read_list(list, front);
    let Some(size) = read else {
        return write_no_file(out);
    };
    write_restored(
        out,
        source,
        journal,
        requests,
        responses,
        registry,
        connection,
        &front[..size],
    )
}

// The text for five files.
pub fn write_text(
    out: &mut [u8],
    roster: Option<File>,
    list: Option<File>,
    journal: Option<File>,
    requests: Option<File>,
    responses: Option<File>,
) -> usize
    requires { bill_most ≤ length out.old }
{
    let mut registry = registry_memory();
    let mut connection = connection_memory();
    let mut front = list_front();
    write_files(
        out,
        roster,
        list,
        journal,
        requests,
        responses,
        &mut registry,
        &mut connection,
        &mut front,
    )
}
