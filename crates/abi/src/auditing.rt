// The auditor, exported to C (document 02, "The auditor"). Its progress and its counters go in and come back by value.
// Kept here: numbers and flags, which C passes and reads, and functions that turn other crates' types into them (those take no
// `From` here).
ghost use Rattle.std.specs.Prelude.{◌≡◌, Some};
ghost use Rattle.audit.specs.Contract.{refusal_of};
ghost use Rattle.audit.specs.Step.{chunks_with, step_outcome, begun, end_outcome};
ghost use Rattle.counters.specs.Counters.{zero_counters};
ghost use Rattle.abi.specs.Auditing.{progress_of, audit_with, refused_number, stepped_numbers, lent_audit, stepped_with, verdict_numbers};

use audit::conclusion::end_audit;
use audit::state::begin_audit;
use audit::step::step;
use audit::{Progress, StepRefusal, Stepped, Verdict};
use counters::Counters;
use counters::counting::zero_counters;

// How far an audit is, and the counters of the requests that it took. `wrong` is 0 while no byte is wrong.
#[repr(C)]
#[derive(Clone, Copy)]
pub struct Audit {
    pub number: u64,
    pub size: usize,
    pub place: usize,
    pub wrong: u32,
    pub counters: Counters,
}

// What a step says: 0, or the C number of a call that was not taken, or 8 for an ill-formed state; how many bytes of the requests
// and of the responses it took; and the audit after it.
#[repr(C)]
#[derive(Clone, Copy)]
pub struct Audited {
    pub code: u32,
    pub requests: usize,
    pub responses: usize,
    pub audit: Audit,
}

// The verdict: 0 if every response is right, 1 with the first wrong one's number and byte, 8 for an ill-formed state.
#[repr(C)]
#[derive(Clone, Copy)]
pub struct VerdictNumbers {
    pub code: u32,
    pub response: u64,
    pub byte: usize,
}

#[tactic(auto, unfolding(crate::specs::Auditing::wrong_number))]
fn with_counters(p: Progress, counters: Counters) -> Audit
    ensures { result ≡ audit_with p counters }
{
    Audit {
        number: p.number,
        size: p.size,
        place: p.place,
        wrong: u32::from(p.is_wrong),
        counters,
    }
}

fn progress_of(audit: Audit) -> Progress
    ensures { result ≡ progress_of audit }
{
    Progress {
        number: audit.number,
        size: audit.size,
        place: audit.place,
        is_wrong: audit.wrong != 0,
    }
}

// An audit that has taken nothing.
#[unsafe(no_mangle)]
pub extern "C" fn razidkot_audit_begin() -> Audit
    ensures { result ≡ audit_with begun zero_counters }
{
    with_counters(begin_audit(), zero_counters())
}

#[tactic(auto, unfolding(crate::specs::Auditing::refused_number, audit::specs::Contract::refusal_of))]
fn step_number(code: Result<(), StepRefusal>) -> u32
    ensures { result ≡ refused_number (refusal_of code) }
{
    match code {
        Ok(()) => 0,
        Err(StepRefusal::IllFormed) => 8,
        Err(StepRefusal::Call(refusal)) => u32::from(refusal),
    }
}

fn number_stepped(s: Stepped) -> Audited
    ensures { result ≡ stepped_numbers s }
{
    Audited {
        code: step_number(s.code),
        requests: s.requests,
        responses: s.responses,
        audit: with_counters(s.progress, s.counters),
    }
}

// A step: bytes of the responses while a response is pending, else bytes of the requests. `is_last` says that no response byte
// comes behind this chunk. Nobody keeps what is written to `journal`.
#[unsafe(no_mangle)]
pub extern "C" fn razidkot_audit_step(
    audit: Audit,
    requests: &[u8],
    responses: &[u8],
    is_last: bool,
    connection: &mut [u8],
    registry: &mut [u8],
    list: &[u8],
    pending: &mut [u8],
    journal: &mut [u8],
) -> Audited
    ensures { (result, (connection.new, (registry.new, (pending.new, journal.new)))) ≡ stepped_with (step_outcome list.now (lent_audit audit connection.old registry.old pending.old) (chunks_with requests.now responses.now is_last journal.old)) }
{
    number_stepped(step(
        requests,
        responses,
        is_last,
        progress_of(audit),
        connection,
        registry,
        list,
        audit.counters,
        pending,
        journal,
    ))
}

#[tactic(auto, unfolding(crate::specs::Auditing::verdict_numbers))]
fn number_verdict(verdict: Verdict) -> VerdictNumbers
    ensures { result ≡ verdict_numbers (Some verdict) }
{
    match verdict {
        Verdict::Accepted => VerdictNumbers {
            code: 0,
            response: 0,
            byte: 0,
        },
        Verdict::Wrong(response, byte) => VerdictNumbers {
            code: 1,
            response,
            byte,
        },
    }
}

#[tactic(auto, unfolding(crate::specs::Auditing::verdict_numbers))]
fn number_ending(ending: Option<Verdict>) -> VerdictNumbers
    ensures { result ≡ verdict_numbers ending }
{
    match ending {
        None => VerdictNumbers {
            code: 8,
            response: 0,
            byte: 0,
        },
        Some(verdict) => number_verdict(verdict),
    }
}

// The verdict once both streams have ended: `rest` is what no step took of the responses.
#[unsafe(no_mangle)]
pub extern "C" fn razidkot_audit_end(audit: Audit, pending: &[u8], rest: &[u8]) -> VerdictNumbers
    ensures { result ≡ verdict_numbers (end_outcome (progress_of audit) pending.now rest.now) }
{
    number_ending(end_audit(progress_of(audit), pending, rest))
}
