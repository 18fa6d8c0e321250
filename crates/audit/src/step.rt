// A step of the auditor: bytes of the response that is pending are compared, or, where none is, a call takes bytes of the requests.
ghost use Rattle.std.specs.Prelude.{◌≡◌, ◌≤◌};
ghost use Rattle.service.specs.Contract.{lent_memory};
ghost use Rattle.audit.specs.Step.{audit_memory, chunks_with, number_most, after_call};
ghost use Rattle.audit.specs.code.Compared.{still_at, compared_step, called_step};
ghost use Rattle.audit.specs.Contract.{ran_step, StepContract};

use crate::compare::{Compared, compare};
use crate::state::{is_pending, is_well_formed};
use crate::{Progress, StepRefusal, Stepped};
use counters::Counters;
use service::Outcome;
use service::call::call_by_value;

// An ill-formed state: nothing is taken or altered.
fn refuse(progress: Progress, counters: Counters) -> Stepped
    ensures { result ≡ still_at progress counters }
{
    Stepped {
        code: Err(StepRefusal::IllFormed),
        requests: 0,
        responses: 0,
        progress,
        counters,
    }
}

fn after_comparing(c: Compared, counters: Counters) -> Stepped
    ensures { result ≡ compared_step c counters }
{
    Stepped {
        code: Ok(()),
        requests: 0,
        responses: c.taken,
        progress: c.progress,
        counters,
    }
}

// How far the auditor is after a call that wrote so many bytes: at the next response, unless there is none or a byte was wrong.
#[tactic(auto, unfolding(crate::specs::Step::after_call))]
fn after_call(p: Progress, written: usize) -> Progress
    requires { p.number ≤ number_most }
    ensures { result ≡ after_call p written }
{
    if p.is_wrong || written == 0 {
        return p;
    }
    Progress {
        number: p.number + 1,
        size: written,
        place: 0,
        is_wrong: false,
    }
}

fn after_calling(p: Progress, o: Outcome) -> Stepped
    requires { p.number ≤ number_most }
    ensures { result ≡ called_step p o }
{
    Stepped {
        code: o.answer.code.map_err(StepRefusal::Call),
        requests: o.answer.taken,
        responses: 0,
        progress: after_call(p, o.answer.written),
        counters: o.counters,
    }
}

// A step. Of a pair of chunks it takes bytes of one: of the responses while one is pending, else of the requests.
pub fn step(
    requests: &[u8],
    responses: &[u8],
    is_last: bool,
    progress: Progress,
    connection: &mut [u8],
    registry: &mut [u8],
    list: &[u8],
    counters: Counters,
    pending: &mut [u8],
    journal: &mut [u8],
) -> Stepped
    ensures { StepContract list.now (audit_memory (lent_memory connection.old registry.old counters) progress pending.old) (chunks_with requests.now responses.now is_last journal.old) (ran_step result connection.new registry.new pending.new journal.new) }
{
    if !is_well_formed(progress, pending) {
        return refuse(progress, counters);
    }
    if is_pending(progress) {
        let c = compare(progress, pending, responses, is_last);
        return after_comparing(c, counters);
    }
    let o = call_by_value(
        requests, connection, registry, list, counters, pending, journal,
    );
    after_calling(progress, o)
}
