// The verdict, once both streams have ended.
ghost use Rattle.std.specs.Prelude.{true, ◌≡◌};
ghost use Rattle.audit.specs.Step.{well_formed_progress, verdict_at, end_outcome};

use crate::compare::count_alike;
use crate::state::is_well_formed;
use crate::{Progress, Verdict};

// What is left of the captured responses is compared with what is left of the response.
fn judge_rest(p: Progress, pending: &[u8], rest: &[u8]) -> Verdict
    requires { well_formed_progress p pending.now ≡ true }
    ensures { result ≡ verdict_at p pending.now rest.now }
{
    if p.is_wrong {
        return Verdict::Wrong(p.number, p.place);
    }
    let left = &pending[p.place..p.size];
    let n = count_alike(left, rest);
    if n < left.len() {
        return Verdict::Wrong(p.number, p.place + n);
    }
    if n < rest.len() {
        return Verdict::Wrong(p.number + 1, 0);
    }
    Verdict::Accepted
}

// The verdict on the requests that the steps took, and on the responses that they took with `rest` behind them.
#[tactic(auto, unfolding(crate::specs::Step::end_outcome))]
pub fn end_audit(p: Progress, pending: &[u8], rest: &[u8]) -> Option<Verdict>
    ensures { result ≡ end_outcome p pending.now rest.now }
{
    if !is_well_formed(p, pending) {
        return None;
    }
    Some(judge_rest(p, pending, rest))
}
