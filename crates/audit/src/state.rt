// The auditor's own state: which there are, and the first.
ghost use Rattle.std.specs.Prelude.{◌≡◌};
ghost use Rattle.audit.specs.Step.{begun, well_formed_progress, is_pending};

use crate::Progress;

// The longest response.
pub const RESPONSE_MOST: usize = 629;

// 2^63.
pub const NUMBER_MOST: u64 = 9223372036854775808;

// Nothing is compared yet.
#[tactic(auto, unfolding(crate::specs::Step::begun))]
pub fn begin_audit() -> Progress
    ensures { result ≡ begun }
{
    Progress {
        number: 0,
        size: 0,
        place: 0,
        is_wrong: false,
    }
}

// Whether a state is well formed, with the buffer that has the response's bytes.
#[tactic(auto, unfolding(crate::specs::Step::well_formed_progress))]
pub fn is_well_formed(p: Progress, pending: &[u8]) -> bool
    ensures { result ≡ well_formed_progress p pending.now }
{
    p.place <= p.size
        && p.size <= pending.len()
        && p.size <= RESPONSE_MOST
        && p.number <= NUMBER_MOST
}

// Whether bytes of a response are still to be compared.
#[tactic(auto, unfolding(crate::specs::Step::is_pending))]
pub fn is_pending(p: Progress) -> bool
    ensures { result ≡ is_pending p }
{
    !p.is_wrong && p.place < p.size
}
