// Captured bytes compared with those of a response.
ghost use Rattle.std.specs.Prelude.{true, ◌≡◌};
ghost use Rattle.audit.specs.Audit.{alike};
ghost use Rattle.audit.specs.Step.{well_formed_progress, left_of, is_found, advanced};
ghost use Rattle.audit.specs.code.Compared.{compared_with};

use crate::Progress;

// What comparing comes to: how many captured bytes are right, and how far the auditor is now.
#[derive(Clone, Copy)]
pub struct Compared {
    pub taken: usize,
    pub progress: Progress,
}

// How many first bytes two slices have alike.
pub fn count_alike(a: &[u8], b: &[u8]) -> usize
    ensures { result ≡ alike a.now b.now }
{
    for (i, byte) in a.iter().enumerate() {
        if b.len() <= i {
            return i;
        }
        if *byte != b[i] {
            return i;
        }
    }
    a.len()
}

// Whether a wrong byte is found where n bytes are alike: a byte that differs, or one that is missing at the stream's end.
#[tactic(auto, unfolding(crate::specs::Step::is_found))]
fn is_found(n: usize, left: usize, here: usize, is_last: bool) -> bool
    ensures { result ≡ is_found n left here is_last }
{
    n < left && (n < here || is_last)
}

// Compares captured bytes with what is left of the response. Right bytes are taken; a wrong one is not.
pub fn compare(p: Progress, pending: &[u8], captured: &[u8], is_last: bool) -> Compared
    requires { well_formed_progress p pending.now ≡ true }
    ensures { result ≡ compared_with p pending.now captured.now is_last }
{
    let left = &pending[p.place..p.size];
    let n = count_alike(left, captured);
    Compared {
        taken: n,
        progress: Progress {
            place: p.place + n,
            is_wrong: is_found(n, left.len(), captured.len(), is_last),
            ..p
        },
    }
}
