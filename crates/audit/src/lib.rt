// The auditor (document 02, "The auditor"): captured responses compared with those that the call writes for the captured requests.
#![tactic(auto)]

use counters::Counters;
use service::Refusal;

pub mod compare;
pub mod conclusion;
pub mod state;
pub mod step;

// What is found: every response is the one that the rules give, or the first wrong one's number, from 1, and its byte, from 0.
// Kept: a verdict is no error of the auditor, and document 02 names both.
#[derive(Clone, Copy)]
pub enum Verdict {
    Accepted,
    Wrong(u64, usize),
}

// How far the auditor is. The last response that the call wrote has this number and so many bytes; so many of them were compared.
// Once a byte is wrong, number and place stay at it. Kept, `is_wrong` too: the definition of the state has it, and C hands it back.
#[derive(Clone, Copy)]
pub struct Progress {
    pub number: u64,
    pub size: usize,
    pub place: usize,
    pub is_wrong: bool,
}

// Why a step is not taken: its state is ill-formed, or the call is refused.
#[derive(Clone, Copy)]
pub enum StepRefusal {
    IllFormed,
    Call(Refusal),
}

// What a step says, how many bytes of the requests and of the responses it took, and what it leaves.
#[derive(Clone, Copy)]
pub struct Stepped {
    pub code: Result<(), StepRefusal>,
    pub requests: usize,
    pub responses: usize,
    pub progress: Progress,
    pub counters: Counters,
}
