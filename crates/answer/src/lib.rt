// A request answered ("Order of judgement on one request"): `request` answers it by the order's three steps, `response` writes a
// response.
#![tactic(auto)]

use judgement::Status;
use registry::Line;

pub mod request;
mod response;

// A request that was answered: with which status, for whom it counts, and how many bytes were written of the response and of the
// record.
#[derive(Clone, Copy)]
pub struct Answered {
    pub status: Status,
    pub asker: Option<Line>,
    pub written: usize,
    pub recorded: usize,
}
