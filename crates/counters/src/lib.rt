// Document 01's tally: counters that the caller keeps and lends, and what a call adds to them ("Roster, registry, connection,
// tally").
#![tactic(auto)]

use judgement::{REFUSED_STATUSES, Status};
use registry::{LINES, Line};

pub mod counting;
pub mod events;
pub mod limit;

// Bytes taken, bytes of answered requests, bytes dropped; requests served for each application, requests served with auth
// type 0, requests refused for each status but Success.
#[repr(C)]
#[derive(Clone, Copy)]
pub struct Counters {
    pub taken: u64,
    pub answered: u64,
    pub dropped: u64,
    pub served: [u64; LINES],
    pub unauthenticated: u64,
    pub refused: [u64; REFUSED_STATUSES],
}

// What the request that a call answered counts as: each kind of request has a counter of its own.
#[derive(Clone, Copy)]
pub enum Event {
    Served(Line),
    ServedUnauthenticated,
    Refused(Status),
}

// What a call adds: the bytes that it took, those of the request that it answered, those that it dropped, and that request, if it
// answered one.
#[derive(Clone, Copy)]
pub struct Increments {
    pub taken: usize,
    pub answered: u64,
    pub dropped: usize,
    pub event: Option<Event>,
}
