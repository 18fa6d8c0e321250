// Both captured streams read in chunks, and handed to the auditor step by step.
use audit::Verdict;
use audit::conclusion::end_audit;
use audit::state::begin_audit;
use audit::step::step;
use connection::change::open_connection;
use counters::Counters;
use counters::counting::zero_counters;
use file_input::{BUFFER_SIZE, CHUNK_SIZE, read_rest, read_some};
use starting::files::Input;
use std::fs::File;

// Steps that no run takes: nothing says that a file ends, and a proved loop has to.
const STEPS: u64 = 9223372036854775808;

// What became of the two streams: the verdict, and the counters after the requests.
#[derive(Clone, Copy)]
pub struct Audited {
    pub ending: Option<Verdict>,
    pub counters: Counters,
}

// How much of a chunk was read and taken, and whether its file may have more.
#[derive(Clone, Copy)]
struct Reached {
    at: usize,
    size: usize,
    is_open: bool,
}

const NOTHING_READ: Reached = Reached {
    at: 0,
    size: 0,
    is_open: true,
};

// Reads the next chunk, where all of the last one was taken; none where reading fails.
fn refill(file: &mut File, chunk: &mut [u8], r: Reached) -> Option<Reached> {
    if r.at < r.size || !r.is_open {
        return Some(r);
    }
    match read_some(file, chunk) {
        Input::Bytes(size) => Some(Reached {
            at: 0,
            size,
            is_open: true,
        }),
        Input::End => Some(Reached {
            at: 0,
            size: 0,
            is_open: false,
        }),
        Input::Failed => None,
    }
}

// So many bytes more of the chunk were taken.
fn advance(r: Reached, n: usize) -> Reached {
    Reached {
        at: r.at.saturating_add(n).min(r.size),
        ..r
    }
}

// Whether what is left of the responses' file can be read to its end.
fn is_rest_read(file: &mut File, r: Reached) -> bool {
    !r.is_open || read_rest(file)
}

// Whether all requests are taken, and the last step took nothing.
fn is_done(r: Reached, requests: usize, responses: usize) -> bool {
    !r.is_open && r.size <= r.at && requests == 0 && responses == 0
}

// Hands both streams over, from a fresh connection and zero counters, until all requests are taken and a step takes nothing more.
fn take_streams(
    requests: &mut File,
    responses: &mut File,
    asked: &mut [u8],
    answered: &mut [u8],
    connection: &mut [u8],
    registry: &mut [u8],
    list: &[u8],
    pending: &mut [u8],
    journal: &mut [u8],
) -> Option<Audited> {
    let _ = open_connection(connection);
    let mut progress = begin_audit();
    let mut counters = zero_counters();
    let mut a = NOTHING_READ;
    let mut b = NOTHING_READ;
    for _ in 0..STEPS {
        a = refill(requests, asked, a)?;
        b = refill(responses, answered, b)?;
        // Always there: what is still to be taken lies in its chunk.
        let left = asked.get(a.at..a.size)?;
        let rest = answered.get(b.at..b.size)?;
        let s = step(
            left, rest, !b.is_open, progress, connection, registry, list, counters, pending,
            journal,
        );
        progress = s.progress;
        counters = s.counters;
        a = advance(a, s.requests);
        b = advance(b, s.responses);
        // No step is refused.
        if s.code.is_err() {
            return None;
        }
        if is_done(a, s.requests, s.responses) {
            let ending = end_audit(progress, pending, rest);
            if !is_rest_read(responses, b) {
                return None;
            }
            return Some(Audited { ending, counters });
        }
    }
    None
}

// Reads both streams to their ends, and hands them to nobody.
fn pass_over(requests: &mut File, responses: &mut File) -> Option<Audited> {
    // Both, also where the first can't be read.
    let is_first = read_rest(requests);
    let is_second = read_rest(responses);
    if is_first && is_second {
        return Some(Audited {
            ending: None,
            counters: zero_counters(),
        });
    }
    None
}

// Audits two streams from a good start. Without one they are only read: an unreadable file comes before all else. None where one of
// them can't be read to its end.
pub fn read_streams(
    requests: Option<File>,
    responses: Option<File>,
    is_started: bool,
    connection: &mut [u8],
    registry: &mut [u8],
    list: &[u8],
) -> Option<Audited> {
    let mut asking = requests?;
    let mut answering = responses?;
    if !is_started {
        return pass_over(&mut asking, &mut answering);
    }
    let mut asked = [0; CHUNK_SIZE];
    let mut answered = [0; CHUNK_SIZE];
    let mut pending = [0; BUFFER_SIZE];
    let mut journal = [0; BUFFER_SIZE];
    take_streams(
        &mut asking,
        &mut answering,
        &mut asked,
        &mut answered,
        connection,
        registry,
        list,
        &mut pending,
        &mut journal,
    )
}
