// All that a call counts: in place, and by value.
ghost use Rattle.std.specs.Prelude.{◌≡◌};
ghost use Rattle.counters.specs.Counters.{zero_counters};
ghost use Rattle.counters.specs.code.Counted.{counted, Fits};

use crate::{Counters, Event, Increments};
use judgement::REFUSED_STATUSES;
use judgement::statuses::refused_index;
use registry::LINES;

// Nothing is counted yet.
pub fn zero_counters() -> Counters
    ensures { result ≡ zero_counters }
{
    // Kept: a literal, and no derived Default, since the must-fail edit cleared_counter_of_one changes a field of it.
    Counters {
        taken: 0,
        answered: 0,
        dropped: 0,
        served: [0; LINES],
        unauthenticated: 0,
        refused: [0; REFUSED_STATUSES],
    }
}

// Adds what a call counts to each counter, where it lies: its bytes, and one to the counter of the request that it answered.
pub fn count(counters: &mut Counters, by: Increments)
    requires { Fits counters.old by }
    ensures { counters.new ≡ counted counters.old by }
{
    counters.taken += by.taken as u64;
    counters.answered += by.answered;
    counters.dropped += by.dropped as u64;
    match by.event {
        None => {}
        Some(Event::Served(line)) => counters.served[line.0] += 1,
        Some(Event::ServedUnauthenticated) => counters.unauthenticated += 1,
        Some(Event::Refused(status)) => counters.refused[refused_index(status)] += 1,
    }
}

// The same by value.
pub fn with_increments(c: Counters, by: Increments) -> Counters
    requires { Fits c by }
    ensures { result ≡ counted c by }
{
    let mut next = c;
    count(&mut next, by);
    next
}
