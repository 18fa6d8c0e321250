// How high a counter may be: document 01's C5 ("When a call is not taken").
ghost use Rattle.std.specs.Prelude.{◌≡◌, ltb};
ghost use Rattle.counters.specs.Counters.{counter_most, maximum, largest_counter};

use crate::Counters;

// 2^62.
pub const COUNTER_MOST: u64 = 4611686018427387904;

// The largest of some counters; 0 of none.
fn largest(counters: &[u64]) -> u64
    ensures { result ≡ maximum counters.now }
{
    let mut most = 0;
    for counter in counters {
        most = most.max(*counter);
    }
    most
}

// Whether any counter is above 2^62.
pub fn is_too_high(c: Counters) -> bool
    ensures { result ≡ ltb counter_most (largest_counter c) }
{
    let served = largest(&c.served);
    let refused = largest(&c.refused);
    COUNTER_MOST
        < largest(&[
            c.taken,
            c.answered,
            c.dropped,
            served,
            c.unauthenticated,
            refused,
        ])
}
