// A captured stream run through the call, chunk by chunk.
ghost use Rattle.std.specs.Prelude.{◌≡◌, ◌≤◌, length};
ghost use Rattle.counters.specs.Counters.{zero_counters};
ghost use Rattle.service.specs.Call.{buffer_least, journal_least, chunk_most};
ghost use Rattle.service.specs.Contract.{lent_memory};
ghost use Rattle.starting.specs.code.Stream.{Follows, Takes, taken_with};

use counters::Counters;
use counters::counting::zero_counters;
use service::call::call_by_value;

// A stream that was read: the counters after it, and whether it could be read to its end. Kept: the claims speak of what a stream
// that broke off left in memory too.
#[derive(Clone, Copy)]
pub struct Taken {
    pub counters: Counters,
    pub is_whole: bool,
}

// A stream of which nothing is counted.
pub fn uncounted(is_whole: bool) -> Taken
    ensures { result ≡ taken_with zero_counters is_whole }
{
    Taken {
        counters: zero_counters(),
        is_whole,
    }
}

// Hands a chunk over, and what is left of it again, until all of it is taken.
pub fn feed(
    chunk: &[u8],
    connection: &mut [u8],
    registry: &mut [u8],
    list: &[u8],
    counters: Counters,
    response: &mut [u8],
    journal: &mut [u8],
) -> Counters
    requires { (length chunk.now ≤ chunk_most) × (buffer_least ≤ length response.old) × (journal_least ≤ length journal.old) × Follows list.now (length chunk.now) (lent_memory connection.old registry.old counters) }
    ensures { Takes list.now chunk.now (lent_memory connection.old registry.old counters) (lent_memory connection.new registry.new result) }
{
    let mut after = counters;
    let mut at = 0;
    while at < chunk.len() {
        let o = call_by_value(
            &chunk[at..],
            connection,
            registry,
            list,
            after,
            response,
            journal,
        );
        at += o.answer.taken;
        after = o.counters;
    }
    after
}
