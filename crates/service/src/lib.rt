// The call: refused by C1 to C7 ("When a call is not taken"; document 02, 5 and 8), or served and counted.
#![tactic(auto)]

ghost use Rattle.std.specs.Prelude.{◌≡◌};
ghost use Rattle.service.specs.Refusals.{refusal_number};

use counters::{Counters, Increments};

pub mod call;
pub mod refusals;
pub mod serve;

// Why a call is not taken: C1 to C7, by their numbers.
#[derive(Clone, Copy)]
pub enum Refusal {
    ResponseBufferTooSmall = 1,
    ChunkTooLong = 2,
    ConnectionIllFormed = 3,
    RegistryIllFormed = 4,
    CounterTooHigh = 5,
    ListIllFormed = 6,
    JournalBufferTooSmall = 7,
}

impl From<Refusal> for u32 {
    ghost from_gives = { λ refusal n. n ≡ refusal_number refusal };

    fn from(refusal: Refusal) -> u32 {
        refusal as u32
    }
}

// What a taken call comes to, before it is counted: how many bytes it wrote, and what it adds to the counters.
#[derive(Clone, Copy)]
pub struct Handled {
    pub written: usize,
    pub recorded: usize,
    pub added: Increments,
}

// What a call says: whether it was taken, how many bytes of the chunk it took, and how many it wrote. Kept: the code stands beside
// the three numbers, as in the C interface's answer; of a refused call they are 0, and callers add them up without a look at it.
#[derive(Clone, Copy)]
pub struct CallAnswer {
    pub code: Result<(), Refusal>,
    pub taken: usize,
    pub written: usize,
    pub recorded: usize,
}

// What a call says, and the counters after it.
#[derive(Clone, Copy)]
pub struct Outcome {
    pub answer: CallAnswer,
    pub counters: Counters,
}
