// C1 to C7 ("When a call is not taken"; document 02, 5 and 8).
ghost use Rattle.std.specs.Prelude.{◌≡◌};
ghost use Rattle.wire.specs.Choice.{first_of};
ghost use Rattle.service.specs.Call.{refusal_tests};
ghost use Rattle.service.specs.Contract.{lent_memory, call_with};
ghost use Rattle.service.specs.code.Called.{code_for};

use crate::Refusal;
use counters::Counters;
use counters::limit::is_too_high;

// The shortest response buffer, and the longest chunk.
pub const BUFFER_LEAST: usize = 1024;

pub const JOURNAL_LEAST: usize = 1024;

pub const CHUNK_MOST: usize = 65536;

// Which of C1 to C7 a call falls under, if any: the first that applies.
pub fn judge_call(
    chunk: &[u8],
    connection: &[u8],
    registry: &[u8],
    list: &[u8],
    counters: Counters,
    response: &[u8],
    journal: &[u8],
) -> Result<(), Refusal>
    ensures { result ≡ code_for (first_of (refusal_tests list.now (lent_memory connection.now registry.now counters) (call_with chunk.now response.now journal.now))) }
{
    if response.len() < BUFFER_LEAST {
        return Err(Refusal::ResponseBufferTooSmall);
    }
    if CHUNK_MOST < chunk.len() {
        return Err(Refusal::ChunkTooLong);
    }
    if !connection::check::is_well_formed(connection) {
        return Err(Refusal::ConnectionIllFormed);
    }
    if !registry::check::is_well_formed(registry) {
        return Err(Refusal::RegistryIllFormed);
    }
    if is_too_high(counters) {
        return Err(Refusal::CounterTooHigh);
    }
    if !shipped::check::is_well_formed(list) {
        return Err(Refusal::ListIllFormed);
    }
    if journal.len() < JOURNAL_LEAST {
        return Err(Refusal::JournalBufferTooSmall);
    }
    Ok(())
}
