// A call: refused by C1 to C7 ("When a call is not taken"; document 02, 5 and 8), or served, and counted.
ghost use Rattle.std.specs.Prelude.{◌≡◌};
ghost use Rattle.service.specs.Contract.{lent_memory, call_with, code_number, ran_with, CallContract};
ghost use Rattle.service.specs.code.Called.{answer_of, counted_by, FitsBy, ran_by};

use crate::refusals::judge_call;
use crate::serve::serve;
use crate::{CallAnswer, Handled, Outcome, Refusal};
use counters::Counters;
use counters::counting::count;

// A call but for its counters, which are looked at and stay as they are.
fn handle(
    chunk: &[u8],
    connection: &mut [u8],
    registry: &mut [u8],
    list: &[u8],
    counters: Counters,
    response: &mut [u8],
    journal: &mut [u8],
) -> Result<Handled, Refusal>
    ensures { CallContract list.now (lent_memory connection.old registry.old counters) (call_with chunk.now response.old journal.old) (ran_by (answer_of result) (lent_memory connection.new registry.new (counted_by counters result)) response.new journal.new) × FitsBy counters result }
{
    judge_call(
        chunk, connection, registry, list, counters, response, journal,
    )?;
    Ok(serve(connection, registry, list, response, journal, chunk))
}

// A call, with the counters changed in place.
pub fn call(
    chunk: &[u8],
    connection: &mut [u8],
    registry: &mut [u8],
    list: &[u8],
    counters: &mut Counters,
    response: &mut [u8],
    journal: &mut [u8],
) -> CallAnswer
    ensures { CallContract list.now (lent_memory connection.old registry.old counters.old) (call_with chunk.now response.old journal.old) (ran_with (code_number result.code) result.taken result.written result.recorded (lent_memory connection.new registry.new counters.new) response.new journal.new) }
{
    match handle(
        chunk, connection, registry, list, *counters, response, journal,
    ) {
        Ok(h) => {
            count(counters, h.added);
            CallAnswer {
                code: Ok(()),
                taken: h.added.taken,
                written: h.written,
                recorded: h.recorded,
            }
        }
        Err(refusal) => CallAnswer {
            code: Err(refusal),
            taken: 0,
            written: 0,
            recorded: 0,
        },
    }
}

// A call, with the counters by value.
pub fn call_by_value(
    chunk: &[u8],
    connection: &mut [u8],
    registry: &mut [u8],
    list: &[u8],
    counters: Counters,
    response: &mut [u8],
    journal: &mut [u8],
) -> Outcome
    ensures { CallContract list.now (lent_memory connection.old registry.old counters) (call_with chunk.now response.old journal.old) (ran_with (code_number result.answer.code) result.answer.taken result.answer.written result.answer.recorded (lent_memory connection.new registry.new result.counters) response.new journal.new) }
{
    let mut counters = counters;
    let answer = call(
        chunk,
        connection,
        registry,
        list,
        &mut counters,
        response,
        journal,
    );
    Outcome { answer, counters }
}
