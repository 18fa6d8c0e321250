// A response read in chunks (document 02, "The client's half"): bytes are taken a run at a time, up to where more can be said of
// them, and no byte behind the response.
ghost use Rattle.std.specs.Prelude.{◌≡◌, length};
ghost use Rattle.client_responses.specs.State.{asked_in, bytes_in};
ghost use Rattle.client_responses.specs.Handed.{ReadContract, SaidWithin};
ghost use Rattle.client_responses.specs.code.Looked.{Holding, Run, Filled, is_waiting, answered_as};

use crate::look::{Response, first_run, look, wanted};
use crate::state::{COUNT_AT, append, is_well_formed};
use crate::{ReadFault, ReadRefusal};
use wire::number::read_u16;

// What a call says, `None` while more is awaited, and how many bytes of the chunk it took.
#[derive(Clone, Copy)]
pub struct ReadAnswer {
    pub said: Result<Option<Response>, ReadFault>,
    pub taken: usize,
}

// How many bytes of `rest` can be put behind those held before more can be said of them.
fn run(memory: &[u8], rest: &[u8]) -> usize
    requires { Holding memory.now }
    ensures { Run (asked_in memory.now) (bytes_in memory.now) rest.now result }
{
    let held = read_u16(memory, COUNT_AT) as usize;
    if held == 0 {
        return first_run(memory, rest);
    }
    wanted(memory) - held
}

// Takes on as many of the bytes as make a run, or all that are left.
fn fill(memory: &mut [u8], rest: &[u8]) -> usize
    requires { Holding memory.old }
    ensures { Filled memory.old rest.now memory.new result }
{
    let held = read_u16(memory, COUNT_AT) as usize;
    let k = run(memory, rest).min(rest.len());
    append(memory, held, &rest[..k]);
    k
}

// Whether more is awaited.
fn is_waiting(looked: Result<Option<Response>, ReadRefusal>) -> bool
    ensures { result ≡ is_waiting looked }
{
    matches!(looked, Ok(None))
}

// What was looked at, as a call says it.
fn answer(looked: Result<Option<Response>, ReadRefusal>, taken: usize) -> ReadAnswer
    ensures { result ≡ answered_as looked taken }
{
    ReadAnswer {
        said: looked.map_err(ReadFault::Refused),
        taken,
    }
}

// Takes bytes of the chunk behind those of a response's beginning, up to its end.
fn take_on(memory: &mut [u8], chunk: &[u8]) -> ReadAnswer
    requires { Holding memory.old }
    ensures { ReadContract memory.old chunk.now result memory.new × SaidWithin (length memory.new) result.said }
{
    let mut taken: usize = 0;
    loop {
        taken += fill(memory, &chunk[taken..]);
        let looked = look(memory);
        if taken == chunk.len() {
            return answer(looked, taken);
        }
        if !is_waiting(looked) {
            return answer(looked, taken);
        }
    }
}

// A CALL: all that it says and leaves is what the definition gives. A state that has ended takes nothing, and says the same again.
pub fn read(memory: &mut [u8], chunk: &[u8]) -> ReadAnswer
    ensures { ReadContract memory.old chunk.now result memory.new × SaidWithin (length memory.new) result.said }
{
    if !is_well_formed(memory) {
        return ReadAnswer {
            said: Err(ReadFault::IllFormed),
            taken: 0,
        };
    }
    let looked = look(memory);
    if is_waiting(looked) {
        return take_on(memory, chunk);
    }
    answer(looked, 0)
}
