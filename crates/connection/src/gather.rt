// The bytes of a request that began in an earlier chunk are gathered in the connection's memory: up to its sixth byte, to its
// header's end, to its own end, and no byte behind it ("When a call is not taken": up to one response).
ghost use Rattle.std.specs.Prelude.{◌≡◌, ◌≤◌, ◌<◌, length};
ghost use Rattle.stream.specs.Frame.{unfinished, next};
ghost use Rattle.connection.specs.Connection.{held_most};
ghost use Rattle.connection.specs.code.Gather.{wanted_of, Holding, held_in, Filled, Gathers};

use crate::BYTES_AT;
use crate::change::append;
use stream::frame::{Frame, read_frame, request_length};
use wire::header::header_length;

// What is gathered: how many bytes of the chunk, and what those held then begin with.
#[derive(Clone, Copy)]
pub struct Gathered {
    pub used: usize,
    pub frame: Frame,
}

// How many bytes of a request must be there before more can be said of it.
fn wanted(bytes: &[u8]) -> usize
    requires { next bytes.now ≡ unfinished }
    ensures { (result ≡ wanted_of bytes.now) × (length bytes.now < result) × (result ≤ held_most) }
{
    if bytes.len() < 6 {
        return 6;
    }
    let header = header_length(bytes);
    if bytes.len() < header {
        return header;
    }
    request_length(bytes) as usize
}

// Takes on as many bytes of the chunk as are wanted or there.
fn fill(memory: &mut [u8], held: usize, chunk: &[u8]) -> usize
    requires { Holding memory.old held }
    ensures { Filled (held_in held memory.old) chunk.now memory.new result }
{
    let end = BYTES_AT + held;
    let want = wanted(&memory[BYTES_AT..end]);
    let k = chunk.len().min(want - held);
    append(memory, held, &chunk[..k]);
    k
}

// Gathers bytes of the chunk behind the `held` bytes of an open connection.
pub fn gather(memory: &mut [u8], held: usize, chunk: &[u8]) -> Gathered
    requires { Holding memory.old held }
    ensures { Gathers (held_in held memory.old) chunk.now memory.new result }
{
    // Kept: a loop, whose cursor goes on by what was taken.
    let mut used = 0;
    loop {
        used += fill(memory, held + used, &chunk[used..]);
        let end = BYTES_AT + held + used;
        let frame = read_frame(&memory[BYTES_AT..end]);
        if used == chunk.len() || !matches!(frame, Frame::Unfinished) {
            return Gathered { used, frame };
        }
    }
}
