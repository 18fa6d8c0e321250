// A call that is taken, by what its connection is ("A whole stream under the rules", up to one response).
ghost use Rattle.std.specs.Prelude.{◌≡◌, List, [], ℕ};
ghost use Rattle.counters.specs.declared.Counters.{Counters};
ghost use Rattle.connection.specs.Connection.{connection_of};
ghost use Rattle.connection.specs.code.State.{state_of};
ghost use Rattle.stream.specs.Rules.{opened};
ghost use Rattle.service.specs.Contract.{lent_memory};
ghost use Rattle.service.specs.code.Served.{Ready, Carried, effect_of, skip_effect, SkipReady, header_at, unanswered, finished};

use crate::Handled;
use answer::Answered;
use answer::request::{answer_bad_start, answer_skipped, answer_whole};
use connection::BYTES_AT;
use connection::change::{append, close, reset, set_skipping};
use connection::check::{State, read_state};
use connection::gather::gather;
use counters::Increments;
use counters::events::event_of;
use stream::frame::{Frame, read_frame, request_length};

// `taken` bytes bring no response; `dropped` of them came after closing.
fn unanswered(taken: usize, dropped: usize) -> Handled
    ensures { result ≡ unanswered taken dropped }
{
    Handled {
        written: 0,
        recorded: 0,
        added: Increments {
            taken,
            answered: 0,
            dropped,
            event: None,
        },
    }
}

// `n` bytes are taken, the last of them being the last of a request of `size` bytes.
fn finish(n: usize, size: u64, a: Answered) -> Handled
    ensures { result ≡ finished n size a }
{
    Handled {
        written: a.written,
        recorded: a.recorded,
        added: Increments {
            taken: n,
            answered: size,
            dropped: 0,
            event: Some(event_of(a.asker, a.status)),
        },
    }
}

// An oversized request, its header held: `to_go` bytes are missing, and `here` are at hand behind the `used` first of the chunk.
fn skip(connection: &mut [u8], out: &mut [u8], used: usize, here: usize, to_go: u64) -> Handled
    requires { SkipReady connection.old out.old used here to_go }
    ensures { (list registry journal : List ℕ) (c : Counters) → Carried c (skip_effect list registry c (header_at connection.old) used here to_go) connection.new registry out.old out.new journal journal result }
{
    if (here as u64) < to_go {
        set_skipping(connection, to_go - here as u64);
        return unanswered(used + here, 0);
    }
    let size = request_length(&connection[BYTES_AT..]);
    let a = answer_skipped(out, &connection[BYTES_AT..]);
    reset(connection);
    finish(used + to_go as usize, size, a)
}

// A connection that holds nothing: a request that is whole is read where it lies, in the chunk.
fn serve_fresh(
    connection: &mut [u8],
    registry: &mut [u8],
    list: &[u8],
    out: &mut [u8],
    journal: &mut [u8],
    chunk: &[u8],
) -> Handled
    requires { Ready connection.old registry.old list.now chunk.now out.old journal.old × (connection_of connection.old ≡ opened []) }
    ensures { (c : Counters) → Carried c (effect_of list.now (lent_memory connection.old registry.old c) chunk.now) connection.new registry.new out.old out.new journal.old journal.new result }
{
    match read_frame(chunk) {
        Frame::Unfinished => {
            append(connection, 0, chunk);
            unanswered(chunk.len(), 0)
        }
        Frame::BadStart => {
            let a = answer_bad_start(out);
            close(connection);
            finish(6, 6, a)
        }
        Frame::Skipped { header, missing } => {
            append(connection, 0, &chunk[..header]);
            set_skipping(connection, missing);
            unanswered(chunk.len(), 0)
        }
        Frame::Whole(n) => {
            let a = answer_whole(out, journal, &chunk[..n], registry, list);
            finish(n, n as u64, a)
        }
    }
}

// A connection that holds bytes: the request is gathered in the connection's memory.
fn serve_held(
    connection: &mut [u8],
    registry: &mut [u8],
    list: &[u8],
    out: &mut [u8],
    journal: &mut [u8],
    chunk: &[u8],
    held: usize,
) -> Handled
    requires { Ready connection.old registry.old list.now chunk.now out.old journal.old × (state_of (connection_of connection.old) ≡ State.Open held) }
    ensures { (c : Counters) → Carried c (effect_of list.now (lent_memory connection.old registry.old c) chunk.now) connection.new registry.new out.old out.new journal.old journal.new result }
{
    let g = gather(connection, held, chunk);
    match g.frame {
        Frame::Unfinished => unanswered(g.used, 0),
        Frame::BadStart => {
            let a = answer_bad_start(out);
            close(connection);
            finish(g.used, 6, a)
        }
        Frame::Skipped { header: _, missing } => {
            skip(connection, out, g.used, chunk.len() - g.used, missing)
        }
        Frame::Whole(n) => {
            let end = BYTES_AT + n;
            let a = answer_whole(out, journal, &connection[BYTES_AT..end], registry, list);
            reset(connection);
            finish(g.used, n as u64, a)
        }
    }
}

// A call that none of C1 to C4, C6 and C7 refuses. C5 is left to the caller, who counts: no counter is looked at here.
pub fn serve(
    connection: &mut [u8],
    registry: &mut [u8],
    list: &[u8],
    out: &mut [u8],
    journal: &mut [u8],
    chunk: &[u8],
) -> Handled
    requires { Ready connection.old registry.old list.now chunk.now out.old journal.old }
    ensures { (c : Counters) → Carried c (effect_of list.now (lent_memory connection.old registry.old c) chunk.now) connection.new registry.new out.old out.new journal.old journal.new result }
{
    match read_state(connection) {
        State::Open(held) => {
            if held == 0 {
                return serve_fresh(connection, registry, list, out, journal, chunk);
            }
            serve_held(connection, registry, list, out, journal, chunk, held)
        }
        State::Skipping(to_go) => skip(connection, out, 0, chunk.len(), to_go),
        State::Closed => unanswered(chunk.len(), chunk.len()),
    }
}
