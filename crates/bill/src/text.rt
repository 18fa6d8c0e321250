// What is printed: the bill, or the one line that stands for it.
ghost use Rattle.std.specs.Prelude.{◌≡◌, ◌≤◌, length};
ghost use Rattle.wire.specs.code.Wrote.{Wrote};
ghost use Rattle.connection.specs.Connection.{connection_size};
ghost use Rattle.service.specs.Contract.{lent_memory};
ghost use Rattle.billing.specs.Outcome.{bill_most};
ghost use Rattle.starting.specs.Start.{with_file};
ghost use Rattle.starting.specs.code.Sources.{Ready, StreamRead, Billable};
ghost use Rattle.file_input.specs.Argument.{argument_file};
ghost use Rattle.bill.specs.Prints.{printed, Prints};

use crate::feed::take_stream;
use file_input::{read_list, read_rest, read_roster};
use starting::feed::{Taken, uncounted};
use starting::memory::{connection_memory, list_front, registry_memory};
use starting::start::{StartRefusal, with_file, with_list};
use starting::text::{write_line, write_memory, write_no_file};
use std::fs::File;

// The text for what became of the files.
fn write_outcome(
    out: &mut [u8],
    source: Result<(), StartRefusal>,
    taken: Taken,
    registry: &[u8],
    connection: &[u8],
) -> usize
    requires { (bill_most ≤ length out.old) × Billable (with_file source taken.is_whole) (lent_memory connection.now registry.now taken.counters) }
    ensures { Wrote (printed (with_file source taken.is_whole) (lent_memory connection.now registry.now taken.counters)) out.old out.new result }
{
    let outcome = with_file(source, taken.is_whole);
    if outcome.is_err() {
        return write_line(out, outcome);
    }
    write_memory(out, taken.counters, registry, connection)
}

// Reads a stream: through the call where roster and list are good; else only to its end, for an unreadable stream comes before a
// faulty roster and a bad list.
fn read_stream(
    stream: Option<File>,
    source: Result<(), StartRefusal>,
    connection: &mut [u8],
    registry: &mut [u8],
    list: &[u8],
) -> Taken
    requires { (length connection.old ≡ connection_size) × Ready registry.old list.now source }
    ensures { StreamRead (argument_file stream) source registry.old list.now result.is_whole (lent_memory connection.new registry.new result.counters) }
{
    let Some(mut file) = stream else {
        return uncounted(false);
    };
    match source {
        Ok(()) => take_stream(&mut file, connection, registry, list),
        Err(StartRefusal::Unreadable) => uncounted(false),
        Err(_) => uncounted(read_rest(&mut file)),
    }
}

// The text for three files.
pub fn write_text(
    out: &mut [u8],
    roster: Option<File>,
    stream: Option<File>,
    list: Option<File>,
) -> usize
    requires { bill_most ≤ length out.old }
    ensures { Prints (argument_file roster) (argument_file stream) (argument_file list) out.new result }
{
    let mut registry = registry_memory();
    let mut connection = connection_memory();
    let mut front = list_front();
    let source = read_roster(roster, &mut registry);
    let read = read_list(list, &mut front);
    let Some(size) = read else {
        return write_no_file(out);
    };
    let keys = &front[..size];
    let start = with_list(source, keys);
    let taken = read_stream(stream, start, &mut connection, &mut registry, keys);
    write_outcome(out, start, taken, &registry, &connection)
}
