// Files opened, and read in constant memory, for programs. The one library that opens files: its contracts of files and arguments
// rest on std's, which say of what the system gives no more than how many bytes.
#![tactic(auto)]

ghost use Rattle.std.specs.Prelude.{◌≡◌, length};
ghost use Rattle.registry.specs.Registry.{registry_size};
ghost use Rattle.starting.specs.code.Sources.{RosterRead, ListRead};
ghost use Rattle.starting.specs.code.Stream.{ReadWithin, KeptWithin};
ghost use Rattle.file_input.specs.Argument.{argument_file};

use starting::files::{Input, TURNS, front_of, input_of, is_end};
use starting::memory::roster_front;
use starting::start::{StartRefusal, load_front};
use std::fs::File;
use std::io::Read;
use std::rt::{Env, Files};

// Room for a path, and for what a call writes: a response, and a record of the journal.
pub const BUFFER_SIZE: usize = 4096;

// So many bytes of a stream are read at once.
pub const CHUNK_SIZE: usize = 65536;

// A path that is no text in UTF-8 can't be opened.
pub fn open_argument(rt: &(impl Env + Files<File = File>), number: usize) -> Option<File> {
    let mut path = [0; BUFFER_SIZE];
    let size = rt.arg(number, &mut path).ok()?;
    let name = str::from_utf8(&path[..size]).ok()?;
    File::open(rt, name).ok()
}

// Reads once. No signal is handled here, so that no read is interrupted.
pub fn read_some(file: &mut File, buffer: &mut [u8]) -> Input
    ensures { ReadWithin (length buffer.old) result }
{
    match file.read(buffer) {
        Ok(size) => input_of(size as isize, buffer),
        Err(_) => Input::Failed,
    }
}

// Reads what is left of a file, and says whether it could be read to its end.
pub fn read_rest(file: &mut File) -> bool {
    let mut buffer = [0; CHUNK_SIZE];
    for _ in 0..TURNS {
        let input = read_some(file, &mut buffer);
        let Input::Bytes(_) = input else {
            return is_end(input);
        };
    }
    false
}

// Reads a file to its end, and keeps as many of its first bytes as there is room for.
pub fn read_front(file: &mut File, front: &mut [u8]) -> Option<usize>
    ensures { KeptWithin (length front.old) result }
{
    let mut size = 0;
    while size < front.len() {
        let input = read_some(file, &mut front[size..]);
        let Input::Bytes(more) = input else {
            return front_of(size, is_end(input));
        };
        size += more;
    }
    front_of(size, read_rest(file))
}

// Reads a roster file into memory lent for the registry.
pub fn read_roster(roster: Option<File>, registry: &mut [u8]) -> Result<(), StartRefusal>
    requires { length registry.old ≡ registry_size }
    ensures { RosterRead (argument_file roster) registry.new result }
{
    let Some(mut file) = roster else {
        return Err(StartRefusal::Unreadable);
    };
    let mut front = roster_front();
    let read = read_front(&mut file, &mut front);
    load_front(&front, read, registry)
}

// Reads a list of keys: so many of its bytes are kept as decide whether it is good.
#[tactic(auto, unfolding(crate::specs::Argument::argument_file, starting::specs::code::Sources::ListRead))]
pub fn read_list(list: Option<File>, front: &mut [u8]) -> Option<usize>
    ensures { ListRead (argument_file list) (length front.old) result }
{
    let mut file = list?;
    read_front(&mut file, front)
}
