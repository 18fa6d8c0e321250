// A connection's memory changed: bytes taken, a request skipped, the connection closed or opened
// ("Roster, registry, connection, tally").
ghost use Rattle.std.specs.Prelude.{◌≡◌, List, [], ◌++◌, ℕ, ◌+◌, ◌≤◌, length};
ghost use Rattle.stream.specs.Rules.{opened, skipping, closed};
ghost use Rattle.connection.specs.Connection.{held_most, connection_size, laid_out, connection_bytes, open_connection};

use crate::{BYTES_AT, CLOSED, CONNECTION_SIZE, NUMBER_AT, SKIPPING};
use wire::bytes::{clear, copy_into};
use wire::number::bytes_of_u64;

// Why memory is not opened.
#[derive(Clone, Copy)]
pub enum OpenRefusal {
    WrongSize,
}

// Kept: here and below a slice with its size in a `requires`, and no array: the caller lends a slice, which the call tests once.

// Writes the number; the kind and the bytes held stay.
fn write_number(memory: &mut [u8], number: u64)
    requires { length memory.old ≡ connection_size }
    ensures { (kind before : ℕ) (held : List ℕ) → memory.old ≡ laid_out kind before held → memory.new ≡ laid_out kind number held }
{
    let bytes = bytes_of_u64(number);
    copy_into(&mut memory[NUMBER_AT..BYTES_AT], &bytes);
}

// Puts the bytes behind the `held` bytes that an open connection holds.
pub fn append(memory: &mut [u8], held: usize, bytes: &[u8])
    requires { (length memory.old ≡ connection_size) × (held + length bytes.now ≤ held_most) }
    ensures { (before : List ℕ) → length before ≡ held → memory.old ≡ connection_bytes (opened before) → memory.new ≡ connection_bytes (opened (before ++ bytes.now)) }
{
    write_number(memory, (held + bytes.len()) as u64);
    let end = BYTES_AT + held;
    copy_into(&mut memory[end..], bytes);
}

// Makes the bytes that are held the header of a request to skip; of one that is skipped, changes how many bytes are to go.
pub fn set_skipping(memory: &mut [u8], to_go: u64)
    requires { length memory.old ≡ connection_size }
    ensures { (kind number : ℕ) (header : List ℕ) → memory.old ≡ laid_out kind number header → memory.new ≡ connection_bytes (skipping header to_go) }
{
    write_number(memory, to_go);
    memory[0] = SKIPPING;
}

// Makes the connection a fresh one.
pub fn reset(memory: &mut [u8])
    requires { length memory.old ≡ connection_size }
    ensures { memory.new ≡ connection_bytes (opened []) }
{
    clear(memory);
}

// Closes the connection; the bytes that it held are gone.
pub fn close(memory: &mut [u8])
    requires { length memory.old ≡ connection_size }
    ensures { memory.new ≡ connection_bytes closed }
{
    clear(memory);
    memory[0] = CLOSED;
}

// Makes memory of the exact size a fresh connection; memory of any other stays as it came.
pub fn open_connection(memory: &mut [u8]) -> Result<(), OpenRefusal>
    ensures { record { answer = result; memory = memory.new } ≡ open_connection memory.old }
{
    if memory.len() != CONNECTION_SIZE {
        return Err(OpenRefusal::WrongSize);
    }
    reset(memory);
    Ok(())
}
