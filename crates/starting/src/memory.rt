// A program's memory, all zero. Each contract gives the length alone, which lending an array as a slice needs.
ghost use Rattle.std.specs.Prelude.{◌≡◌, length};
ghost use Rattle.connection.specs.Connection.{connection_size};
ghost use Rattle.registry.specs.Registry.{registry_size};
ghost use Rattle.billing.specs.Outcome.{bill_most};
ghost use Rattle.starting.specs.code.Front.{front_most, list_front_most};

use billing::BILL_MOST;
use connection::CONNECTION_SIZE;
use keys::{APPLICATION_NAME_MOST, DATA_MOST, KEY_NAME_MOST};
use registry::{LINES, REGISTRY_SIZE};
use shipped::LISTED_MOST;

// The longest good record of a roster file: tag, length and name.
const GOOD_RECORD_MOST: usize = 3 + APPLICATION_NAME_MOST;

// The longest record of all, by the 2 bytes of its length.
const RECORD_MOST: usize = 3 + 65535;

// Room for all of a roster file that decides whether it is good, and how: a good record for each line, and then one that is
// faulty. What is behind that of a longer file can't matter: `front-decides` in proofs/FrontLaws.antt.
pub const ROSTER_MOST: usize = LINES * GOOD_RECORD_MOST + RECORD_MOST;

pub fn roster_front() -> [u8; ROSTER_MOST]
    ensures { front_most ≡ length result }
{
    [0; ROSTER_MOST]
}

// The longest good list: as many pairs as it may have, each a record with a name and one with data.
const LIST_MOST: usize = LISTED_MOST * (3 + KEY_NAME_MOST + 3 + DATA_MOST);

// Room for a good list and one byte more, with which a list is bad whatever follows: `list-front-decides` in
// proofs/FrontLaws.antt.
pub const LIST_FRONT_MOST: usize = LIST_MOST + 1;

pub fn list_front() -> [u8; LIST_FRONT_MOST]
    ensures { list_front_most ≡ length result }
{
    [0; LIST_FRONT_MOST]
}

pub fn registry_memory() -> [u8; REGISTRY_SIZE]
    ensures { registry_size ≡ length result }
{
    [0; REGISTRY_SIZE]
}

pub fn connection_memory() -> [u8; CONNECTION_SIZE]
    ensures { connection_size ≡ length result }
{
    [0; CONNECTION_SIZE]
}

pub fn bill_buffer() -> [u8; BILL_MOST]
    ensures { bill_most ≡ length result }
{
    [0; BILL_MOST]
}
