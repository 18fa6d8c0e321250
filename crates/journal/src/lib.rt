// The journal: records of served imports and destroys (document 02, "Surviving a power cut"), written, and read back.
#![tactic(auto)]

ghost use Rattle.std.specs.Prelude.{◌≡◌};
ghost use Rattle.journal.specs.Replay.{fault_number};

pub mod read;
pub mod record;
mod replay;
pub mod state;
pub mod write;

// What is wrong with a whole record: J1 to J3, first that applies, by their numbers.
#[derive(Clone, Copy)]
pub enum Fault {
    WrongCrc = 1,
    WrongLayout = 2,
    NotAllowed = 3,
}

impl From<Fault> for u8 {
    ghost from_gives = { λ fault n. n ≡ fault_number fault };

    fn from(fault: Fault) -> u8 {
        fault as u8
    }
}

// What is known of a file that is read: the fault's number, 0 for none, the bytes of the whole records, and of the record begun
// how many bytes there are and the CRC's register after them. The fault is kept as its byte: `state::load` says what any memory of
// the size holds, also a byte that is no fault's, and an `Option<Fault>` has no place for that.
#[derive(Clone, Copy)]
pub struct Progress {
    pub fault: u8,
    pub kept: u64,
    pub count: u64,
    pub register: u32,
}
