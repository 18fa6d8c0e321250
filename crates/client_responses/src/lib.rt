// The client's half (document 02): responses read in chunks. It depends on no crate of the service.
#![tactic(auto)]

pub mod look;
pub mod read;
pub mod state;

// The request that is answered.
#[derive(Clone, Copy)]
pub struct Asked {
    pub opcode: u16,
    pub session: u64,
    pub accept_type: u8,
}

// Why a response is not read; the first that applies. Its number is the one that C is told.
#[derive(Clone, Copy)]
pub enum ReadRefusal {
    WrongMagic = 3,
    WrongHeaderSize = 4,
    WrongVersion = 5,
    WrongContentType = 6,
    NotItsRequests = 7,
    ContentTooLong = 8,
    UnreadableBody = 9,
}

// Why no state is begun; the first that applies. Its number is the one that C is told.
#[derive(Clone, Copy)]
pub enum BeginRefusal {
    WrongSize = 1,
    UnlistedOpcode = 2,
    UnlistedType = 3,
}

// Why a call says nothing of a response: the memory is no state, or the response is not read.
#[derive(Clone, Copy)]
pub enum ReadFault {
    IllFormed,
    Refused(ReadRefusal),
}
