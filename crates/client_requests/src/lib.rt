// The client's half (document 02): requests written. It depends on no crate of the service.
#![tactic(auto)]

pub mod judge;
pub mod write;

// The format of a request's body and the one that is asked for in the response, by their numbers: 1 and 2.
#[derive(Clone, Copy)]
pub struct Types {
    pub content: u8,
    pub accept: u8,
}

// Who asks, and how: the session, the types, and the application's name; `None` is nobody that is named.
#[derive(Clone, Copy)]
pub struct Client<'a> {
    pub session: u64,
    pub types: Types,
    pub application: Option<&'a [u8]>,
}

// A key to import, its parts as the client has them.
#[derive(Clone, Copy)]
pub struct NewKey<'a> {
    pub name: &'a [u8],
    pub bytes: &'a [u8],
    pub bits: u32,
    pub exported: bool,
    pub verified: bool,
}

// A signature to verify, of a hash and by the key of that name.
#[derive(Clone, Copy)]
pub struct SignedHash<'a> {
    pub name: &'a [u8],
    pub hash: &'a [u8],
    pub signature: &'a [u8],
}

// Why a request is not written; the first that applies, `TypeUnlisted` before all others. Its number is the one that
// C is told.
#[derive(Clone, Copy)]
pub enum WriteRefusal {
    BufferTooSmall = 1,
    ApplicationNameIllegal = 2,
    KeyNameIllegal = 3,
    DataIllegal = 4,
    BitsIllegal = 5,
    HashIllegal = 6,
    BodyTooLong = 7,
    TypeUnlisted = 8,
}
