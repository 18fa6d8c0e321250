// How one request is judged: the order of tests, and what the seven operations come to ("Order of judgement on one request",
// "Operations and their fields").
#![tactic(auto)]

use lookup::Place;
use messages::ask::KeyPlaces;
use registry::Slot;

pub mod operations;
pub mod order;
pub mod signature;
pub mod statuses;

// A response's status: document 01's table, ascending by number.
#[derive(Clone, Copy, PartialEq, Eq)]
pub enum Status {
    Success = 0,
    WrongProviderId = 1,
    ContentTypeNotSupported = 2,
    AcceptTypeNotSupported = 3,
    WireProtocolVersionNotSupported = 4,
    ProviderDoesNotExist = 6,
    DeserializingBodyFailed = 7,
    OpcodeDoesNotExist = 9,
    AuthenticationError = 11,
    AuthenticatorDoesNotExist = 12,
    InvalidHeader = 17,
    NotAuthenticated = 19,
    BodySizeExceedsLimit = 20,
    PsaErrorNotPermitted = 1133,
    PsaErrorNotSupported = 1134,
    PsaErrorInvalidArgument = 1135,
    PsaErrorAlreadyExists = 1139,
    PsaErrorDoesNotExist = 1140,
    PsaErrorInsufficientStorage = 1142,
    PsaErrorInvalidSignature = 1149,
}

// All statuses but Success; each has a counter of the requests refused with it.
pub const REFUSED_STATUSES: usize = 19;

// What a response's body is. Kept: Nothing and, of Edit, Stays, and no Option around them, since the definitions' own Output and
// Change have these cases, and every match goes over all of them.
#[derive(Clone, Copy)]
pub enum Output {
    Nothing,
    Version,
    Providers,
    Opcodes(u32),
    Data(Place),
    // Where the request's body broke.
    Offset(u32),
}

// What becomes of the asker's slots: the definitions' `Change`, the key itself left in the body.
#[derive(Clone, Copy)]
pub enum Edit {
    Stays,
    Fills(Slot, KeyPlaces),
    Clears(Slot),
    Uses(Slot),
}

// What an operation comes to. Kept: no Result, since a refusal with status 7 has an output too.
#[derive(Clone, Copy)]
pub struct Decision {
    pub status: Status,
    pub output: Output,
    pub edit: Edit,
}
