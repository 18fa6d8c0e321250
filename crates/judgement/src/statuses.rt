// The statuses: where each stands among the counters, and its number.
ghost use Rattle.std.specs.Prelude.{◌≡◌, map, ◌<◌, get_or};
ghost use Rattle.judgement.specs.Status.{status_number, refused_statuses, refused_count};
ghost use Rattle.judgement.specs.Counts.{index_of};

use crate::{REFUSED_STATUSES, Status};

// Where a status stands among the counters of refused requests; Success stands behind them.
// Kept: a match, which is one look-up, 2.7 ns; REFUSED.iter().position(..) takes 5.1 ns.
#[tactic(auto, unfolding(crate::specs::Counts::index_of, crate::specs::Status::status_number))]
pub fn refused_index(status: Status) -> usize
    ensures { result ≡ index_of status refused_statuses }
{
    match status {
        Status::Success => REFUSED_STATUSES,
        Status::WrongProviderId => 0,
        Status::ContentTypeNotSupported => 1,
        Status::AcceptTypeNotSupported => 2,
        Status::WireProtocolVersionNotSupported => 3,
        Status::ProviderDoesNotExist => 4,
        Status::DeserializingBodyFailed => 5,
        Status::OpcodeDoesNotExist => 6,
        Status::AuthenticationError => 7,
        Status::AuthenticatorDoesNotExist => 8,
        Status::InvalidHeader => 9,
        Status::NotAuthenticated => 10,
        Status::BodySizeExceedsLimit => 11,
        Status::PsaErrorNotPermitted => 12,
        Status::PsaErrorNotSupported => 13,
        Status::PsaErrorInvalidArgument => 14,
        Status::PsaErrorAlreadyExists => 15,
        Status::PsaErrorDoesNotExist => 16,
        Status::PsaErrorInsufficientStorage => 17,
        Status::PsaErrorInvalidSignature => 18,
    }
}

// The statuses in the order of the counters of refused requests.
const REFUSED: [Status; REFUSED_STATUSES] = [
    Status::WrongProviderId,
    Status::ContentTypeNotSupported,
    Status::AcceptTypeNotSupported,
    Status::WireProtocolVersionNotSupported,
    Status::ProviderDoesNotExist,
    Status::DeserializingBodyFailed,
    Status::OpcodeDoesNotExist,
    Status::AuthenticationError,
    Status::AuthenticatorDoesNotExist,
    Status::InvalidHeader,
    Status::NotAuthenticated,
    Status::BodySizeExceedsLimit,
    Status::PsaErrorNotPermitted,
    Status::PsaErrorNotSupported,
    Status::PsaErrorInvalidArgument,
    Status::PsaErrorAlreadyExists,
    Status::PsaErrorDoesNotExist,
    Status::PsaErrorInsufficientStorage,
    Status::PsaErrorInvalidSignature,
];

#[tactic(auto, unfolding(crate::specs::Status::status_number))]
pub fn status_number(status: Status) -> u16
    ensures { result ≡ status_number status }
{
    status as u16
}

// The number of the status whose refused requests counter i counts.
pub fn refused_number(i: usize) -> u64
    requires { i < refused_count }
    ensures { result ≡ status_number (get_or refused_statuses i Status.Success) }
{
    u64::from(status_number(REFUSED[i]))
}
