// The record that bytes begin with, read where it lies ("Roster, registry, connection, tally").
ghost use Rattle.std.specs.Prelude.{◌≡◌, true, ◌≤◌, length};
ghost use Rattle.records.specs.Records.{record_length, value_in, is_whole};

use wire::number::read_u16;

// The length of the record that bytes begin with.
pub fn record_length(bytes: &[u8]) -> usize
    requires { 3 ≤ length bytes.now }
    ensures { result ≡ record_length bytes.now }
{
    3 + usize::from(read_u16(bytes, 1))
}

// Whether bytes begin with a whole record.
#[tactic(auto, using(crate::proofs::RecordLaws::whole_short, crate::proofs::RecordLaws::whole_tested))]
pub fn is_whole(bytes: &[u8]) -> bool
    ensures { result ≡ is_whole bytes.now }
{
    3 <= bytes.len() && record_length(bytes) <= bytes.len()
}

// The value of the whole record that bytes begin with.
#[tactic(auto, using(crate::proofs::RecordLaws::whole_room))]
pub fn value_in(bytes: &[u8]) -> &[u8]
    requires { is_whole bytes.now ≡ true }
    ensures { result.now ≡ value_in bytes.now }
{
    &bytes[3..record_length(bytes)]
}
