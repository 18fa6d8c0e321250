// One pair of the list: a key's name, then its data.
ghost use Rattle.std.specs.Prelude.{◌≡◌};
ghost use Rattle.shipped.specs.code.Pairs.{name_length, data_length, pair_length};

use keys::KEY_NAME_MOST;
use keys::data::is_legal_data;
use keys::names::is_legal;
use records::file::{is_whole, record_length, value_in};

// The length of the record that bytes begin with, where it is a legal name.
fn name_length(bytes: &[u8]) -> Option<usize>
    ensures { result ≡ name_length bytes.now }
{
    if !is_whole(bytes) {
        return None;
    }
    if bytes[0] != 1 {
        return None;
    }
    if !is_legal(value_in(bytes), KEY_NAME_MOST) {
        return None;
    }
    Some(record_length(bytes))
}

// The same of legal data. Only its length is looked at. Kept beside the other: they share two tests, and differ in the tag, in what is
// legal and in what is read of it.
fn data_length(bytes: &[u8]) -> Option<usize>
    ensures { result ≡ data_length bytes.now }
{
    if !is_whole(bytes) {
        return None;
    }
    if bytes[0] != 2 {
        return None;
    }
    let n = record_length(bytes);
    if !is_legal_data(n - 3) {
        return None;
    }
    Some(n)
}

// The length of the pair that bytes begin with.
pub fn pair_length(bytes: &[u8]) -> Option<usize>
    ensures { result ≡ pair_length bytes.now }
{
    let n = name_length(bytes)?;
    let d = data_length(&bytes[n..])?;
    Some(n + d)
}
