// RSAPublicKey (RFC 8017, appendix A.1.1), read where it lies.
ghost use Rattle.std.specs.Prelude.{◌≡◌, true, ◌+◌, ◌%◌, ◌≤◌, ◌<◌, length};
ghost use Rattle.rsa_key.specs.Key.{element_at, unsigned, number_in, is_modulus, with_exponent, with_modulus, public_key, supported_bits, has_bits, bit_count, modulus_bits};

use crate::der::{INTEGER, SEQUENCE, byte_at, is_unsigned, read_element};
use wire::span::Span;

pub const BITS_LEAST: usize = 1024;

pub const BITS_MOST: usize = 4096;

// Where the modulus's contents stand, and the exponent.
#[derive(Clone, Copy)]
pub struct PublicKey {
    pub modulus: Span,
    pub exponent: u32,
}

// The number in at most five bytes.
fn read_short(s: &[u8], contents: Span) -> u64
    requires { (contents.start + contents.len ≤ length s.now) × (contents.len ≤ 5) }
    ensures { result ≡ number_in s.now contents.start contents.len }
{
    let mut x = 0;
    for b in &s[contents.start..contents.start + contents.len] {
        x = 256 * x + u64::from(*b);
    }
    x
}

#[tactic(auto, using(crate::proofs::ElementLaws::element_bound, crate::proofs::IntegerLaws::long_is_large), unfolding(crate::specs::Key::with_exponent, crate::specs::Key::is_exponent))]
fn read_exponent(s: &[u8], modulus: Span, at: usize) -> Option<PublicKey>
    requires { (at < 65540) × (length s.now < 65540) }
    ensures { result ≡ with_exponent s.now modulus (element_at s.now 2 at) }
{
    let contents = read_element(s, INTEGER, at)?;
    if contents.start + contents.len != s.len() || !is_unsigned(s, contents) || 5 < contents.len {
        return None;
    }
    let exponent = u32::try_from(read_short(s, contents)).ok()?;
    if exponent < 3 || exponent % 2 != 1 {
        return None;
    }
    Some(PublicKey { modulus, exponent })
}

#[tactic(auto, using(crate::proofs::IntegerLaws::odd_by_last, crate::proofs::IntegerLaws::some), unfolding(crate::specs::Key::is_modulus))]
fn is_modulus(s: &[u8], contents: Span) -> bool
    requires { (contents.start + contents.len ≤ length s.now) × (length s.now < 65540) }
    ensures { result ≡ is_modulus s.now contents.start contents.len }
{
    is_unsigned(s, contents) && byte_at(s, contents.start + contents.len - 1) % 2 == 1
}

#[tactic(auto, using(crate::proofs::ElementLaws::element_bound), unfolding(crate::specs::Key::with_modulus))]
fn read_modulus(s: &[u8], at: usize) -> Option<PublicKey>
    requires { (at < 65540) × (length s.now < 65540) }
    ensures { result ≡ with_modulus s.now (element_at s.now 2 at) }
{
    let modulus = read_element(s, INTEGER, at)?;
    if !is_modulus(s, modulus) {
        return None;
    }
    read_exponent(s, modulus, modulus.start + modulus.len)
}

#[tactic(auto, using(crate::proofs::ElementLaws::element_bound), unfolding(crate::specs::Key::public_key, crate::specs::Key::in_sequence))]
pub fn read_key(s: &[u8]) -> Option<PublicKey>
    ensures { result ≡ public_key s.now }
{
    let sequence = read_element(s, SEQUENCE, 0)?;
    if sequence.start + sequence.len != s.len() {
        return None;
    }
    read_modulus(s, sequence.start)
}

#[tactic(auto, unfolding(crate::specs::Key::supported_bits))]
pub fn are_supported_bits(bits: usize) -> bool
    ensures { result ≡ supported_bits bits }
{
    (BITS_LEAST..=BITS_MOST).contains(&bits) && bits % 8 == 0
}

// Whether a number has exactly so many bits: where its top bit is set, DER puts a zero byte in front.
#[tactic(auto, using(crate::proofs::IntegerLaws::bits_by_bytes))]
pub fn has_bits(s: &[u8], contents: Span, bits: usize) -> bool
    requires { (contents.start + contents.len ≤ length s.now) × (unsigned s.now contents.start contents.len ≡ true) × (bits % 8 ≡ 0) × (8 ≤ bits) }
    ensures { result ≡ has_bits (number_in s.now contents.start contents.len) bits }
{
    contents.len == bits / 8 + 1 && byte_at(s, contents.start) == 0
}

// How many bits a byte has.
#[tactic(auto, using(crate::proofs::BitLaws::by_leading))]
fn byte_bits(x: u8) -> usize
    ensures { (result ≡ bit_count 8 x) × (result ≤ 8) }
{
    (8 - x.leading_zeros()) as usize
}

// How many bits the modulus of a key has; 0 where there is no key. A zero byte in front has none, and the byte behind it has eight.
#[tactic(auto, using(crate::proofs::KeyLaws::key_sized, crate::proofs::KeyLaws::bits_of_key), unfolding(crate::specs::Key::modulus_bits, crate::specs::Key::bits_in))]
pub fn modulus_bits(key: &[u8]) -> usize
    ensures { result ≡ modulus_bits key.now }
{
    let Some(read) = read_key(key) else {
        return 0;
    };
    let Span { start, len } = read.modulus;
    8 * (len - 1) + byte_bits(key[start])
}
