// A signature checked by a public key (RFC 8017, section 8.2.2).
ghost use Rattle.std.specs.Prelude.{◌≡◌, ◌+◌, ◌*◌, ◌^◌, ◌≤◌, ◌<◌, length};
ghost use Rattle.rsa_key.specs.Octets.{os2ip};
ghost use Rattle.rsa.specs.Signature.{report, verified, verification};

use crate::encoding::encode;
use crate::power::power;
use bignum::bytes::read_big_endian;
use bignum::compare::{are_same, is_at_least};
use rsa_key::key::{PublicKey, are_supported_bits, has_bits, read_key};

#[derive(Clone, Copy)]
pub enum Outcome {
    ValidSignature,
    InvalidSignature,
    InvalidKey,
}

// The outcome, and how many modular multiplications the power took: 0 where there was none.
#[derive(Clone, Copy)]
pub struct Verification {
    pub outcome: Outcome,
    pub multiplications: u32,
}

// An outcome with no power.
fn at_once(outcome: Outcome) -> Verification
    ensures { result ≡ report outcome 0 }
{
    Verification {
        outcome,
        multiplications: 0,
    }
}

// The signature against the modulus in these bytes, with room of its own for 4,096 bits.
#[tactic(auto, unfolding(crate::specs::Signature::verified))]
fn check(modulus: &[u8], e: u32, hash: &[u8], signature: &[u8]) -> Verification
    requires { (62 ≤ length modulus.now) × (length modulus.now ≤ 512) × (0 < e) }
    ensures { result ≡ verified (os2ip modulus.now) e (length modulus.now) hash.now signature.now }
{
    let size = modulus.len();
    if hash.len() != 32 || signature.len() != size {
        return at_once(Outcome::InvalidSignature);
    }
    let k = size.div_ceil(8);
    let mut n = [0u64; 64];
    let n = &mut n[..k];
    let mut base = [0u64; 64];
    let base = &mut base[..k];
    read_big_endian(n, modulus);
    read_big_endian(base, signature);
    if is_at_least(base, n) {
        return at_once(Outcome::InvalidSignature);
    }
    let mut acc = [0u64; 64];
    let acc = &mut acc[..k];
    let mut t = [0u64; 128];
    let multiplications = power(acc, base, n, e, &mut t[..2 * k]);
    let mut em = [0u8; 512];
    let em = &mut em[..size];
    encode(em, hash);
    read_big_endian(base, em);
    let outcome = if are_same(acc, base) {
        Outcome::ValidSignature
    } else {
        Outcome::InvalidSignature
    };
    Verification {
        outcome,
        multiplications,
    }
}

// Checks a signature by an RSAPublicKey, whose modulus must have so many bits.
#[tactic(auto, using(crate::proofs::SignatureLaws::to_have_bits), unfolding(crate::specs::Signature::verification, crate::specs::Signature::verified_by))]
pub fn verify(key: &[u8], bits: usize, hash: &[u8], signature: &[u8]) -> Verification
    ensures { result ≡ verification key.now bits hash.now signature.now }
{
    let Some(PublicKey { modulus, exponent }) = read_key(key) else {
        return at_once(Outcome::InvalidKey);
    };
    if !are_supported_bits(bits) || !has_bits(key, modulus, bits) {
        return at_once(Outcome::InvalidKey);
    }
    // In front of the modulus there is a zero byte.
    let start = modulus.start + 1;
    check(&key[start..start + bits / 8], exponent, hash, signature)
}
