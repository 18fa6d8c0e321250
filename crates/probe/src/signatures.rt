// Signatures, checked by an RSAPublicKey.
ghost use Rattle.std.specs.Prelude.{◌≡◌, ◌≤◌};
ghost use Rattle.rsa.specs.Signature.{verification};
ghost use Rattle.probe.specs.code.Numbers.{outcome_number, verification_number};

use rsa::verify::{Outcome, verify};

fn outcome_number(outcome: Outcome) -> u64
    ensures { (result ≡ outcome_number outcome) × (result ≤ 2) }
{
    match outcome {
        Outcome::ValidSignature => 0,
        Outcome::InvalidSignature => 1,
        Outcome::InvalidKey => 2,
    }
}

// The outcome's number, 0 for a valid signature, 1 for an invalid one and 2 for an invalid key; and four for each modular multiplication.
#[unsafe(no_mangle)]
pub extern "C" fn razidkot_probe_verify(
    key: &[u8],
    bits: usize,
    hash: &[u8],
    signature: &[u8],
) -> u64
    ensures { result ≡ verification_number (verification key.now bits hash.now signature.now) }
{
    let checked = verify(key, bits, hash, signature);
    let outcome = checked.outcome;
    outcome_number(outcome) + 4 * (checked.multiplications as u64)
}
