// Which lengths a key may have, in bits.
ghost use Rattle.std.specs.Prelude.{◌≡◌};
ghost use Rattle.keys.specs.Key.{legal_bits, import_bits};

use crate::{BITS_LEAST, BITS_MOST};

// Whether a key in a registry, or in a record of the journal, may have this many bits.
#[tactic(auto, unfolding(crate::specs::Key::legal_bits))]
pub fn are_legal_bits(bits: usize) -> bool
    ensures { result ≡ legal_bits bits }
{
    (BITS_LEAST..=BITS_MOST).contains(&bits) && bits % 8 == 0
}

// Whether Import takes a key of this many bits, and verify checks a signature by one (document 02, "No more odd key lengths").
#[tactic(auto, unfolding(crate::specs::Key::import_bits, wire::specs::Lists::one_of))]
pub fn are_import_bits(bits: usize) -> bool
    ensures { result ≡ import_bits bits }
{
    matches!(bits, 2048 | 3072 | 4096)
}
