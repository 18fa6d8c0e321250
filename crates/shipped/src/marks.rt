// The mark of a listed name.
ghost use Rattle.std.specs.Prelude.{◌≡◌};
ghost use Rattle.shipped.specs.code.Marks.{three_bytes, mark_of};

use keys::marks::{four_words, mix};

// The bytes of a name below four.
#[tactic(auto, unfolding(crate::specs::code::Marks::three_bytes))]
fn three_bytes(s: &[u8]) -> u32
    ensures { result ≡ three_bytes s.now }
{
    let n = s.len();
    if n == 0 {
        return 0;
    }
    u32::from(s[0]) + 256 * u32::from(s[n / 2]) + 65536 * u32::from(s[n - 1])
}

// The mark of a name: every byte of one of at most 32 is looked at.
#[tactic(auto, unfolding(crate::specs::code::Marks::mark_of))]
pub fn mark_of(name: &[u8]) -> u32
    ensures { result ≡ mark_of name.now }
{
    let n = name.len();
    if n < 4 {
        return three_bytes(name);
    }
    let last = n - 4;
    if n < 16 {
        let third = (last + 2) / 3;
        return four_words(name, 0, third, last - third, last);
    }
    let front = four_words(name, 0, 4, 8, 12);
    mix(front, four_words(name, n - 16, n - 12, n - 8, last))
}
