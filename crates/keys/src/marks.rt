// Numbers of names, their marks: names whose marks differ are not the same, so that most are told apart without a look at
// their bytes.
ghost use Rattle.std.specs.Prelude.{◌≡◌, not, ◌+◌, ◌≤◌, length};
ghost use Rattle.wire.specs.Lists.{all};
ghost use Rattle.keys.specs.code.Marks.{mixed, four_words, differs_from};

use wire::number::read_u32;

// Two numbers as one.
#[tactic(auto, unfolding(crate::specs::code::Marks::mixed))]
pub fn mix(a: u32, b: u32) -> u32
    ensures { result ≡ mixed a b }
{
    a.wrapping_mul(2654435761).wrapping_add(b)
}

// The four bytes at each of four places as one number.
#[tactic(auto, unfolding(crate::specs::code::Marks::four_words))]
pub fn four_words(s: &[u8], a: usize, b: usize, c: usize, d: usize) -> u32
    requires { (a + 4 ≤ length s.now) × (b + 4 ≤ length s.now) × (c + 4 ≤ length s.now) × (d + 4 ≤ length s.now) }
    ensures { result ≡ four_words s.now a b c d }
{
    mix(
        mix(read_u32(s, a), read_u32(s, b)),
        mix(read_u32(s, c), read_u32(s, d)),
    )
}

// Whether a mark is one of these. Kept as a fold: `contains` stays a call that is left early, and a list of 64 keys is checked a
// third more slowly with it.
pub fn is_among(marks: &[u32], mark: u32) -> bool
    ensures { result ≡ not (all (differs_from mark) marks.now) }
{
    !marks
        .iter()
        .fold(true, |apart, other| apart & (*other != mark))
}
