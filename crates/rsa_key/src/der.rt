// Elements in DER (X.690), read where they lie.
ghost use Rattle.std.specs.Prelude.{◌≡◌, ◌<◌, get_or};
ghost use Rattle.rsa_key.specs.Key.{within, element_at, unsigned};

use wire::span::Span;

// Kept as numbers, both tags: a byte of the key, or the 0 behind its end, is compared with them.
pub const INTEGER: usize = 2;

pub const SEQUENCE: usize = 0x30;

// The byte at i, or 0 behind the end.
pub fn byte_at(s: &[u8], i: usize) -> usize
    ensures { (result ≡ get_or s.now i 0) × (result < 256) }
{
    if i < s.len() { usize::from(s[i]) } else { 0 }
}

fn within(s: &[u8], start: usize, len: usize) -> Option<Span>
    requires { (start < 131072) × (len < 65536) }
    ensures { result ≡ within s.now start len }
{
    if start + len <= s.len() {
        Some(Span { start, len })
    } else {
        None
    }
}

// The element with a tag.
#[tactic(auto, unfolding(crate::specs::Key::element_at))]
pub fn read_element(s: &[u8], tag: usize, at: usize) -> Option<Span>
    requires { at < 65540 }
    ensures { result ≡ element_at s.now tag at }
{
    if byte_at(s, at) != tag {
        return None;
    }
    let first = byte_at(s, at + 1);
    let second = byte_at(s, at + 2);
    match first {
        0..0x80 => within(s, at + 2, first),
        0x81 if 128 <= second => within(s, at + 3, second),
        0x82 if second != 0 => within(s, at + 4, 256 * second + byte_at(s, at + 3)),
        _ => None,
    }
}

// Whether contents are an INTEGER that is not negative, in as few bytes as can be.
#[tactic(auto, unfolding(crate::specs::Key::unsigned))]
pub fn is_unsigned(s: &[u8], contents: Span) -> bool
    requires { contents.start < 131072 }
    ensures { result ≡ unsigned s.now contents.start contents.len }
{
    let first = byte_at(s, contents.start);
    let second = byte_at(s, contents.start + 1);
    0 < contents.len && first < 128 && (contents.len == 1 || 0 < first || 128 <= second)
}
