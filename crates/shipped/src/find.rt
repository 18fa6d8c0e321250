// The search for a key in the list, by name ("Keys we ship").
ghost use Rattle.std.specs.Prelude.{◌≡◌, true};
ghost use Rattle.shipped.specs.Shipped.{well_formed_list};
ghost use Rattle.shipped.specs.code.Pairs.{Finds};

use records::file::{record_length, value_in};
use wire::bytes::equal;
use wire::span::Span;

// Where the data of the key with the name lies.
pub fn find_listed(list: &[u8], name: &[u8]) -> Option<Span>
    requires { well_formed_list list.now ≡ true }
    ensures { Finds list.now name.now result }
{
    let mut at = 0;
    while at < list.len() {
        let bytes = &list[at..];
        let n = record_length(bytes);
        let start = at + n + 3;
        let len = record_length(&bytes[n..]) - 3;
        if equal(name, value_in(bytes)) {
            return Some(Span { start, len });
        }
        at = start + len;
    }
    None
}
