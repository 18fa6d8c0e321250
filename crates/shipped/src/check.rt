// Whether a list of keys is a good one ("Keys we ship", C6).
ghost use Rattle.std.specs.Prelude.{◌≡◌, true, not, ◌≤◌, length, take};
ghost use Rattle.keys.specs.Names.{is_new};
ghost use Rattle.shipped.specs.Shipped.{well_formed_list, keys_in, names_of};
ghost use Rattle.shipped.specs.code.Marks.{mark_of, Marked};

use crate::LISTED_MOST;
use crate::find::find_listed;
use crate::marks::mark_of;
use crate::pairs::pair_length;
use keys::marks::is_among;
use records::file::value_in;

// Whether one of the keys before `at`, whose marks are the first of `marks`, has the name. Only where its mark is among them are
// names compared.
fn is_repeated(list: &[u8], at: usize, marks: &[u32], name: &[u8], mark: u32) -> bool
    requires { (at ≤ length list.now) × (well_formed_list (take at list.now) ≡ true) × Marked (keys_in (take at list.now)) marks.now × (mark ≡ mark_of name.now) }
    ensures { result ≡ not (is_new name.now (names_of (keys_in (take at list.now)))) }
{
    is_among(marks, mark) && find_listed(&list[..at], name).is_some()
}

// Whether a list is pairs, at most as many as it may have, and no name stands twice. The marks are kept in an array with their
// count beside it: memory is fixed, and a mark is looked for among all places at once.
fn are_pairs(list: &[u8]) -> bool
    ensures { result ≡ well_formed_list list.now }
{
    let mut marks = [0; LISTED_MOST];
    let mut count = 0;
    let mut at = 0;
    while at < list.len() {
        let Some(n) = pair_length(&list[at..]) else {
            return false;
        };
        if LISTED_MOST <= count {
            return false;
        }
        let name = value_in(&list[at..]);
        let mark = mark_of(name);
        if is_repeated(list, at, &marks, name, mark) {
            return false;
        }
        marks[count] = mark;
        count += 1;
        at += n;
    }
    true
}

// Whether a list is well formed. The empty one is, and costs one comparison.
pub fn is_well_formed(list: &[u8]) -> bool
    ensures { result ≡ well_formed_list list.now }
{
    list.is_empty() || are_pairs(list)
}
