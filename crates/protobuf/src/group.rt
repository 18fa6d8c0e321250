// Groups skipped where they lie, each byte of them read once (document 02, "Unlisted fields").
ghost use Rattle.std.specs.Prelude.{◌≡◌, true, ◌+◌, ◌<◌, length, Some};
ghost use Rattle.protobuf.specs.Field.{field_at};
ghost use Rattle.protobuf.specs.Group.{depth_most, group_at};
ghost use Rattle.protobuf.specs.declared.field.Field.TheVariants.{GroupEnd};

use crate::field::{Field, read_field};

const DEPTH_MOST: u64 = 16;

// Whether the end of the group `number` stands at `at`, its tag one byte: most ends are so. `false` decides nothing: the field is
// read then.
#[tactic(auto, using(crate::proofs::GroupLaws::short_end))]
fn is_end(body: &[u8], number: u64, at: usize) -> bool
    requires { at < length body.now }
    ensures { result ≡ true → field_at body.now at ≡ Some (GroupEnd number (at + 1)) }
{
    let tag = u64::from(body[at]);
    (8..=127).contains(&tag) && tag / 8 == number && tag % 8 == 4
}

// The group `number`, whose first field is at `at`; groups may still stand `depth` deep, itself counted.
#[tactic(auto, using(crate::proofs::GroupLaws::skips))]
fn skip_within(body: &[u8], number: u64, at: usize, depth: u64) -> Option<usize>
    ensures { result ≡ group_at depth body.now number at }
{
    if depth == 0 {
        return None;
    }
    let mut p = at;
    while p < body.len() {
        if is_end(body, number, p) {
            return Some(p + 1);
        }
        p = match read_field(body, p)? {
            Field::Number { next, .. } | Field::Span { next, .. } | Field::Fixed { next, .. } =>
                next,
            Field::GroupStart {
                number: inner,
                next,
            } => skip_within(body, inner, next, depth - 1)?,
            Field::GroupEnd {
                number: ended,
                next,
            } => {
                if ended == number {
                    return Some(next);
                }
                return None;
            }
        };
    }
    None
}

// An outermost group.
pub fn skip_group(body: &[u8], number: u64, at: usize) -> Option<usize>
    ensures { result ≡ group_at depth_most body.now number at }
{
    skip_within(body, number, at, DEPTH_MOST)
}
