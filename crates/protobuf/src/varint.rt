// Varints: seven bits a byte, the lowest first, up to ten bytes ("Operations and their fields").
ghost use Rattle.std.specs.Prelude.{◌≡◌};
ghost use Rattle.protobuf.specs.Varint.{varint_at};

// So many bytes may come before the last of a varint.
const MORE_MOST: u64 = 9;

#[tactic(auto, using(crate::proofs::VarintLaws::sums))]
pub fn read_varint(bytes: &[u8], at: usize) -> Option<(u64, usize)>
    ensures { result ≡ varint_at bytes.now at }
{
    let mut value: u64 = 0;
    let mut scale: u64 = 1;
    let mut next = at;
    for _ in 0..MORE_MOST {
        let b = u64::from(*bytes.get(next)?);
        next += 1;
        if b < 128 {
            return Some((value + b * scale, next));
        }
        value += (b - 128) * scale;
        scale *= 128;
    }
    let b = u64::from(*bytes.get(next)?);
    if 1 < b {
        return None;
    }
    Some((value + b * scale, next + 1))
}
