// Fields written over the front of a lent buffer ("Operations and their fields").
ghost use Rattle.std.specs.Prelude.{◌≡◌, List, ℕ, ◌+◌, ◌^◌, ◌<◌, ◌≤◌, length};
ghost use Rattle.wire.specs.code.Wrote.{Wrote};
ghost use Rattle.protobuf.specs.Written.{varint, number_field, bytes_field};

use wire::bytes::copy_into;

// How many bytes the shortest varint of a number takes. Kept: this loop and the next end by what is left of the number, and go
// over no range.
#[tactic(auto, using(crate::proofs::WrittenLaws::counts))]
fn varint_size(n: u64) -> usize
    ensures { (result ≡ length (varint n)) × (result ≤ 10) }
{
    let mut rest = n;
    let mut k: usize = 0;
    while 127 < rest {
        rest /= 128;
        k += 1;
    }
    k + 1
}

// The shortest varint of a number, at the front of `out`.
#[tactic(auto, using(crate::proofs::WrittenLaws::begun_none))]
pub fn write_varint(out: &mut [u8], n: u64) -> usize
    requires { 10 ≤ length out.old }
    ensures { Wrote (varint n) out.old out.new result }
{
    let mut rest = n;
    let mut k: usize = 0;
    while 127 < rest {
        out[k] = (rest % 128 + 128) as u8;
        rest /= 128;
        k += 1;
    }
    out[k] = rest as u8;
    k + 1
}

// A number's field: wire type 0; 0 is left out. Kept, here and below: that `number` is below 2^29, as a type of its own would ask
// each caller to make one.
#[tactic(auto, using(crate::proofs::WrittenLaws::writes))]
pub fn write_number_field(out: &mut [u8], number: u64, value: u64) -> usize
    requires { (number < 2 ^ 29) × (20 ≤ length out.old) }
    ensures { Wrote (number_field number value) out.old out.new result }
{
    if value == 0 {
        return 0;
    }
    let tag = write_varint(out, 8 * number);
    let size = write_varint(&mut out[tag..], value);
    tag + size
}

// How many bytes a field of `len` bytes takes.
#[tactic(auto, using(crate::proofs::WrittenLaws::writes))]
pub fn bytes_field_size(number: u64, len: usize) -> usize
    requires { (number < 2 ^ 29) × (len < 2 ^ 32) }
    ensures { ((bytes : List ℕ) → length bytes ≡ len → result ≡ length (bytes_field number bytes)) × (result ≤ len + 20) }
{
    if len == 0 {
        return 0;
    }
    let tag = varint_size(8 * number + 2);
    let size = varint_size(len as u64);
    tag + size + len
}

// Bytes as a field: wire type 2; none are left out. They are copied straight to their place.
#[tactic(auto, using(crate::proofs::WrittenLaws::writes))]
pub fn write_bytes_field(out: &mut [u8], number: u64, bytes: &[u8]) -> usize
    requires { (number < 2 ^ 29) × (length bytes.now + 20 ≤ length out.old) }
    ensures { Wrote (bytes_field number bytes.now) out.old out.new result }
{
    if bytes.is_empty() {
        return 0;
    }
    let tag = write_varint(out, 8 * number + 2);
    let size = write_varint(&mut out[tag..], bytes.len() as u64);
    let start = tag + size;
    let copied = copy_into(&mut out[start..], bytes);
    start + copied
}
