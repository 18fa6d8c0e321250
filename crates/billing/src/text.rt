// Words and numbers, written into a lent buffer from `at` on; each writer says where its text ends.
ghost use Rattle.std.specs.Prelude.{◌∷◌, ◌+◌, ◌≤◌, length};
ghost use Rattle.billing.specs.Bill.{decimal};
ghost use Rattle.billing.specs.Outcome.{digits_most};
ghost use Rattle.billing.specs.code.Text.{Placed};

use wire::bytes::copy_into;

pub fn write_word(out: &mut [u8], at: usize, word: &[u8]) -> usize
    requires { at + length word.now ≤ length out.old }
    ensures { Placed word.now out.old out.new at result }
{
    let copied = copy_into(&mut out[at..], word);
    at + copied
}

// A number of 64 bits has at most so many digits.
pub const DIGITS_MOST: usize = 20;

// A number in decimal digits, which are found from the last one on.
pub fn write_decimal(out: &mut [u8], at: usize, n: u64) -> usize
    requires { at + digits_most ≤ length out.old }
    ensures { Placed (decimal n) out.old out.new at result × (result ≤ at + digits_most) }
{
    let mut digits = [0u8; DIGITS_MOST];
    let mut from = DIGITS_MOST;
    let mut rest = n;
    while 9 < rest {
        from -= 1;
        digits[from] = (0x30 + rest % 10) as u8;
        rest = rest / 10;
    }
    from -= 1;
    digits[from] = (0x30 + rest) as u8;
    write_word(out, at, &digits[from..])
}

// A space, and behind it a number.
pub fn write_number(out: &mut [u8], at: usize, n: u64) -> usize
    requires { at + (1 + digits_most) ≤ length out.old }
    ensures { Placed (0x20 ∷ decimal n) out.old out.new at result × (result ≤ at + (1 + digits_most)) }
{
    let end = write_word(out, at, b" ");
    write_decimal(out, end, n)
}
