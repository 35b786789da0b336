// Text at the front of a lent buffer, one part behind another; numbers as decimal text.
#![tactic(auto)]

ghost use Rattle.std.specs.Prelude.{◌≡◌, [], ◌∷◌, ◌+◌, ◌≤◌, ◌<◌, length, drop};
ghost use Rattle.text.specs.Text.{PutAt};
ghost use Rattle.text.specs.Numerals.{numeral, max_digits};

// As many digits as a number has at most.
const MAX_DIGITS: usize = 20;

// The digits of a number, from start on.
#[derive(Clone, Copy)]
struct Digits {
    start: usize,
    text: [u8; MAX_DIGITS],
}

// Puts text behind what stands before at, and gives the place after it.
pub fn put(out: &mut [u8], at: usize, text: &[u8]) -> usize
    requires { at + length text.now ≤ length out.old }
    ensures { (result ≡ at + length text.now) × PutAt out.old at text.now out.new }
{
    bits::copy_front(&mut out[at..], text);
    at + text.len()
}

// Puts one byte, as put does a text.
pub fn put_byte(out: &mut [u8], at: usize, byte: u8) -> usize
    requires { at < length out.old }
    ensures { (result ≡ at + 1) × PutAt out.old at (byte ∷ []) out.new }
{
    out[at] = byte;
    at + 1
}

// The decimal text of n, from its last digit on.
fn digits_of(n: u64) -> Digits
    ensures { (result.start < max_digits) × (drop result.start result.text ≡ numeral n) }
{
    let mut text = [0u8; MAX_DIGITS];
    let mut start = MAX_DIGITS - 1;
    let mut left = n;
    while 10 <= left {
        text[start] = b'0' + (left % 10) as u8;
        left /= 10;
        start -= 1;
    }
    text[start] = b'0' + left as u8;
    Digits { start, text }
}

// Puts the decimal text of n.
pub fn put_numeral(out: &mut [u8], at: usize, n: u64) -> usize
    requires { at + max_digits ≤ length out.old }
    ensures { (result ≡ at + length (numeral n)) × (result ≤ at + max_digits) × PutAt out.old at (numeral n) out.new }
{
    let d = digits_of(n);
    put(out, at, &d.text[d.start..])
}
