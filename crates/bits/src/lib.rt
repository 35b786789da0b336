// Bytes as bits: read one, turn one over, copy, compare, clear, nothing set above, the XOR of all.
#![tactic(auto)]

ghost use Rattle.std.specs.Prelude.{◌≡◌, ◌++◌, ℕ, ◌+◌, ◌*◌, ◌%◌, ◌<◌, ◌≤◌, length, drop, replicate};
ghost use Rattle.bits.specs.Sums.{one_at};
ghost use Rattle.bits.specs.Bits.{bit_at, Bytes, ClearFrom, Tells, xor_of};

// Bit p of s, 0 or 1.
pub fn bit_of(s: &[u8], p: usize) -> u8
    requires { p < 8 * length s.now }
    ensures { result ≡ bit_at s.now p }
{
    s[p / 8] >> (p % 8) & 1
}

// Turns bit p of s over if v is 1, and leaves it if v is 0.
pub fn flip(s: &mut [u8], p: usize, v: u8)
    requires { (p < 8 * length s.old) × (v < 2) }
    ensures { (q : ℕ) → bit_at s.new q ≡ (bit_at s.old q + v * one_at p q) % 2 }
{
    s[p / 8] ^= v << (p % 8);
}

// Copies src to the front of dst, and leaves the rest of dst.
pub fn copy_front(dst: &mut [u8], src: &[u8])
    requires { length src.now ≤ length dst.old }
    ensures { dst.new ≡ src.now ++ drop (length src.now) dst.old }
{
    for i in 0..src.len() {
        dst[i] = src[i];
    }
}

// Whether a and b hold the same bytes.
pub fn same(a: &[u8], b: &[u8]) -> bool
    ensures { Tells result (a.now ≡ b.now) }
{
    a == b
}

// Makes every byte of s 0.
pub fn clear(s: &mut [u8])
    ensures { s.new ≡ replicate (length s.old) 0 }
{
    s.fill(0);
}

// Whether no bit of s at n or above is set.
pub fn clear_above(s: &[u8], n: usize) -> bool
    ensures { Tells result (ClearFrom s.now n) }
{
    let b = n / 8;
    if b < s.len() {
        if s[b] >> (n % 8) != 0 {
            return false;
        }
    }
    for i in b + 1..s.len() {
        if s[i] != 0 {
            return false;
        }
    }
    true
}

// The XOR of all bytes of s.
pub fn xor_all(s: &[u8]) -> u8
    ensures { result ≡ xor_of s.now }
{
    let mut x = 0;
    for y in s {
        x ^= *y;
    }
    x
}

// No code: what is lent are bytes.
pub fn known(s: &[u8])
    ensures { Bytes s.now }
{}
