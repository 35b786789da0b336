// A row divided: by z ^ e, which is shifting it down, and by 1 + z ^ d. Bits are a polynomial in z.
ghost use Rattle.std.specs.Prelude.{◌≡◌, ℕ, ◌+◌, ◌*◌, ◌%◌, ◌^◌, ◌<◌, ◌≤◌, List, length};
ghost use Rattle.table.specs.Limits.{max_shift};
ghost use Rattle.rows.specs.Rows.{row_in, HasRow, Became, Halved, Divided};
ghost use Rattle.rows.specs.Words.{Twice, EachWord};

use crate::ROW_WORDS;

// Divides row a by z ^ e + z ^ (e + d).
pub fn divide(rows: &mut [u64], a: usize, e: usize, d: usize)
    requires has_row { HasRow rows.old a }
    requires e_le_max_shift { e ≤ max_shift }
    requires le_d { (1 ≤ d) × (d ≤ max_shift) }
    ensures { Divided a e d rows.old rows.new }
{
    halve(rows, a, d);
    lower(rows, a, e);
}

// Shifts row a down by e bits.
pub fn lower(rows: &mut [u64], a: usize, e: usize)
    requires has_row { HasRow rows.old a }
    requires e_le_max_shift { e ≤ max_shift }
    ensures { Became a (λ p. row_in rows.old a (e + p)) rows.old rows.new }
{
    if e == 0 {
        return;
    }
    let last = ROW_WORDS - 1;
    for c in 0..last {
        rows[a * ROW_WORDS + c] = rows[a * ROW_WORDS + c] >> 1 >> (e - 1)
            ^ rows[a * ROW_WORDS + c + 1] << (64 - e);
    }
    rows[a * ROW_WORDS + last] = rows[a * ROW_WORDS + last] >> 1 >> (e - 1);
}

// Divides row a by 1 + z ^ d: each word by itself, then what each sends on into the next.
pub fn halve(rows: &mut [u64], a: usize, d: usize)
    requires has_row { HasRow rows.old a }
    requires le_d { (1 ≤ d) × (d ≤ max_shift) }
    ensures { Halved a d rows.old rows.new }
{
    halve_words(rows, a, d);
    carry_on(rows, a, d, halve_word(1, d));
}

// Divides each word of row a by 1 + z ^ d, by itself: multiplies it by 1 + z ^ d, 1 + z ^ 2d, 1 + z ^ 4d and so on, as far as a word goes.
fn halve_words(rows: &mut [u64], a: usize, d: usize)
    requires has_row { HasRow rows.old a }
    requires le_d { 1 ≤ d }
    ensures { EachWord a (Twice d) rows.old rows.new }
{
    let mut shift = d;
    while shift < 64 {
        double_words(rows, a, shift);
        shift += shift;
    }
}

// Multiplies each word of row a by 1 + z ^ e.
fn double_words(rows: &mut [u64], a: usize, e: usize)
    requires has_row { HasRow rows.old a }
    requires e_bound { e < 64 }
    ensures { EachWord a (λ x r. Twice e r x) rows.old rows.new }
{
    for c in 0..ROW_WORDS {
        rows[a * ROW_WORDS + c] ^= rows[a * ROW_WORDS + c] << e;
    }
}

// The word x divided by 1 + z ^ d.
fn halve_word(x: u64, d: usize) -> u64
    requires { 1 ≤ d }
    ensures { Twice d x result }
{
    let mut r = x;
    let mut e = d;
    while e < 64 {
        r ^= r << e;
        e += e;
    }
    r
}

// Ends the division of row a by 1 + z ^ d, once each word is divided by itself. The highest d bits of a word recur every d bits in the next: they are multiplied by the comb, 1 divided as a word.
fn carry_on(rows: &mut [u64], a: usize, d: usize, comb: u64)
    requires has_row { HasRow rows.old a }
    requires le_d { (1 ≤ d) × (d ≤ max_shift) }
    requires twice { Twice d 1 comb }
    ensures { (before : List ℕ) → EachWord a (Twice d) before rows.old → Halved a d before rows.new }
{
    let mut carry: u64 = 0;
    for c in 0..ROW_WORDS {
        let x = rows[a * ROW_WORDS + c] ^ times(carry, comb);
        rows[a * ROW_WORDS + c] = x;
        carry = x >> (64 - d);
    }
}

// What the second half of a word counts.
const HALF: u64 = 1 << 32;

// The lowest 64 bits of x times y, by halves, whose products fit a word. The compiler makes one multiplication of it.
fn times(x: u64, y: u64) -> u64
    ensures { result ≡ x * y % 2 ^ 64 }
{
    let cross = std::num::wrapping_add_u64(x % HALF * (y / HALF), x / HALF * (y % HALF));
    std::num::wrapping_add_u64(x % HALF * (y % HALF), cross << 32)
}
