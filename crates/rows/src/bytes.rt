// Rows made of bytes and made into bytes; and one bit of a row, or a whole row, looked at or changed.
ghost use Rattle.std.specs.Prelude.{◌≡◌, ℕ, ◌+◌, ◌*◌, ◌/◌, ◌%◌, ◌^◌, ◌<◌, ◌≤◌, length};
ghost use Rattle.bits.specs.Sums.{one_at};
ghost use Rattle.bits.specs.Bits.{bit, bit_at, up, Tells};
ghost use Rattle.table.specs.Limits.{max_shift, longest};
ghost use Rattle.rows.specs.Rows.{row_bits, row_words, row_in, HasRow, AddedTo, Stored};

use crate::ROW_WORDS;
use table::Table;

// The most whole words that a source has.
const MOST_WORDS: usize = Table::MAX_BYTES / 8;

// Adds src, shifted up by e bits, into row a. The longest sources have a branch of their own: there the compiler knows how many words there are, and writes all of them out.
#[inline(always)]
pub fn add_bytes(rows: &mut [u64], a: usize, src: &[u8], e: usize)
    requires has_row { HasRow rows.old a }
    requires e_le_max_shift { e ≤ max_shift }
    requires e_bound { 8 * length src.now + e ≤ row_bits }
    ensures { AddedTo a (up e (bit_at src.now)) rows.old rows.new }
{
    let whole = src.len() / 8;
    if whole == MOST_WORDS {
        add_words(rows, a, src, e, MOST_WORDS);
        return;
    }
    add_words(rows, a, src, e, whole);
}

// Adds src as it is into row a. Packets that come have this door of their own: with one caller alone the compiler puts `add_bytes` into it, and only then its branches apart.
pub fn load(rows: &mut [u64], a: usize, src: &[u8])
    requires has_row { HasRow rows.old a }
    requires src_bound { 8 * length src.now ≤ row_bits }
    ensures { AddedTo a (bit_at src.now) rows.old rows.new }
{
    add_whole(rows, a, src, 0, src.len() / 8);
}

// Adds src, which has so many whole words, shifted up by e bits, into row a: by whole words where the shift is whole words, else by parts of words.
fn add_words(rows: &mut [u64], a: usize, src: &[u8], e: usize, whole: usize)
    requires has_row { HasRow rows.old a }
    requires e_le_max_shift { e ≤ max_shift }
    requires e_bound { 8 * length src.now + e ≤ row_bits }
    requires whole_value { whole ≡ length src.now / 8 }
    ensures { AddedTo a (up e (bit_at src.now)) rows.old rows.new }
{
    let s = e % 64;
    if s == 0 {
        add_whole(rows, a, src, e / 64, whole);
        return;
    }
    add_crossing(rows, a, src, s, whole);
}

// Adds src, which has so many whole words, into row a from its word `first` on: eight bytes at a time, as one word, then those that are left.
fn add_whole(rows: &mut [u64], a: usize, src: &[u8], first: usize, whole: usize)
    requires has_row { HasRow rows.old a }
    requires first_bound { 8 * length src.now + first * 64 ≤ row_bits }
    requires whole_value { whole ≡ length src.now / 8 }
    ensures { AddedTo a (up (first * 64) (bit_at src.now)) rows.old rows.new }
{
    for c in 0..whole {
        let i = 8 * c;
        rows[a * ROW_WORDS + (first + c)] ^= eight(&src[i..i + 8]);
    }
    if first + whole < ROW_WORDS {
        rows[a * ROW_WORDS + (first + whole)] ^= tail(src, 8 * whole);
    }
}

// Adds src, which has so many whole words, shifted up by s bits, less than a word, into row a: each word with the s bits that cross into it from the word before,
// the bytes that are left in the same way, and last what crosses behind them all.
fn add_crossing(rows: &mut [u64], a: usize, src: &[u8], s: usize, whole: usize)
    requires has_row { HasRow rows.old a }
    requires le_s { (1 ≤ s) × (s < 64) }
    requires s_bound { 8 * length src.now + s ≤ row_bits }
    requires whole_value { whole ≡ length src.now / 8 }
    ensures { AddedTo a (up s (bit_at src.now)) rows.old rows.new }
{
    let mut last: u64 = 0;
    for c in 0..whole {
        let i = 8 * c;
        let x = eight(&src[i..i + 8]);
        rows[a * ROW_WORDS + c] ^= x << s | last >> (64 - s);
        last = x;
    }
    if 8 * whole == src.len() {
        rows[a * ROW_WORDS + whole] ^= last >> (64 - s);
        return;
    }
    let x = tail(src, 8 * whole);
    rows[a * ROW_WORDS + whole] ^= x << s | last >> (64 - s);
    if whole + 1 < ROW_WORDS {
        rows[a * ROW_WORDS + (whole + 1)] ^= x >> (64 - s);
    }
}

// The eight bytes of src as one number, the first the lowest. With its places fixed the compiler makes one load of it, even where the number is used twice.
fn eight(src: &[u8]) -> u64
    requires { length src.now ≡ 8 }
    ensures { (result < 2 ^ 64) × ((t : ℕ) → t < 64 → bit result t ≡ bit_at src.now t) }
{
    u64::from_le_bytes([
        src[0], src[1], src[2], src[3], src[4], src[5], src[6], src[7],
    ])
}

// The bytes of src from byte `from` on, less than eight, as one number, the first the lowest. Byte by byte: a copy of so few takes longer.
fn tail(src: &[u8], from: usize) -> u64
    requires from_in_bounds { from ≤ length src.now }
    requires src_len_bound { length src.now < from + 8 }
    ensures { (result < 2 ^ 64) × ((t : ℕ) → t < 64 → bit result t ≡ bit_at src.now (8 * from + t)) }
{
    let mut x: u64 = 0;
    for i in (from..src.len()).rev() {
        x = x * 256 + u64::from(src[i]);
    }
    x
}

// Puts the first n bytes of row a into dst, from byte `from` on.
pub fn store(rows: &[u64], a: usize, dst: &mut [u8], from: usize, n: usize)
    requires has_row { HasRow rows.now a }
    requires n_le_longest { n ≤ longest }
    requires n_in_bounds { from + n ≤ length dst.old }
    ensures { Stored from n (row_in rows.now a) dst.old dst.new }
{
    let whole = n / 8;
    for c in 0..whole {
        put_word(dst, from + 8 * c, rows[a * ROW_WORDS + c]);
    }
    if whole == ROW_WORDS {
        return;
    }
    put_tail(dst, from + 8 * whole, rows[a * ROW_WORDS + whole], n % 8);
}

// Puts the eight bytes of x, the lowest first, into dst from byte i on. In halves: a slice's copy compares addresses, which a board's compiler refuses,
// and a loop over the eight bytes shifts 64 bits for each, which takes a board long.
fn put_word(dst: &mut [u8], i: usize, x: u64)
    requires { i + 8 ≤ length dst.old }
    ensures { Stored i 8 (bit x) dst.old dst.new }
{
    put_half(dst, i, x);
    put_half(dst, i + 4, x >> 32);
}

// Puts the four low bytes of x, the lowest first, into dst from byte i on. Written out, so that the compiler can make one store of them.
fn put_half(dst: &mut [u8], i: usize, x: u64)
    requires { i + 4 ≤ length dst.old }
    ensures { Stored i 4 (bit x) dst.old dst.new }
{
    dst[i] = (x % 256) as u8;
    dst[i + 1] = (x / 256 % 256) as u8;
    dst[i + 2] = (x / 65536 % 256) as u8;
    dst[i + 3] = (x / 16777216 % 256) as u8;
}

// Puts the n low bytes of x, the lowest first, into dst from byte i on. Byte by byte: a copy of so few takes longer.
fn put_tail(dst: &mut [u8], i: usize, x: u64, n: usize)
    requires n_bound { n < 8 }
    requires n_in_bounds { i + n ≤ length dst.old }
    ensures { Stored i n (bit x) dst.old dst.new }
{
    for j in 0..n {
        dst[i + j] = ((x >> (8 * j)) % 256) as u8;
    }
}

// Bit p of row a, 0 or 1.
pub fn bit_of(rows: &[u64], a: usize, p: usize) -> u8
    requires has_row { HasRow rows.now a }
    requires p_lt_row_bits { p < row_bits }
    ensures { (result ≡ row_in rows.now a p) × (result < 2) }
{
    ((rows[a * ROW_WORDS + p / 64] >> (p % 64)) % 2) as u8
}

// Turns bit p of row a over if v is 1, and leaves it if v is 0.
pub fn flip(rows: &mut [u64], a: usize, p: usize, v: u8)
    requires has_row { HasRow rows.old a }
    requires p_lt_row_bits { p < row_bits }
    requires v_bound { v < 2 }
    ensures { AddedTo a (λ q. v * one_at p q) rows.old rows.new }
{
    rows[a * ROW_WORDS + p / 64] ^= u64::from(v) << (p % 64);
}

// Whether nothing is set in the n rows from row a on.
pub fn clear_rows(rows: &[u64], a: usize, n: usize) -> bool
    requires { (a + n) * row_words ≤ length rows.now }
    ensures { Tells result ((c p : ℕ) → a ≤ c → c < a + n → row_in rows.now c p ≡ 0) }
{
    let end = (a + n) * ROW_WORDS;
    let mut x: u64 = 0;
    for i in a * ROW_WORDS..end {
        x |= rows[i];
    }
    x == 0
}
