// Rows of bits in words of 64, one row after another: shifted, added, divided, made of bytes and made into bytes.
#![tactic(auto)]

pub mod bytes;
pub mod clear;
pub mod divide;

ghost use Rattle.std.specs.Prelude.{◌≡◌, ℕ, ◌+◌, ◌*◌, ◌%◌, ◌<◌, ◌≤◌, ◌≢◌, length};
ghost use Rattle.bits.specs.Sums.{one_at};
ghost use Rattle.bits.specs.Bits.{bit, bit_at, up};
ghost use Rattle.table.specs.Limits.{max_shift};
ghost use Rattle.rows.specs.Rows.{row_bits, row_in, HasRow, Became, AddedTo, Halved};

use table::Table;

// The words of a row.
pub const ROW_WORDS: usize = Table::LONGEST / 8;

// Adds row b, shifted up by e bits, into row a.
pub fn add_up(rows: &mut [u64], a: usize, b: usize, e: usize)
    requires has_row { HasRow rows.old a }
    requires has_row_2 { HasRow rows.old b }
    requires a_nonzero { a ≢ b }
    requires e_le_max_shift { e ≤ max_shift }
    ensures { AddedTo a (up e (row_in rows.old b)) rows.old rows.new }
{
    if 64 <= e {
        add_next(rows, a, b);
        return;
    }
    add_raised(rows, a, b, e);
}

// Adds row b, shifted up by e bits, less than a word, into row a: what crosses from one word into the next is carried.
fn add_raised(rows: &mut [u64], a: usize, b: usize, e: usize)
    requires has_row { HasRow rows.old a }
    requires has_row_2 { HasRow rows.old b }
    requires a_nonzero { a ≢ b }
    requires e_bound { e < 64 }
    ensures { AddedTo a (up e (row_in rows.old b)) rows.old rows.new }
{
    let mut carry: u64 = 0;
    for c in 0..ROW_WORDS {
        let x = rows[b * ROW_WORDS + c];
        rows[a * ROW_WORDS + c] ^= x << e ^ carry;
        carry = x >> 1 >> (63 - e);
    }
}

// Adds row b, shifted up by a whole word, into row a.
fn add_next(rows: &mut [u64], a: usize, b: usize)
    requires has_row { HasRow rows.old a }
    requires has_row_2 { HasRow rows.old b }
    requires a_nonzero { a ≢ b }
    ensures { AddedTo a (up 64 (row_in rows.old b)) rows.old rows.new }
{
    for c in 1..ROW_WORDS {
        rows[a * ROW_WORDS + c] ^= rows[b * ROW_WORDS + c - 1];
    }
}
