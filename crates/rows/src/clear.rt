// A row cleared from some bit on.
ghost use Rattle.std.specs.Prelude.{◌≡◌, ℕ, ◌+◌, ◌*◌, ◌<◌, length, if◌then◌else◌, nat_lt};
ghost use Rattle.bits.specs.Bits.{bit};
ghost use Rattle.rows.specs.Rows.{row_in, HasRow, Became};

use crate::ROW_WORDS;

// Clears row a from bit n on.
pub fn clear_from(rows: &mut [u64], a: usize, n: usize)
    requires { HasRow rows.old a }
    ensures { Became a (λ p. (if nat_lt p n then row_in rows.old a p else 0)) rows.old rows.new }
{
    for c in n / 64..ROW_WORDS {
        rows[a * ROW_WORDS + c] = kept(rows[a * ROW_WORDS + c], 64 * c, n);
    }
}

// Of the word x, which stands from bit `from` on, the bits below bit n.
fn kept(x: u64, from: usize, n: usize) -> u64
    requires { n < from + 64 }
    ensures { (t : ℕ) → t < 64 → bit result t ≡ (if nat_lt (from + t) n then bit x t else 0) }
{
    if n <= from {
        return 0;
    }
    x % (1 << (n - from))
}
