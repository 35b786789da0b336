// The families of shift tables, and their shifts by their rules. Parity a and source b are counted from 1.
ghost use Rattle.std.specs.Prelude.{◌≡◌, ◌≤◌, ◌<◌};
ghost use Rattle.table.specs.Limits.{max_k, max_m, cells};
ghost use Rattle.table.specs.Family.{house_shift, triangle, bowl, tall_shift, hankel_shift, vandermonde_shift};
ghost use Rattle.table.specs.Families.{family_of, Named};
ghost use Rattle.table.specs.Table.{OfFamily, family_cell};

use crate::{Refusal, Table};

// The families of shift tables, each with its number.
#[derive(Clone, Copy, Debug, PartialEq, Eq)]
pub enum Family {
    // the house family
    House = 1,

    // the Hankel family (Gong and Sung 2017)
    Hankel = 2,

    // the Vandermonde family (Gong and Sung 2017)
    Vandermonde = 3,
}

impl TryFrom<u64> for Family {
    type Error = Refusal;

    ghost try_from_gives = { Named };

    fn try_from(number: u64) -> Result<Self, Refusal> {
        match number {
            1 => Ok(Family::House),
            2 => Ok(Family::Hankel),
            3 => Ok(Family::Vandermonde),
            _ => Err(Refusal::Family),
        }
    }
}

// The house family.
fn house_shift(a: usize, b: usize) -> usize
    requires { (a ≤ max_m) × (1 ≤ b) × (b ≤ max_k) }
    ensures { result ≡ house_shift a b }
{
    a * (b - 1)
}

// Half of n·(n + 1).
fn triangle(n: usize) -> usize
    requires { n < cells }
    ensures { result ≡ triangle n }
{
    n * (n + 1) / 2
}

// Half of t·(t + 1) for t = u − c, which may be below 0.
fn bowl(c: usize, u: usize) -> usize
    requires { (c < cells) × (u < cells) }
    ensures { result ≡ bowl c u }
{
    if c <= u {
        return triangle(u - c);
    }
    triangle(c - u - 1)
}

// The Hankel family for m at least k.
fn tall_shift(k: usize, m: usize, a: usize, b: usize) -> usize
    requires { (k ≤ m) × (m ≤ max_m) × (a ≤ max_m) × (b ≤ max_m) }
    ensures { result ≡ tall_shift k m a b }
{
    bowl(m + 1, (m - k) / 2 + a + b)
}

// The Hankel family: for m below k the table of k and m exchanged, turned over its diagonal.
fn hankel_shift(k: usize, m: usize, a: usize, b: usize) -> usize
    requires { (k ≤ max_k) × (m ≤ max_m) × (a ≤ max_m) × (b ≤ max_k) }
    ensures { result ≡ hankel_shift k m a b }
{
    if k <= m {
        return tall_shift(k, m, a, b);
    }
    tall_shift(m, k, b, a)
}

// The Vandermonde family.
fn vandermonde_shift(a: usize, b: usize) -> usize
    requires { (1 ≤ a) × (a ≤ max_m) × (1 ≤ b) × (b ≤ max_k) }
    ensures { result ≡ vandermonde_shift a b }
{
    (a - 1) * (b - 1)
}

// Cell i of a family's table, laid out eight to a row.
fn cell(k: usize, m: usize, family: Family, i: usize) -> u8
    requires { (k ≤ max_k) × (m ≤ max_m) × (i < cells) }
    ensures { result ≡ family_cell (family_of family) k m i }
{
    let a = i / Table::SOURCES + 1;
    let b = i % Table::SOURCES + 1;
    match family {
        Family::House => house_shift(a, b) as u8,
        Family::Hankel => hankel_shift(k, m, a, b) as u8,
        Family::Vandermonde => vandermonde_shift(a, b) as u8,
    }
}

// The table of a family, filled cell by cell.
pub fn filled(k: u64, m: u64, family: Family) -> Table
    requires { (k ≤ max_k) × (m ≤ max_m) }
    ensures { OfFamily (family_of family) k m result }
{
    let mut shifts = [0u8; Table::CELLS];
    for i in 0..Table::CELLS {
        shifts[i] = cell(k as usize, m as usize, family, i);
    }
    Table {
        k: k as usize,
        m: m as usize,
        shifts,
    }
}
