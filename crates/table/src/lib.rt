// The shift table and its families, the shape that all calls share, and the list of numbers.
#![tactic(auto)]

mod desks;
mod families;
pub mod packets;
mod refusals;

ghost use Rattle.std.specs.Prelude.{◌≡◌, ◌++◌, length, ℕ, ◌+◌, ◌*◌, ◌/◌, ◌%◌, ◌≤◌, ◌<◌};
ghost use Rattle.bits.specs.Sums.{at};
ghost use Rattle.table.specs.Limits.{Limited, max_k, max_m, max_length, max_shift, cells};
ghost use Rattle.table.specs.Desk.{entry, mark, source_bits, source_bytes};
ghost use Rattle.table.specs.Table.{Within, Holds, RowLaid, OfFamily, house_cell, laid_out};
ghost use Rattle.table.specs.Families.{family_of};
ghost use Rattle.table.specs.Checks.{Checked, size_checks, table_checks};

pub use crate::desks::Desk;
pub use crate::families::Family;
pub use crate::refusals::{Refusal, told};

// A shift table: k columns and m rows, its shifts laid out eight to a row as in the full sheet.
#[derive(Clone, Copy)]
pub struct Table {
    pub k: usize,
    pub m: usize,
    pub shifts: [u8; Table::CELLS],
}

// The limits, for the proof that the definitions state the same.
#[derive(Clone, Copy)]
pub struct Limits {
    pub sources: u64,
    pub parities: u64,
    pub length: u64,
    pub shift: u8,
    pub families: u64,
    pub stripes: u64,
}

impl Table {
    pub const MAX_K: u64 = 8;

    pub const MAX_M: u64 = 8;

    pub const MAX_LENGTH: u64 = 56;

    pub const MAX_SHIFT: u8 = 64;

    // The families are 1 to this.
    pub const FAMILIES: u64 = 3;

    // The most stripes of a logbook.
    pub const MAX_STRIPES: u64 = 16;

    // The sources, as the length of an array of progress numbers.
    pub const SOURCES: usize = Table::MAX_K as usize;

    // The parities, as the length of an array of their reaches.
    pub const PARITIES: usize = Table::MAX_M as usize;

    // The bytes of the longest source.
    pub const MAX_BYTES: usize = Table::MAX_LENGTH as usize;

    // The cells of the full sheet.
    pub const CELLS: usize = (Table::MAX_K * Table::MAX_M) as usize;

    // The bytes of the longest parity.
    pub const LONGEST: usize = ((8 * Table::MAX_LENGTH + Table::MAX_SHIFT as u64 + 7) / 8) as usize;

    // The full sheet of the house family: parity a and source b, both from 1, have the shift a·(b − 1).
    pub const HOUSE: [u8; Table::CELLS] = [
        0, 1, 2, 3, 4, 5, 6, 7, 0, 2, 4, 6, 8, 10, 12, 14, 0, 3, 6, 9, 12, 15, 18, 21, 0, 4, 8, 12,
        16, 20, 24, 28, 0, 5, 10, 15, 20, 25, 30, 35, 0, 6, 12, 18, 24, 30, 36, 42, 0, 7, 14, 21,
        28, 35, 42, 49, 0, 8, 16, 24, 32, 40, 48, 56,
    ];

    // The limits that the definitions state are those of the code.
    pub fn limits() -> Limits
        ensures { Limited result.sources result.parities result.length result.shift result.families result.stripes }
    {
        Limits {
            sources: Table::MAX_K,
            parities: Table::MAX_M,
            length: Table::MAX_LENGTH,
            shift: Table::MAX_SHIFT,
            families: Table::FAMILIES,
            stripes: Table::MAX_STRIPES,
        }
    }

    // The table of numbers and bytes that were accepted.
    pub fn new(k: u64, m: u64, table: &[u8]) -> Table
        requires { Checked (size_checks k m ++ table_checks k m table.now) 0 }
        ensures { Holds k m table.now result }
    {
        let shifts = laid_out(k as usize, m as usize, table);
        Table {
            k: k as usize,
            m: m as usize,
            shifts,
        }
    }

    // The house table of k sources and m parities: the upper left part of the full sheet.
    pub fn house(k: u64, m: u64) -> Table
        requires { (k ≤ max_k) × (m ≤ max_m) }
        ensures { (result.k ≡ k) × (result.m ≡ m) × ((i : ℕ) → i < cells → at result.shifts i ≡ house_cell i) }
    {
        Table {
            k: k as usize,
            m: m as usize,
            shifts: Table::HOUSE,
        }
    }

    // The Hankel table of k sources and m parities.
    pub fn hankel(k: u64, m: u64) -> Table
        requires { (k ≤ max_k) × (m ≤ max_m) }
        ensures { OfFamily 2 k m result }
    {
        families::filled(k, m, Family::Hankel)
    }

    // The Vandermonde table of k sources and m parities.
    pub fn vandermonde(k: u64, m: u64) -> Table
        requires { (k ≤ max_k) × (m ≤ max_m) }
        ensures { OfFamily 3 k m result }
    {
        families::filled(k, m, Family::Vandermonde)
    }

    // The table of a family, of k sources and m parities.
    pub fn family(k: u64, m: u64, family: Family) -> Table
        requires { (k ≤ max_k) × (m ≤ max_m) }
        ensures { OfFamily (family_of family) k m result }
    {
        match family {
            Family::House => Table::house(k, m),
            Family::Hankel => Table::hankel(k, m),
            Family::Vandermonde => Table::vandermonde(k, m),
        }
    }
}

// Lays row a of a table of k columns out on the sheet. Rows are short: a call that copies one takes longer than its bytes.
fn lay_row(k: usize, table: &[u8], a: usize, shifts: &mut [u8])
    requires k_le_max_k { (k ≤ max_k) × (a < max_m) }
    requires k_in_bounds { a * k + k ≤ length table.now }
    requires shifts_len { length shifts.old ≡ cells }
    ensures { RowLaid k table.now a k shifts.old shifts.new }
{
    for b in 0..k {
        shifts[a * Table::SOURCES + b] = table[a * k + b];
    }
}

// Lays the bytes of a table, row by row, out on a sheet of noughts, eight to a row.
pub fn lay_out(k: usize, m: usize, table: &[u8], shifts: &mut [u8])
    requires k_le_max_k { (k ≤ max_k) × (m ≤ max_m) × (length table.now ≡ m * k) }
    requires shifts_len { length shifts.old ≡ cells }
    requires by_index { (i : ℕ) → at shifts.old i ≡ 0 }
    ensures { (i : ℕ) → i < cells → at shifts.new i ≡ entry k table.now (i / max_k) (i % max_k) }
{
    for a in 0..m {
        lay_row(k, table, a, shifts);
    }
}

// The bytes of a table, row by row, laid out eight to a row, and 0 elsewhere.
fn laid_out(k: usize, m: usize, table: &[u8]) -> [u8; Table::CELLS]
    requires { (k ≤ max_k) × (m ≤ max_m) × (length table.now ≡ m * k) }
    ensures { (i : ℕ) → i < cells → at result i ≡ entry k table.now (i / max_k) (i % max_k) }
{
    let mut shifts = [0u8; Table::CELLS];
    lay_out(k, m, table, &mut shifts);
    shifts
}

// Whether packet i, from 0, is present.
pub fn marked(marks: u64, i: usize) -> bool
    requires { i < 64 }
    ensures { result ≡ mark marks i }
{
    (marks >> i) % 2 == 1
}
