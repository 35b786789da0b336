// The judge: whether differences grow down the table.
ghost use Rattle.std.specs.Prelude.{ℕ, ◌+◌, ◌≤◌, ◌<◌};
ghost use Rattle.bits.specs.Sums.{at};
ghost use Rattle.bits.specs.Bits.{Tells};
ghost use Rattle.table.specs.Limits.{max_k, max_m, max_shift};
ghost use Rattle.table.specs.Refusals.{told};
ghost use Rattle.family.specs.Judge.{growing, StepGrows, CellGrows, TableGrows};
ghost use Rattle.family.specs.Promise.{Judged};

use table::{Refusal, Table};

// Whether the difference between columns b and b + 1 grows from row a to row a + 1.
fn step_grows(shifts: &[u8; Table::CELLS], a: usize, b: usize) -> bool
    requires { (a + 1 < max_m) × (b + 1 < max_k) × ((i : ℕ) → at shifts.now i ≤ max_shift) }
    ensures { Tells result (StepGrows shifts.now a b) }
{
    let i = a * Table::SOURCES + b;
    let j = i + Table::SOURCES;
    u64::from(shifts[i + 1]) + u64::from(shifts[j])
        < u64::from(shifts[j + 1]) + u64::from(shifts[i])
}

// Whether the difference grows at cell i, where a row and a column of the table come after it.
fn cell_grows(k: usize, m: usize, shifts: &[u8; Table::CELLS], i: usize) -> bool
    requires k_le_max_k { (k ≤ max_k) × (m ≤ max_m) }
    requires by_index { (j : ℕ) → at shifts.now j ≤ max_shift }
    ensures { Tells result (CellGrows k m shifts.now i) }
{
    let a = i / Table::SOURCES;
    let b = i % Table::SOURCES;
    m <= a + 1 || k <= b + 1 || step_grows(shifts, a, b)
}

// Whether every difference grows down the table.
fn table_grows(k: usize, m: usize, shifts: &[u8; Table::CELLS]) -> bool
    requires k_le_max_k { (k ≤ max_k) × (m ≤ max_m) }
    requires by_index { (j : ℕ) → at shifts.now j ≤ max_shift }
    ensures { Tells result (TableGrows k m shifts.now) }
{
    (0..Table::CELLS).all(|i| cell_grows(k, m, shifts, i))
}

// Yes exactly for growing differences.
pub fn judge(k: u64, m: u64, table: &[u8]) -> Result<bool, Refusal>
    ensures { Judged k m table.now (told result) (growing result) }
{
    checks::check_size(k, m)?;
    checks::check_table(k, m, table)?;
    let t = Table::new(k, m, table);
    Ok(table_grows(t.k, t.m, &t.shifts))
}
