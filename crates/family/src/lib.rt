// The tables of the families, of k sources and m parities; and the judge.
#![tactic(auto)]

pub mod judge;

ghost use Rattle.std.specs.Prelude.{◌≡◌, length, ℕ, ◌+◌, ◌*◌, ◌/◌, ◌%◌, ◌≤◌, ◌<◌};
ghost use Rattle.bits.specs.Sums.{at};
ghost use Rattle.table.specs.Limits.{max_k, max_m};
ghost use Rattle.table.specs.Families.{family_of};
ghost use Rattle.table.specs.Refusals.{told};
ghost use Rattle.family.specs.Promise.{FamilyTable, FamilyWritten};

use table::{Family, Refusal, Table};

// Writes the shifts of a table row by row, k to a row.
fn write(t: Table, out: &mut [u8])
    requires le_k { (1 ≤ t.k) × (t.k ≤ max_k) × (t.m ≤ max_m) }
    requires out_len { length out.old ≡ t.m * t.k }
    ensures { (i : ℕ) → i < length out.old → at out.new i ≡ at t.shifts (i / t.k * max_k + i % t.k) }
{
    let k = t.k;
    let shifts = t.shifts;
    for i in 0..out.len() {
        out[i] = shifts[i / k * Table::SOURCES + i % k];
    }
}

// Writes the table of a family. The house sheet is written by itself: where a constant table and one that was filled
// meet, the compiler for a small board takes both apart, byte by byte.
fn write_table(k: u64, m: u64, family: Family, out: &mut [u8])
    requires le_k { (1 ≤ k) × (k ≤ max_k) × (m ≤ max_m) }
    requires out_len { length out.old ≡ m * k }
    ensures { FamilyTable (family_of family) k m out.new }
{
    match family {
        Family::House => write(Table::house(k, m), out),
        _ => write(Table::family(k, m, family), out),
    }
}

// The table of a family into out: m·k bytes, row by row.
pub fn family_table(k: u64, m: u64, family: u64, out: &mut [u8]) -> Result<(), Refusal>
    ensures { FamilyWritten k m family out.old (told result) out.new }
{
    checks::check_size(k, m)?;
    let family = Family::try_from(family)?;
    if out.len() as u64 != m * k {
        return Err(Refusal::Output);
    }
    write_table(k, m, family, out);
    Ok(())
}
