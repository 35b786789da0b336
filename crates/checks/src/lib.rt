// The checks that calls share, and the desk of what they accept.
#![tactic(auto)]

ghost use Rattle.std.specs.Prelude.{◌≡◌, ◌++◌, ℕ, ◌≤◌, ◌<◌};
ghost use Rattle.bits.specs.Sums.{at};
ghost use Rattle.bits.specs.Bits.{Tells};
ghost use Rattle.table.specs.Limits.{max_k, max_m, max_shift};
ghost use Rattle.table.specs.Table.{room_of};
ghost use Rattle.table.specs.Checks.{Checked, size_checks, length_checks, table_checks, number_checks, marks_checks, shape_checks, marked_checks};
ghost use Rattle.table.specs.Checks.{asked_checks, progress_checks, input_checks, output_checks};
ghost use Rattle.table.specs.Refusals.{told};
ghost use Rattle.checks.specs.Opening.{Opens};

use table::{Desk, Refusal, Table};

// Whether every entry is a shift that is taken. The largest of them tells: without a way out the compiler looks at sixteen at once.
fn low(table: &[u8]) -> bool
    ensures { Tells result ((i : ℕ) → at table.now i ≤ max_shift) }
{
    let mut most = 0;
    for i in 0..table.len() {
        if most < table[i] {
            most = table[i];
        }
    }
    most <= Table::MAX_SHIFT
}

// 1.
pub fn check_size(k: u64, m: u64) -> Result<(), Refusal>
    ensures { Checked (size_checks k m) (told result) }
{
    if k < 1 {
        return Err(Refusal::Size);
    }
    if Table::MAX_K < k {
        return Err(Refusal::Size);
    }
    if m < 1 {
        return Err(Refusal::Size);
    }
    if Table::MAX_M < m {
        return Err(Refusal::Size);
    }
    Ok(())
}

// 2.
pub fn check_length(l: u64) -> Result<(), Refusal>
    ensures { Checked (length_checks l) (told result) }
{
    if l < 1 {
        return Err(Refusal::Length);
    }
    if Table::MAX_LENGTH < l {
        return Err(Refusal::Length);
    }
    Ok(())
}

// 3.
pub fn check_table(k: u64, m: u64, table: &[u8]) -> Result<(), Refusal>
    requires { (k ≤ max_k) × (m ≤ max_m) }
    ensures { Checked (table_checks k m table.now) (told result) }
{
    if table.len() as u64 != m * k {
        return Err(Refusal::Table);
    }
    if low(table) {
        Ok(())
    } else {
        Err(Refusal::Table)
    }
}

// 6, for a number that is to be one of 1 to n.
pub fn check_one_of(n: u64, i: u64) -> Result<(), Refusal>
    ensures { Checked (number_checks n i) (told result) }
{
    if i < 1 {
        return Err(Refusal::Packet);
    }
    if n < i {
        return Err(Refusal::Packet);
    }
    Ok(())
}

// 6 and 7. Not written into each call: together these keep the library small on a board.
#[inline(never)]
pub fn check_marks(k: usize, m: usize, marks: u64) -> Result<(), Refusal>
    requires { (k ≤ max_k) × (m ≤ max_m) }
    ensures { Checked (marks_checks k m marks) (told result) }
{
    if marks >> (k + m) != 0 {
        return Err(Refusal::Packet);
    }
    if marks.count_ones() as usize != k {
        return Err(Refusal::Marks);
    }
    Ok(())
}

// 6 and 7, with 6 for a number, from 1, that is to be one of `among` too.
pub fn check_asked(k: usize, m: usize, marks: u64, among: usize, i: u64) -> Result<(), Refusal>
    requires { (k ≤ max_k) × (m ≤ max_m) }
    ensures { Checked (asked_checks k m marks among i) (told result) }
{
    check_one_of(among as u64, i)?;
    check_marks(k, m, marks)
}

// 4 and 5: what a call lends is as long as it has to be.
pub fn check_lengths(input: &[u8], needed: usize, output: &[u8], room: usize) -> Result<(), Refusal>
    ensures { Checked (input_checks needed input.now ++ output_checks room output.now) (told result) }
{
    if input.len() != needed {
        return Err(Refusal::Input);
    }
    if output.len() != room {
        return Err(Refusal::Output);
    }
    Ok(())
}

// The progress that source c, from 0, may have: up to its bits where it is missing, else none.
fn room(desk: &Desk, c: usize) -> u64
    requires { c < max_k }
    ensures { result ≡ room_of desk.now.k desk.now.length desk.now.marks c }
{
    if desk.k <= c {
        return 0;
    }
    if table::marked(desk.marks, c) {
        return 0;
    }
    desk.source_bits() as u64
}

// 17.
pub fn check_progress(desk: &Desk, progress: &[u64; Table::SOURCES]) -> Result<(), Refusal>
    ensures { Checked (progress_checks desk.now.k desk.now.length desk.now.marks progress.now) (told result) }
{
    for c in 0..Table::SOURCES {
        if room(desk, c) < progress[c] {
            return Err(Refusal::Progress);
        }
    }
    Ok(())
}

// 1, 2 and 3.
pub fn check_shape(k: u64, m: u64, l: u64, table: &[u8]) -> Result<(), Refusal>
    ensures { Checked (shape_checks k m l table.now) (told result) }
{
    check_size(k, m)?;
    check_length(l)?;
    check_table(k, m, table)
}

// Checks 1, 2 and 3, and the desk of what they accept, with no packets at hand. Written into each call: a desk that is handed up in an answer is copied at every hand.
#[inline(always)]
pub fn open_shape(k: u64, m: u64, l: u64, table: &[u8]) -> Result<Desk, Refusal>
    ensures { Opens (shape_checks k m l table.now) k m l table.now 0 result }
{
    check_shape(k, m, l, table)?;
    Ok(Desk::new(k, m, l, table))
}

// Checks 1, 2, 3, 6 and 7, and the desk of what they accept.
#[inline(always)]
pub fn open_marked(k: u64, m: u64, l: u64, table: &[u8], marks: u64) -> Result<Desk, Refusal>
    ensures { Opens (marked_checks k m l table.now marks) k m l table.now marks result }
{
    let mut desk = open_shape(k, m, l, table)?;
    check_marks(desk.k, desk.m, marks)?;
    desk.put_marks(marks);
    Ok(desk)
}
