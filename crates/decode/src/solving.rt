// The missing sources solved for at once, where they are even. What is left of each parity at hand is loaded into the row of a missing source, shifted so that the first missing source
// stands at one place in all of them; solved; and each source shifted down to its own place, and cut to its bytes.
ghost use Rattle.std.specs.Prelude.{◌≡◌, ◌≢◌, cond, ltb, ℕ, ◌+◌, ◌≤◌, ◌<◌};
ghost use Rattle.bits.specs.Sums.{at};
ghost use Rattle.bits.specs.Bits.{up};
ghost use Rattle.table.specs.Limits.{max_shift};
ghost use Rattle.table.specs.Desks.{desk_of};
ghost use Rattle.rows.specs.Rows.{row_in, HasRow, Became};
ghost use Rattle.plan.specs.Plan.{way_of, Planned, listed_shift};
ghost use Rattle.plan.specs.Even.{Inside};
ghost use Rattle.solve.specs.Solve.{Rising, Changed};
ghost use Rattle.survivors.specs.Remainders.{Roomy};
ghost use Rattle.decode.specs.Data.{Blank, SolvedFor};
ghost use Rattle.decode.specs.Solving.{Sited, AllBecame, SolvedBy, loaded, unloaded};

use plan::{Plan, Way};
use search::Missing;
use table::Desk;

// The shift of the parity and the source listed at i and b.
fn listed_shift(desk: &Desk, plan: &Plan, missing: &Missing, i: usize, b: usize) -> usize
    requires inside { Inside desk.now plan.now.rows missing.now.columns missing.now.count }
    requires i_lt_n { i < missing.now.count }
    requires b_lt_n { b < missing.now.count }
    ensures { (result ≡ listed_shift (desk_of desk.now) plan.now.rows missing.now.columns i b) × (result ≤ max_shift) }
{
    desk.shift_of(plan.rows[i] as usize, missing.columns[b] as usize)
}

// Puts row b into row a, which is noughts, shifted up by e bits and down by d: at once, so that nothing is lost.
fn put_shifted(rows: &mut [u64], a: usize, b: usize, e: usize, d: usize)
    requires has_row { HasRow rows.old a }
    requires has_row_2 { HasRow rows.old b }
    requires a_nonzero { a ≢ b }
    requires e_le_max_shift { (e ≤ max_shift) × (d ≤ max_shift) }
    requires by_index { (p : ℕ) → row_in rows.old a p ≡ 0 }
    ensures { Became a (λ p. up e (row_in rows.old b) (d + p)) rows.old rows.new }
{
    if d <= e {
        rows::add_up(rows, a, b, e - d);
        return;
    }
    rows::add_up(rows, a, b, 0);
    rows::divide::lower(rows, a, d - e);
}

// Loads what is left of each parity at hand into the row of a missing source.
fn load(desk: &Desk, plan: &Plan, missing: &Missing, rows: &mut [u64])
    requires inside { Inside desk.now plan.now.rows missing.now.columns missing.now.count }
    requires sited { Sited missing.now.columns missing.now.count rows.old }
    requires roomy { Roomy rows.old }
    requires by_index { (i p : ℕ) → i < missing.now.count → row_in rows.old (at missing.now.columns i) p ≡ 0 }
    ensures { AllBecame (loaded (desk_of desk.now) plan.now.rows missing.now.columns rows.old) missing.now.columns missing.now.count
        rows.old rows.new }
{
    let e = listed_shift(desk, plan, missing, 0, 0);
    for i in 0..missing.count as usize {
        let d = listed_shift(desk, plan, missing, i, 0);
        let from = desk.k + plan.rows[i] as usize;
        put_shifted(rows, missing.columns[i] as usize, from, e, d);
    }
}

// Solves the rows at the places of the missing sources in the way of a plan.
fn solve_by(plan: &Plan, missing: &Missing, rows: &mut [u64])
    requires sited { Sited missing.now.columns missing.now.count rows.old }
    requires rising { Rising plan.now.rises missing.now.count }
    ensures { Changed (SolvedBy (way_of plan.now.way) (at plan.now.rises) missing.now.count) missing.now.columns missing.now.count rows.old rows.new }
{
    let n = missing.count as usize;
    match plan.way {
        Way::Rows => solve::solve_rows(rows, &missing.columns, &plan.rises, n),
        Way::Columns => solve::solve_columns(rows, &missing.columns, &plan.rises, n),
    }
}

// Shifts row a down by e bits, and clears it from bit n on.
fn lower_and_cut(rows: &mut [u64], a: usize, e: usize, n: usize)
    requires has_row { HasRow rows.old a }
    requires e_le_max_shift { e ≤ max_shift }
    ensures { Became a (λ p. cond (ltb p n) (row_in rows.old a (e + p)) 0) rows.old rows.new }
{
    rows::divide::lower(rows, a, e);
    rows::clear::clear_from(rows, a, n);
}

// Makes each unknown its source.
fn unload(desk: &Desk, plan: &Plan, missing: &Missing, rows: &mut [u64])
    requires inside { Inside desk.now plan.now.rows missing.now.columns missing.now.count }
    requires sited { Sited missing.now.columns missing.now.count rows.old }
    ensures { AllBecame (unloaded (desk_of desk.now) plan.now.rows missing.now.columns rows.old) missing.now.columns missing.now.count
        rows.old rows.new }
{
    let end = 8 * desk.source_bytes();
    for b in 0..missing.count as usize {
        let e = listed_shift(desk, plan, missing, 0, b);
        lower_and_cut(rows, missing.columns[b] as usize, e, end);
    }
}

// Solves for the missing sources, which are listed, by a plan for them.
pub fn solve_missing(desk: &Desk, plan: &Plan, missing: &Missing, rows: &mut [u64])
    requires planned { Planned (desk_of desk.now) (way_of plan.now.way) missing.now.count plan.now.rows missing.now.columns plan.now.rises }
    requires roomy { Roomy rows.old }
    requires blank { Blank (desk_of desk.now) rows.old }
    ensures { SolvedFor (desk_of desk.now) rows.old rows.new }
{
    load(desk, plan, missing, rows);
    solve_by(plan, missing, rows);
    unload(desk, plan, missing, rows);
}
