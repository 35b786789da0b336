// The half of rebuild that touches data: each packet at hand put into its row, and the missing sources uncovered, at once where that can be, else bit by bit.
#![tactic(auto)]

pub mod solving;
pub mod steps;

ghost use Rattle.std.specs.Prelude.{◌≡◌, true, length, List, ℕ, ◌*◌};
ghost use Rattle.std.specs.Borrow.{MutBor};
ghost use Rattle.rows.specs.Rows.{row_in};
ghost use Rattle.table.specs.Desk.{source_bits};
ghost use Rattle.table.specs.Desks.{Ready, Survivors, desk_of};
ghost use Rattle.plan.specs.Plan.{way_of, Planned};
ghost use Rattle.survivors.specs.Remainders.{Roomy, sources_in, InBytes, NoRest};
ghost use Rattle.decode.specs.Data.{Blank, Uncovered, ReadBack};

use crate::steps::DecodeAnswer;
use plan::Plan;
use search::Missing;
use table::Desk;

// Solves for the missing sources, which are listed, by a plan for them: as many steps as they have bits, and all finished.
fn solve(desk: &Desk, plan: &Plan, missing: &Missing, rows: &mut [u64]) -> DecodeAnswer
    requires planned { Planned (desk_of desk.now) (way_of plan.now.way) missing.now.count plan.now.rows missing.now.columns plan.now.rises }
    requires roomy { Roomy rows.old }
    requires blank { Blank (desk_of desk.now) rows.old }
    ensures count { result.count ≡ missing.now.count * source_bits desk.now.length }
    ensures whole { result.whole ≡ true }
    ensures uncovered { Uncovered (desk_of desk.now) result.count result.whole rows.old rows.new }
{
    crate::solving::solve_missing(desk, plan, missing, rows);
    DecodeAnswer {
        count: missing.count as u64 * desk.source_bits() as u64,
        whole: true,
    }
}

// Uncovers the missing sources: solved for at once where they are even, else step by step.
fn uncover(desk: &Desk, rows: &mut [u64]) -> DecodeAnswer
    requires roomy { Roomy rows.old }
    requires blank { Blank (desk_of desk.now) rows.old }
    ensures { Uncovered (desk_of desk.now) result.count result.whole rows.old rows.new }
{
    let missing = search::list_missing(desk.k, desk.marks);
    match plan::find_plan(desk, &missing) {
        Some(plan) => solve(desk, &plan, &missing, rows),
        None => crate::steps::decode(desk, &missing, rows),
    }
}

// How many steps were made; whether they finish all missing sources, and then whether any sources encode to the packets.
#[derive(Clone, Copy, Debug, PartialEq, Eq)]
pub struct ReadAnswer {
    pub count: u64,
    pub whole: bool,
    pub consistent: bool,
}

// Reads the sources back from the packets, into rows that are noughts: the present ones are known, the missing ones are uncovered in the given way, and all are compared with the packets.
fn read_by<F: FnOnce(&mut [u64]) -> DecodeAnswer>(
    desk: &Desk,
    packets: &[u8],
    rows: &mut [u64],
    uncover: F,
) -> ReadAnswer
    requires ready { Ready desk.now }
    requires survivors { Survivors desk.now packets.now }
    requires roomy { Roomy rows.old }
    requires by_index { (i p : ℕ) → row_in rows.old i p ≡ 0 }
    requires takes { (known : MutBor (List ℕ)) → Roomy known.now → Blank (desk_of desk.now) known.now → F.pre uncover known }
    requires uncovers { (known : MutBor (List ℕ)) (made : _) (left : MutBor (List ℕ)) → F.post uncover known made left
        → Uncovered (desk_of desk.now) made.count made.whole known.now left.now }
    ensures made { (known : MutBor (List ℕ)) × (made : _) × (left : MutBor (List ℕ)) × F.post uncover known made left × (result.count ≡ made.count) × (result.whole ≡ made.whole) }
    ensures read_back { ReadBack (desk_of desk.now) packets.now result.count result.whole result.consistent (sources_in (desk_of desk.now) rows.new) }
    ensures in_bytes { InBytes (desk_of desk.now) rows.new × (result.consistent ≡ true → NoRest (desk_of desk.now) rows.new) }
{
    survivors::place_packets(desk, packets, rows);
    survivors::add_to_rests(desk, desk.marks, desk.marks, rows);
    let d = uncover(rows);
    survivors::add_to_rests(desk, desk.marks, u64::MAX - desk.marks, rows);
    bits::known(packets);
    let count = d.count;
    let whole = d.whole;
    let consistent = rows::bytes::clear_rows(rows, desk.k, desk.m);
    ReadAnswer {
        count,
        whole,
        consistent,
    }
}

// Reads the sources back from the packets, into rows that are noughts.
pub fn read_back(desk: &Desk, packets: &[u8], rows: &mut [u64]) -> ReadAnswer
    requires ready { Ready desk.now }
    requires survivors { Survivors desk.now packets.now }
    requires roomy { Roomy rows.old }
    requires by_index { (i p : ℕ) → row_in rows.old i p ≡ 0 }
    ensures read_back { ReadBack (desk_of desk.now) packets.now result.count result.whole result.consistent (sources_in (desk_of desk.now) rows.new) }
    ensures in_bytes { InBytes (desk_of desk.now) rows.new × (result.consistent ≡ true → NoRest (desk_of desk.now) rows.new) }
{
    read_by(desk, packets, rows, |known| uncover(desk, known))
}

// The same by a plan that was found for the missing sources, which solves for them; tells whether any sources encode to the packets.
pub fn solve_back(
    desk: &Desk,
    plan: &Plan,
    missing: &Missing,
    packets: &[u8],
    rows: &mut [u64],
) -> bool
    requires ready { Ready desk.now }
    requires planned { Planned (desk_of desk.now) (way_of plan.now.way) missing.now.count plan.now.rows missing.now.columns plan.now.rises }
    requires survivors { Survivors desk.now packets.now }
    requires roomy { Roomy rows.old }
    requires by_index { (i p : ℕ) → row_in rows.old i p ≡ 0 }
    ensures { ReadBack (desk_of desk.now) packets.now (missing.now.count * source_bits desk.now.length) true result (sources_in (desk_of desk.now) rows.new) }
{
    let d = read_by(desk, packets, rows, |known| {
        solve(desk, plan, missing, known)
    });
    d.consistent
}
