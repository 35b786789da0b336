// Whether the missing sources can be solved for at once: as many parities are at hand, and their shifts are even.
#![tactic(auto)]

ghost use Rattle.std.specs.Prelude.{◌≡◌, true, false, [], ◌*◌, ◌≤◌, ◌<◌, IfSome};
ghost use Rattle.table.specs.Limits.{max_k, max_m, max_shift};
ghost use Rattle.table.specs.Desk.{desk};
ghost use Rattle.table.specs.Desks.{desk_of};
ghost use Rattle.search.specs.Search.{AllMissing};
ghost use Rattle.plan.specs.Plan.{way_of, AllHeld, Planned};
ghost use Rattle.plan.specs.Even.{Inside, shift_at, RisesBy, Even, HasRoom, Found};

use search::Missing;
use table::{Desk, Table};

// Room for the parities at hand, and m after them.
pub const PARITIES: usize = search::COLUMNS;

// The ways in which shifts are even.
#[derive(Clone, Copy, Debug, PartialEq, Eq)]
pub enum Way {
    // from one parity at hand to the next
    Rows,

    // from one missing source to the next
    Columns,
}

// The parities at hand in order, then m; and how many they are.
#[derive(Clone, Copy, Debug, PartialEq, Eq)]
pub struct Held {
    pub rows: [u8; PARITIES],
    pub count: u8,
}

// The way in which shifts are even, the parities at hand, and by how much each column (or row) rises more than the first.
#[derive(Clone, Copy, Debug, PartialEq, Eq)]
pub struct Plan {
    pub way: Way,
    pub rows: [u8; PARITIES],
    pub rises: [u8; Table::SOURCES],
}

// Lists the parities at hand.
pub fn list_held(k: usize, m: usize, marks: u64) -> Held
    requires k_le_max_k { k ≤ max_k }
    requires m_le_max_m { m ≤ max_m }
    ensures { AllHeld (desk k m 0 [] marks) result.rows result.count }
{
    let held = search::list_missing(m, u64::MAX - (marks >> k));
    let rows = held.columns;
    let count = held.count;
    Held { rows, count }
}

// The shift of the parity and the source listed at i and j; turned, at j and i.
fn shift_at(
    desk: &Desk,
    rows: &[u8; PARITIES],
    missing: &Missing,
    turned: bool,
    i: usize,
    j: usize,
) -> usize
    requires inside { Inside desk.now rows.now missing.now.columns missing.now.count }
    requires i_lt_n { i < missing.now.count }
    requires j_lt_n { j < missing.now.count }
    ensures { (result ≡ shift_at (desk_of desk.now) rows.now missing.now.columns turned i j) × (result ≤ max_shift) }
{
    let (i, j) = if turned { (j, i) } else { (i, j) };
    desk.shift_of(rows[i] as usize, missing.columns[j] as usize)
}

// By how much column j rises more than the first from each row to the next, if it rises evenly.
fn rise(desk: &Desk, rows: &[u8; PARITIES], missing: &Missing, turned: bool, j: usize) -> Option<u8>
    requires inside { Inside desk.now rows.now missing.now.columns missing.now.count }
    requires le_n { 2 ≤ missing.now.count }
    requires j_lt_n { j < missing.now.count }
    ensures { IfSome result (λ v. (v ≤ 2 * max_shift) × RisesBy (shift_at (desk_of desk.now) rows.now missing.now.columns turned) missing.now.count j v) }
{
    let corner = shift_at(desk, rows, missing, turned, 0, 0);
    let top = shift_at(desk, rows, missing, turned, 0, j);
    let low = shift_at(desk, rows, missing, turned, 1, 0) + top;
    let high = shift_at(desk, rows, missing, turned, 1, j) + corner;
    if high < low {
        return None;
    }
    let v = high - low;
    for i in 2..missing.count as usize {
        let start = shift_at(desk, rows, missing, turned, i, 0);
        if shift_at(desk, rows, missing, turned, i, j) + corner != i * v + start + top {
            return None;
        }
    }
    Some(v as u8)
}

// By how much each column rises more than the first, if all rise evenly, and each by more than the one before.
fn all_rise(
    desk: &Desk,
    rows: &[u8; PARITIES],
    missing: &Missing,
    turned: bool,
) -> Option<[u8; Table::SOURCES]>
    requires inside { Inside desk.now rows.now missing.now.columns missing.now.count }
    ensures { IfSome result (Even (shift_at (desk_of desk.now) rows.now missing.now.columns turned) missing.now.count) }
{
    let mut rises = [0u8; Table::SOURCES];
    let mut last = 0;
    for j in 1..missing.count as usize {
        let here = rise(desk, rows, missing, turned, j)?;
        if here <= last {
            return None;
        }
        rises[j] = here;
        last = here;
    }
    Some(rises)
}

// Whether no column rises past the largest shift from the first row to the last, more than the first column does.
fn has_room(desk: &Desk, rows: &[u8; PARITIES], missing: &Missing) -> bool
    requires inside { Inside desk.now rows.now missing.now.columns missing.now.count }
    requires le_n { 1 ≤ missing.now.count }
    ensures { result ≡ true → HasRoom (shift_at (desk_of desk.now) rows.now missing.now.columns false) missing.now.count }
{
    let last = missing.count as usize - 1;
    let corner = shift_at(desk, rows, missing, false, 0, 0);
    let most = Table::MAX_SHIFT as usize + shift_at(desk, rows, missing, false, last, 0);
    for b in 1..missing.count as usize {
        if most < shift_at(desk, rows, missing, false, last, b) + corner {
            return false;
        }
    }
    true
}

// Looks whether as many missing sources as parities at hand are even, by rows first.
fn find_way(desk: &Desk, rows: &[u8; PARITIES], missing: &Missing) -> Option<Plan>
    requires inside { Inside desk.now rows.now missing.now.columns missing.now.count }
    requires le_n { 1 ≤ missing.now.count }
    ensures { IfSome result (λ p. (p.rows ≡ rows.now) × Found (desk_of desk.now) rows.now missing.now.columns missing.now.count (way_of p.way) p.rises) }
{
    if !has_room(desk, rows, missing) {
        return None;
    }
    if let Some(rises) = all_rise(desk, rows, missing, false) {
        return Some(Plan {
            way: Way::Rows,
            rows: *rows,
            rises,
        });
    }
    let rises = all_rise(desk, rows, missing, true)?;
    Some(Plan {
        way: Way::Columns,
        rows: *rows,
        rises,
    })
}

// The plan for the missing sources, which are listed, if there is one.
pub fn find_plan(desk: &Desk, missing: &Missing) -> Option<Plan>
    requires all_missing { AllMissing desk.now.k desk.now.marks missing.now.columns missing.now.count }
    ensures { IfSome result (λ p. Planned (desk_of desk.now) (way_of p.way) missing.now.count p.rows missing.now.columns p.rises) }
{
    let held = list_held(desk.k, desk.m, desk.marks);
    if missing.count == 0 || held.count != missing.count {
        return None;
    }
    find_way(desk, &held.rows, missing)
}
