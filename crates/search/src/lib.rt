// The search for a bare pair among the missing sources only: from one parity at hand to the next, and in each over the list of the missing.
#![tactic(auto)]

ghost use Rattle.std.specs.Prelude.{◌≡◌, false, ◌≤◌, ◌<◌, IfSome, MatchOption};
ghost use Rattle.bits.specs.Sums.{at};
ghost use Rattle.table.specs.Limits.{max_k};
ghost use Rattle.table.specs.Desk.{mark};
ghost use Rattle.table.specs.Desks.{desk_of};
ghost use Rattle.walk.specs.Walk.{Bare, Stuck, Fits};
ghost use Rattle.search.specs.Search.{Leads, LooksAt, AllMissing};

use table::{Desk, Table};
use walk::Pair;

// Room for the missing sources, and k after them.
pub const COLUMNS: usize = Table::SOURCES + 1;

// The missing sources in order, then k; and how many they are.
#[derive(Clone, Copy, Debug, PartialEq, Eq)]
pub struct Missing {
    pub columns: [u8; COLUMNS],
    pub count: u8,
}

// The lowest next bit of a row so far: its place, and whose it is. At first the place is above all others; the source is k then, and where two share the place.
// A number and no Option: every step asks this of every row, and a word less to carry is a tenth of rebuilding.
#[derive(Clone, Copy)]
struct Leader {
    place: u64,
    source: usize,
}

// Lists the missing ones of k sources.
pub fn list_missing(k: usize, marks: u64) -> Missing
    requires { k ≤ max_k }
    ensures { AllMissing k marks result.columns result.count }
{
    let mut columns = [0u8; COLUMNS];
    let mut count = 0;
    let mut b = table::packets::next_missing(marks, 0, k);
    columns[0] = b as u8;
    while b < k {
        b = table::packets::next_missing(marks, b + 1, k);
        count += 1;
        columns[count] = b as u8;
    }
    Missing {
        columns,
        count: count as u8,
    }
}

// The lowest next bit of parity a, with source b, a missing one, looked at too.
fn lower(desk: &Desk, g: &[u64; Table::SOURCES], a: usize, b: usize, x: Leader) -> Leader
    requires a_lt_m { a < desk.now.m }
    requires b_lt_k { b < desk.now.k }
    requires b_value { mark desk.now.marks b ≡ false }
    ensures { LooksAt (desk_of desk.now) (at g.now) a b x.place x.source result.place result.source }
{
    let here = g[b];
    if desk.source_bits() as u64 <= here {
        return x;
    }
    let place = desk.shift_of(a, b) as u64 + here;
    if place < x.place {
        return Leader { place, source: b };
    }
    if place == x.place {
        return Leader {
            place,
            source: desk.k,
        };
    }
    x
}

// The source whose next bit stands alone lowest in the row of parity a, if there is one.
fn row_source(desk: &Desk, g: &[u64; Table::SOURCES], missing: &Missing, a: usize) -> Option<usize>
    requires all_missing { AllMissing desk.now.k desk.now.marks missing.now.columns missing.now.count }
    requires a_lt_m { a < desk.now.m }
    ensures { IfSome result (Leads (desk_of desk.now) (at g.now) a) }
{
    let mut x = Leader {
        place: u64::MAX,
        source: desk.k,
    };
    for j in 0..missing.count as usize {
        x = lower(desk, g, a, missing.columns[j] as usize, x);
    }
    if x.source < desk.k {
        Some(x.source)
    } else {
        None
    }
}

// A bare pair in row `from` or after it, if there is one, from one parity at hand to the next. Each step asks it, so it is no call on a board either.
#[inline(always)]
fn pair_from(desk: &Desk, g: &[u64; Table::SOURCES], missing: &Missing, from: usize) -> Option<Pair>
    requires all_missing { AllMissing desk.now.k desk.now.marks missing.now.columns missing.now.count }
    requires from_le_m { from ≤ desk.now.m }
    ensures { IfSome result (λ p. Bare (desk_of desk.now) (at g.now) p.parity p.source) }
{
    let k = desk.k;
    let n = k + desk.m;
    let mut i = table::packets::next_present(desk.marks, k + from, n);
    while i < n {
        let parity = i - k;
        if let Some(source) = row_source(desk, g, missing, parity) {
            return Some(Pair { parity, source });
        }
        i = table::packets::next_present(desk.marks, i + 1, n);
    }
    None
}

// A bare pair, looked for from row `from` on, then from the first row; where both fail the walk's own search decides.
pub fn some_pair(
    desk: &Desk,
    g: &[u64; Table::SOURCES],
    missing: &Missing,
    from: usize,
) -> Option<Pair>
    requires fits { Fits (desk_of desk.now) (at g.now) }
    requires all_missing { AllMissing desk.now.k desk.now.marks missing.now.columns missing.now.count }
    requires from_le_m { from ≤ desk.now.m }
    ensures { MatchOption result (Stuck (desk_of desk.now) (at g.now)) (λ p. Bare (desk_of desk.now) (at g.now) p.parity p.source) }
{
    if let Some(p) = pair_from(desk, g, missing, from) {
        return Some(p);
    }
    if let Some(p) = pair_from(desk, g, missing, 0) {
        return Some(p);
    }
    walk::next_pair(desk, g)
}
