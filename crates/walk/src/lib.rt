// The walk of the decoding, without data: bare pairs, the next step, and the walk to its end.
#![tactic(auto)]

ghost use Rattle.std.specs.Prelude.{◌≡◌, [], ℕ, ◌+◌, ◌≤◌, ◌<◌, set, MatchOption};
ghost use Rattle.bits.specs.Sums.{at};
ghost use Rattle.table.specs.Limits.{max_k, max_length, max_bits};
ghost use Rattle.table.specs.Desk.{desk};
ghost use Rattle.table.specs.Desks.{desk_of};
ghost use Rattle.table.specs.Refusals.{told};
ghost use Rattle.walk.specs.Walk.{Fits, Next};
ghost use Rattle.walk.specs.Compute.{placed_of, lower_of, scan, source_of, parity_of, full_b, whole_b};
ghost use Rattle.walk.specs.Lows.{no_place, LowsApart};
ghost use Rattle.walk.specs.Promise.{Stepped, Walked, Finished};
ghost use Rattle.walk.specs.Parts.{parity_number, source_number, whole_number, step_parity, step_source, step_progress, walk_count, walk_whole, walk_progress};

use table::{Desk, Refusal, Table};

// A pair of a parity and a source, from 0.
#[derive(Clone, Copy, Debug, PartialEq, Eq)]
pub struct Pair {
    pub parity: usize,
    pub source: usize,
}

// What next step gives: the bare pair, if there is one, and the progress after it.
#[derive(Clone, Copy, Debug, PartialEq, Eq)]
pub struct Step {
    pub pair: Option<Pair>,
    pub progress: [u64; Table::SOURCES],
}

// What walk gives: how many steps, whether every missing source is whole, and the progress at the end.
#[derive(Clone, Copy, Debug, PartialEq, Eq)]
pub struct WalkEnd {
    pub count: u64,
    pub whole: bool,
    pub progress: [u64; Table::SOURCES],
}

// The lowest next bit of a parity so far: its place, and whose it is. At first the place is above all others, and nobody's; it is nobody's too where two share it.
#[derive(Clone, Copy)]
pub struct Low {
    pub place: u64,
    pub source: Option<usize>,
}

// The lower of x and a bit of source b at a place.
fn placed(x: Low, place: u64, b: usize) -> Low
    requires place_bound { place < no_place }
    ensures { (k : ℕ) → b < k → (s : ℕ × ℕ) → LowsApart k x.place x.source s → LowsApart k result.place result.source (placed_of k s place b) }
{
    if place < x.place {
        return Low {
            place,
            source: Some(b),
        };
    }
    if place == x.place {
        return Low {
            place,
            source: None,
        };
    }
    x
}

// The lowest next bit of parity a, with source b looked at too.
fn lower(desk: &Desk, g: &[u64; Table::SOURCES], a: usize, b: usize, x: Low) -> Low
    requires a_lt_m { a < desk.now.m }
    requires b_lt_k { b < desk.now.k }
    ensures { (s : ℕ × ℕ) → LowsApart desk.now.k x.place x.source s → LowsApart desk.now.k result.place result.source (lower_of (desk_of desk.now) (at g.now) a b s) }
{
    if table::marked(desk.marks, b) {
        return x;
    }
    if desk.source_bits() as u64 <= g[b] {
        return x;
    }
    let place = desk.shift_of(a, b) as u64 + g[b];
    placed(x, place, b)
}

// The lowest next bit of parity a among all sources.
#[inline(always)]
fn lowest(desk: &Desk, g: &[u64; Table::SOURCES], a: usize) -> Low
    requires a_lt_m { a < desk.now.m }
    ensures { LowsApart desk.now.k result.place result.source (scan (desk_of desk.now) (at g.now) a desk.now.k) }
{
    let mut x = Low {
        place: u64::MAX,
        source: None,
    };
    for b in 0..desk.k {
        x = lower(desk, g, a, b, x);
    }
    x
}

// The source that is bare in parity a, if there is one.
pub fn source_of(desk: &Desk, g: &[u64; Table::SOURCES], a: usize) -> Option<usize>
    requires fits { Fits (desk_of desk.now) (at g.now) }
    requires a_lt_m { a < desk.now.m }
    ensures { MatchOption result (desk.now.k ≤ source_of (desk_of desk.now) (at g.now) a) (λ b. (b < desk.now.k) × (b ≡ source_of (desk_of desk.now) (at g.now) a)) }
{
    if !table::marked(desk.marks, desk.k + a) {
        return None;
    }
    lowest(desk, g, a).source
}

// The same as a number: the source that is bare in parity a; k where the parity is not at hand or no bit is left there; k + 1 where two sources share the lowest place.
pub fn source_number(desk: &Desk, g: &[u64; Table::SOURCES], a: usize) -> usize
    requires fits { Fits (desk_of desk.now) (at g.now) }
    requires a_lt_m { a < desk.now.m }
    ensures { result ≡ source_of (desk_of desk.now) (at g.now) a }
{
    if !table::marked(desk.marks, desk.k + a) {
        return desk.k;
    }
    let low = lowest(desk, g, a);
    if let Some(b) = low.source {
        return b;
    }
    if low.place == u64::MAX {
        return desk.k;
    }
    desk.k + 1
}

// The bare pair with the lowest parity, if there is one.
pub fn next_pair(desk: &Desk, g: &[u64; Table::SOURCES]) -> Option<Pair>
    requires fits { Fits (desk_of desk.now) (at g.now) }
    ensures { MatchOption result (parity_of (desk_of desk.now) (at g.now) ≡ desk.now.m)
        (λ p. (p.parity < desk.now.m) × (p.parity ≡ parity_of (desk_of desk.now) (at g.now)) × (p.source ≡ source_of (desk_of desk.now) (at g.now) p.parity)) }
{
    for parity in 0..desk.m {
        if let Some(source) = source_of(desk, g, parity) {
            return Some(Pair { parity, source });
        }
    }
    None
}

// One more bit of source b.
pub fn raised(mut g: [u64; Table::SOURCES], b: usize) -> [u64; Table::SOURCES]
    requires b_lt_max_k { b < max_k }
    requires b_bound { at g b ≤ max_bits }
    ensures { result ≡ set g b (at g b + 1) }
{
    g[b] += 1;
    g
}

// The next step from progress g.
fn advance(desk: &Desk, g: [u64; Table::SOURCES]) -> Step
    requires fits { Fits (desk_of desk.now) (at g) }
    ensures { Next (desk_of desk.now) g (parity_number result.pair) (source_number result.pair) result.progress }
{
    let pair = next_pair(desk, &g);
    let progress = match pair {
        Some(p) => raised(g, p.source),
        None => g,
    };
    Step { pair, progress }
}

// The bare pair with the lowest parity, then the lowest source, and the progress after it.
pub fn next_step(
    k: u64,
    m: u64,
    l: u64,
    table: &[u8],
    marks: u64,
    progress: [u64; Table::SOURCES],
) -> Result<Step, Refusal>
    ensures { Stepped k m l table.now marks progress (told result) (step_parity result) (step_source result) (step_progress result) }
{
    let desk = checks::open_marked(k, m, l, table, marks)?;
    checks::check_progress(&desk, &progress)?;
    Ok(advance(&desk, progress))
}

// Whether source b, of so many bytes, is present or at its end.
fn is_full(length: usize, marks: u64, g: &[u64; Table::SOURCES], b: usize) -> bool
    requires length_le_max_length { length ≤ max_length }
    requires b_lt_max_k { b < max_k }
    ensures { (k : ℕ) → result ≡ full_b (desk k 0 length [] marks) (at g.now) b }
{
    table::marked(marks, b) || table::packets::source_bits(length) as u64 <= g[b]
}

// Whether every missing one of k sources of so many bytes is whole.
pub fn all_whole(k: usize, length: usize, marks: u64, g: &[u64; Table::SOURCES]) -> bool
    requires k_le_max_k { k ≤ max_k }
    requires length_le_max_length { length ≤ max_length }
    ensures { result ≡ whole_b (desk k 0 length [] marks) (at g.now) }
{
    for b in 0..k {
        if !is_full(length, marks, g, b) {
            return false;
        }
    }
    true
}

// Whether every missing source is whole: no shift matters.
pub fn is_whole(desk: &Desk, g: &[u64; Table::SOURCES]) -> bool
    ensures { result ≡ whole_b (desk_of desk.now) (at g.now) }
{
    all_whole(desk.k, desk.length, desk.marks, g)
}

// The walk over a desk, from nothing to its end.
fn to_end(desk: &Desk) -> WalkEnd
    ensures { Finished (desk_of desk.now) result.count (whole_number result.whole) result.progress }
{
    let mut g = [0u64; Table::SOURCES];
    let mut count: u64 = 0;
    while let Some(p) = next_pair(desk, &g) {
        g = raised(g, p.source);
        count += 1;
    }
    WalkEnd {
        count,
        whole: is_whole(desk, &g),
        progress: g,
    }
}

// The walk from nothing to its end: how many steps, whether every missing source is whole, and the progress.
pub fn walk(k: u64, m: u64, l: u64, table: &[u8], marks: u64) -> Result<WalkEnd, Refusal>
    ensures { Walked k m l table.now marks (told result) (walk_count result) (walk_whole result) (walk_progress result) }
{
    let desk = checks::open_marked(k, m, l, table, marks)?;
    Ok(to_end(&desk))
}
