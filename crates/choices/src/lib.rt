// The choices of k of the packet numbers 1 to k + m, in dictionary order.
#![tactic(auto)]

ghost use Rattle.std.specs.Prelude.{◌≡◌, List, ◌++◌, ℕ, ◌+◌, ◌-◌, ◌^◌, ◌≤◌, ◌<◌, take, drop, replicate, MatchOption, IfSome};
ghost use Rattle.bits.specs.Sums.{at};
ghost use Rattle.bits.specs.Bits.{Tells};
ghost use Rattle.table.specs.Limits.{max_k, max_m};
ghost use Rattle.choices.specs.Choices.{Rising, Full, run};
ghost use Rattle.choices.specs.Promise.{Holding, Begins, Follows, OrNoughts};
ghost use Rattle.choices.specs.Given.{held};

use table::Table;

// Packet numbers, as the calls take and give them. Those of a choice rise, and noughts stand after them. A call may be given what is no choice.
#[derive(Clone, Copy, Debug, PartialEq, Eq)]
pub struct Choice {
    pub ids: [u64; Table::SOURCES],
}

// Whether the first k numbers rise, none above n.
fn rises(ids: [u64; Table::SOURCES], k: usize, n: u64) -> bool
    requires { k ≤ max_k }
    ensures { Tells result (Rising 0 n (take k ids)) }
{
    let mut last = 0;
    for i in 0..k {
        let x = ids[i];
        if x <= last || n < x {
            return false;
        }
        last = x;
    }
    true
}

// Whether noughts stand from place k on.
fn blank_from(ids: [u64; Table::SOURCES], k: usize) -> bool
    requires { k ≤ max_k }
    ensures { Tells result (drop k ids ≡ replicate (max_k - k) 0) }
{
    ids[k..].iter().all(|x| *x == 0)
}

// The place, from 0, of the last number that can grow.
fn last_to_grow(ids: [u64; Table::SOURCES], k: usize, n: u64) -> Option<usize>
    requires { (k ≤ max_k) × (n ≤ max_k + max_m) × Rising 0 n (take k ids) }
    ensures { MatchOption result (Full n (take k ids)) (λ i. (i < k) × Full n (drop (i + 1) (take k ids)) × (at ids i + (k - (i + 1)) < n)) }
{
    for i in (0..k).rev() {
        let after = (k - (i + 1)) as u64;
        if ids[i] + after < n {
            return Some(i);
        }
    }
    None
}

// The numbers with those from place i up to place k, both from 0, counting up from x.
fn count_up(ids: [u64; Table::SOURCES], i: usize, k: usize, x: u64) -> [u64; Table::SOURCES]
    requires { (i ≤ k) × (k ≤ max_k) × (x + (k - i) < 2 ^ 64) }
    ensures { result ≡ take i ids ++ run x (k - i) ++ drop k ids }
{
    let mut out = ids;
    for at in i..k {
        out[at] = x + (at - i) as u64;
    }
    out
}

// Whether what is held is a choice of k of k + m numbers.
pub fn is_choice(k: u64, m: u64, c: Choice) -> bool
    ensures { Tells result ((ids : List ℕ) × Holding k m c.ids ids) }
{
    checks::check_size(k, m).is_ok()
        && rises(c.ids, k as usize, k + m)
        && blank_from(c.ids, k as usize)
}

// The first choice, where the size is right.
pub fn first(k: u64, m: u64) -> Option<Choice>
    ensures begins { OrNoughts (Begins k m) (held result) }
    ensures some { IfSome result (λ c. Begins k m c.ids) }
{
    checks::check_size(k, m).ok()?;
    let ids = count_up([0u64; Table::SOURCES], 0, k as usize, 1);
    Some(Choice { ids })
}

// The least choice after c, where c is a choice of k of k + m numbers and not the last.
pub fn next(k: u64, m: u64, c: Choice) -> Option<Choice>
    ensures follows { OrNoughts (Follows k m c.ids) (held result) }
    ensures some { IfSome result (λ d. Follows k m c.ids d.ids) }
{
    if !is_choice(k, m, c) {
        return None;
    }
    let old = c.ids;
    let i = last_to_grow(old, k as usize, k + m)?;
    let ids = count_up(old, i, k as usize, old[i] + 1);
    Some(Choice { ids })
}
