// Lists of steps that were written down: whether each is bare when its turn comes, and all missing sources are whole at the end.
#![tactic(auto)]

ghost use Rattle.std.specs.Prelude.{◌≡◌, ◌≤◌, length};
ghost use Rattle.bits.specs.Sums.{at};
ghost use Rattle.bits.specs.Bits.{Tells};
ghost use Rattle.table.specs.Desks.{desk_of};
ghost use Rattle.table.specs.Checks.{Checked};
ghost use Rattle.table.specs.Refusals.{told};
ghost use Rattle.walk.specs.Walk.{Fits};
ghost use Rattle.steps.specs.Steps.{BareStep};
ghost use Rattle.steps.specs.Promise.{unequal_checks, Followed, StepsChecked};
ghost use Rattle.steps.specs.Parts.{steps_number, steps_place};

use table::{Desk, Refusal, Table};

// Why a list of steps is refused, and where: the first bad step, from 1, or the length of a list that ends early; else 0.
#[derive(Clone, Copy, Debug, PartialEq, Eq)]
pub struct BadSteps {
    pub refusal: Refusal,
    pub place: u64,
}

// What is refused before a step is looked at has no place.
impl From<Refusal> for BadSteps {
    ghost from_gives = { λ refusal bad. (bad.refusal ≡ refusal) × (bad.place ≡ 0) };

    fn from(refusal: Refusal) -> BadSteps {
        BadSteps { refusal, place: 0 }
    }
}

// Whether an entry is a number from 1 to n.
fn names(n: usize, entry: u8) -> bool
    ensures { Tells result ((1 ≤ entry) × (entry ≤ n)) }
{
    1 <= entry && entry as usize <= n
}

// Whether two entries are the numbers of a parity and a source that are bare at progress g.
fn is_bare(desk: &Desk, g: &[u64; Table::SOURCES], parity: u8, source: u8) -> bool
    requires fits { Fits (desk_of desk.now) (at g.now) }
    ensures { Tells result (BareStep (desk_of desk.now) (at g.now) parity source) }
{
    names(desk.m, parity)
        && names(desk.k, source)
        && walk::source_of(desk, g, parity as usize - 1) == Some(source as usize - 1)
}

// 22.
fn check_as_long(parities: &[u8], sources: &[u8]) -> Result<(), Refusal>
    ensures { Checked (unequal_checks parities.now sources.now) (told result) }
{
    if parities.len() != sources.len() {
        return Err(Refusal::StepsUnequal);
    }
    Ok(())
}

// 23 and 24 of lists as long as each other: each step is tried at the progress that those before it reach.
fn follow(desk: &Desk, parities: &[u8], sources: &[u8]) -> Result<(), BadSteps>
    requires parities_len { length parities.now ≡ length sources.now }
    ensures { Followed (desk_of desk.now) parities.now sources.now (steps_number result) (steps_place result) }
{
    let mut g = [0u64; Table::SOURCES];
    let n = parities.len();
    for i in 0..n {
        let source = sources[i];
        if !is_bare(desk, &g, parities[i], source) {
            return Err(BadSteps {
                refusal: Refusal::StepNotBare,
                place: i as u64 + 1,
            });
        }
        g = walk::raised(g, source as usize - 1);
    }
    let early = BadSteps {
        refusal: Refusal::StepsEarly,
        place: n as u64,
    };
    if walk::is_whole(desk, &g) {
        Ok(())
    } else {
        Err(early)
    }
}

// Checks a list of steps: a parity and a source for each, from 1. Each has to be bare when its turn
// comes, and all missing sources whole at the end.
pub fn check_steps(
    k: u64,
    m: u64,
    l: u64,
    table: &[u8],
    marks: u64,
    parities: &[u8],
    sources: &[u8],
) -> Result<(), BadSteps>
    ensures { StepsChecked k m l table.now marks parities.now sources.now (steps_number result) (steps_place result) }
{
    let desk = checks::open_marked(k, m, l, table, marks)?;
    check_as_long(parities, sources)?;
    follow(&desk, parities, sources)
}
