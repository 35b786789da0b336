// A logbook: up to sixteen stripes with one table, one length and one set of marks, rebuilt in one call. What follows from these alone is worked out once.
#![tactic(auto)]

ghost use Rattle.std.specs.Prelude.{◌≡◌, length, ◌+◌, ◌*◌, ◌≤◌};
ghost use Rattle.bits.specs.Sums.{count};
ghost use Rattle.table.specs.Limits.{max_stripes};
ghost use Rattle.table.specs.Desk.{mark, sources_bytes};
ghost use Rattle.table.specs.Desks.{Ready, desk_of};
ghost use Rattle.table.specs.Checks.{Checked, stripes_checks};
ghost use Rattle.table.specs.Refusals.{told};
ghost use Rattle.search.specs.Search.{AllMissing};
ghost use Rattle.lanes.specs.Lanes.{Stripes};
ghost use Rattle.stripe.specs.Parts.{log_number, log_good, log_count};
ghost use Rattle.stripe.specs.Stripes.{LogDecided};
ghost use Rattle.whole_log.specs.Stages.{LogLent};
ghost use Rattle.whole_log.specs.Promise.{LogRebuilt};

use lanes::Log;
use search::Missing;
use stripe::BadLog;
use table::{Desk, Refusal, Table};

// The stripes by steps that are looked for once, and made in all lanes.
fn log_by_steps(
    desk: &Desk,
    missing: &Missing,
    stripes: usize,
    packets: &[u8],
    out: &mut [u8],
) -> Result<u64, BadLog>
    requires all_missing { AllMissing desk.now.k desk.now.marks missing.now.columns missing.now.count }
    requires le_stripes { (1 ≤ stripes) × (stripes ≤ max_stripes) }
    requires stripes { Stripes (desk_of desk.now) stripes packets.now }
    requires out_len { length out.old ≡ stripes * sources_bytes (desk_of desk.now) }
    ensures { LogDecided (desk_of desk.now) stripes packets.now out.old (log_number result) (log_good stripes result) (log_count result) out.new }
{
    let log = Log::new(desk, stripes, packets);
    let mut words = [0u16; lanes::WORDS];
    let steps = lanes::read_lanes(&log, missing, &mut words);
    if !steps.whole {
        return Err(BadLog {
            refusal: Refusal::Stall,
            good: 0,
            count: steps.count,
        });
    }
    stripe::log_of_lanes(&log, &words, steps.count, out)
}

// 8, 9 and 10, and the sources of the good stripes: those that came, where none is missing; by a plan, if there is one; else by steps.
fn log_decoded(desk: &Desk, stripes: usize, packets: &[u8], out: &mut [u8]) -> Result<u64, BadLog>
    requires ready { Ready desk.now }
    requires marks_value { count (desk.now.k + desk.now.m) (mark desk.now.marks) ≡ desk.now.k }
    requires le_stripes { (1 ≤ stripes) × (stripes ≤ max_stripes) }
    requires stripes { Stripes (desk_of desk.now) stripes packets.now }
    requires out_len { length out.old ≡ stripes * sources_bytes (desk_of desk.now) }
    ensures { LogDecided (desk_of desk.now) stripes packets.now out.old (log_number result) (log_good stripes result) (log_count result) out.new }
{
    let missing = search::list_missing(desk.k, desk.marks);
    if missing.count == 0 {
        return stripe::log_of_sources(desk, stripes, packets, out);
    }
    match plan::find_plan(desk, &missing) {
        Some(plan) => stripe::log_by_plan(desk, &plan, &missing, stripes, packets, out),
        None => log_by_steps(desk, &missing, stripes, packets, out),
    }
}

// 4 and 5 for all stripes together, and what is left of rebuild log.
fn log_lent(desk: &Desk, stripes: usize, packets: &[u8], out: &mut [u8]) -> Result<u64, BadLog>
    requires ready { Ready desk.now }
    requires marks_value { count (desk.now.k + desk.now.m) (mark desk.now.marks) ≡ desk.now.k }
    requires le_stripes { (1 ≤ stripes) × (stripes ≤ max_stripes) }
    ensures { LogLent (desk_of desk.now) stripes packets.now out.old (log_number result) (log_good stripes result) (log_count result) out.new }
{
    let needed = stripes * desk.bytes_of_survivors();
    let room = stripes * desk.sources_bytes();
    checks::check_lengths(packets, needed, out, room)?;
    log_decoded(desk, stripes, packets, out)
}

// 25.
fn check_stripes(stripes: u64) -> Result<(), Refusal>
    ensures { Checked (stripes_checks stripes) (told result) }
{
    if stripes < 1 {
        return Err(Refusal::Stripes);
    }
    if Table::MAX_STRIPES < stripes {
        return Err(Refusal::Stripes);
    }
    Ok(())
}

// All sources of each stripe from its packets at hand, stripe after stripe, up to the first bad one; the count of steps is one for all stripes.
pub fn rebuild_log(
    k: u64,
    m: u64,
    l: u64,
    table: &[u8],
    stripes: u64,
    marks: u64,
    packets: &[u8],
    out: &mut [u8],
) -> Result<u64, BadLog>
    ensures { LogRebuilt k m l table.now stripes marks packets.now out.old (log_number result) (log_good stripes result) (log_count result) out.new }
{
    let mut desk = checks::open_shape(k, m, l, table)?;
    check_stripes(stripes)?;
    checks::check_marks(desk.k, desk.m, marks)?;
    desk.put_marks(marks);
    log_lent(&desk, stripes as usize, packets, out)
}
