// One stripe of a logbook rebuilt, and stripe after stripe up to the first bad one: by a plan that was found, or out of the lanes.
#![tactic(auto)]

ghost use Rattle.std.specs.Prelude.{◌≡◌, true, List, length, ℕ, ◌*◌, ◌≤◌, ◌<◌};
ghost use Rattle.std.specs.Borrow.{Bor, MutBor};
ghost use Rattle.table.specs.Limits.{max_stripes};
ghost use Rattle.table.specs.Desk.{sources_bytes};
ghost use Rattle.table.specs.Desks.{Ready, Survivors, desk_of};
ghost use Rattle.walk.specs.Ends.{Finishes};
ghost use Rattle.plan.specs.Plan.{way_of, Planned};
ghost use Rattle.survivors.specs.Packets.{EncodesTo, stripe};
ghost use Rattle.rebuild.specs.Parts.{rebuild_number, rebuild_count};
ghost use Rattle.rebuild.specs.Stages.{RebuildMade};
ghost use Rattle.lanes.specs.Lanes.{lane_words, Stripes, LanesRead};
ghost use Rattle.stripe.specs.Alone.{SourcesAlone};
ghost use Rattle.stripe.specs.Course.{Course};
ghost use Rattle.stripe.specs.Parts.{log_number, log_good, log_count};
ghost use Rattle.stripe.specs.Stripes.{LogDecided};

use lanes::Log;
use plan::Plan;
use rebuild::Unread;
use search::Missing;
use table::{Desk, Refusal, Table};

// The bytes of as many sources as there can be.
const SOURCES_BYTES: usize = Table::SOURCES * Table::MAX_BYTES;

// Why a logbook was not rebuilt to its end: the refusal, how many stripes are good, and with a stall the count of steps made before it, else 0.
#[derive(Clone, Copy, Debug, PartialEq, Eq)]
pub struct BadLog {
    pub refusal: Refusal,
    pub good: u64,
    pub count: u64,
}

// A refusal with no stripe and no count.
impl From<Refusal> for BadLog {
    ghost from_gives = { λ r e. (e.refusal ≡ r) × (e.good ≡ 0) × (e.count ≡ 0) };

    fn from(refusal: Refusal) -> BadLog {
        BadLog {
            refusal,
            good: 0,
            count: 0,
        }
    }
}

// One stripe whose packets are its sources: 9, and the sources into out, which has their length; refused, out as it was.
fn stripe_of_sources(desk: &Desk, packets: &[u8], out: &mut [u8]) -> Result<u64, Unread>
    requires sources_alone { SourcesAlone (desk_of desk.now) }
    requires survivors { Survivors desk.now packets.now }
    requires out_len { length out.old ≡ sources_bytes (desk_of desk.now) }
    ensures { RebuildMade (desk_of desk.now) packets.now out.old (rebuild_number result) (rebuild_count result) out.new }
{
    if survivors::stray(desk, packets) {
        return Err(Unread::from(Refusal::Stray));
    }
    bits::known(packets);
    bits::copy_front(out, packets);
    Ok(0)
}

// One stripe by a plan for its missing sources: 9 and 10, and its sources into out, which has their length; refused, out as it was.
fn stripe_by_plan(
    desk: &Desk,
    plan: &Plan,
    missing: &Missing,
    packets: &[u8],
    out: &mut [u8],
) -> Result<u64, Unread>
    requires ready { Ready desk.now }
    requires planned { Planned (desk_of desk.now) (way_of plan.now.way) missing.now.count plan.now.rows missing.now.columns plan.now.rises }
    requires survivors { Survivors desk.now packets.now }
    requires out_len { length out.old ≡ sources_bytes (desk_of desk.now) }
    ensures { RebuildMade (desk_of desk.now) packets.now out.old (rebuild_number result) (rebuild_count result) out.new }
{
    let mut rows = [0u64; survivors::WORDS];
    let consistent = decode::solve_back(desk, plan, missing, packets, &mut rows);
    if survivors::stray(desk, packets) {
        return Err(Unread::from(Refusal::Stray));
    }
    if !consistent {
        return Err(Unread::from(Refusal::Foreign));
    }
    rebuild::store_sources(desk, &rows, out);
    Ok(missing.count as u64 * desk.source_bits() as u64)
}

// The stripes one after another, each made from its packets and put into its part of out, up to the first bad one.
fn in_turn<F: Fn(usize, &[u8], &mut [u8]) -> Result<u64, Unread>>(
    desk: &Desk,
    stripes: usize,
    packets: &[u8],
    out: &mut [u8],
    make: F,
) -> Result<u64, BadLog>
    requires le_stripes { (1 ≤ stripes) × (stripes ≤ max_stripes) }
    requires stripes { Stripes (desk_of desk.now) stripes packets.now }
    requires out_len { length out.old ≡ stripes * sources_bytes (desk_of desk.now) }
    requires takes { (t : ℕ) (own : Bor (List ℕ)) (part : MutBor (List ℕ)) → t < stripes → own.now ≡ stripe (desk_of desk.now) packets.now t
        → length part.now ≡ sources_bytes (desk_of desk.now) → F.pre make t own part }
    requires makes { (t : ℕ) (own : Bor (List ℕ)) (part : MutBor (List ℕ)) (made : _) (left : MutBor (List ℕ)) → t < stripes → own.now ≡ stripe (desk_of desk.now) packets.now t
        → F.post make t own part made left → RebuildMade (desk_of desk.now) own.now part.now (rebuild_number made) (rebuild_count made) left.now }
    ensures { LogDecided (desk_of desk.now) stripes packets.now out.old (log_number result) (log_good stripes result) (log_count result) out.new }
{
    let n = desk.bytes_of_survivors();
    let w = desk.sources_bytes();
    let mut count = 0;
    for t in 0..stripes {
        let from = t * n;
        let end = from + n;
        let to = t * w;
        let last = to + w;
        match make(t, &packets[from..end], &mut out[to..last]) {
            Ok(made) => count = made,
            Err(bad) => {
                return Err(BadLog {
                    refusal: bad.refusal,
                    good: t as u64,
                    count: bad.count,
                });
            }
        }
    }
    Ok(count)
}

// The stripes one after another, whose packets are their sources, up to the first bad one.
pub fn log_of_sources(
    desk: &Desk,
    stripes: usize,
    packets: &[u8],
    out: &mut [u8],
) -> Result<u64, BadLog>
    requires sources_alone { SourcesAlone (desk_of desk.now) }
    requires le_stripes { (1 ≤ stripes) × (stripes ≤ max_stripes) }
    requires stripes { Stripes (desk_of desk.now) stripes packets.now }
    requires out_len { length out.old ≡ stripes * sources_bytes (desk_of desk.now) }
    ensures { LogDecided (desk_of desk.now) stripes packets.now out.old (log_number result) (log_good stripes result) (log_count result) out.new }
{
    in_turn(desk, stripes, packets, out, |_, own, part| {
        stripe_of_sources(desk, own, part)
    })
}

// The stripes one after another, each by the plan if any source is missing, up to the first bad one.
pub fn log_by_plan(
    desk: &Desk,
    plan: &Plan,
    missing: &Missing,
    stripes: usize,
    packets: &[u8],
    out: &mut [u8],
) -> Result<u64, BadLog>
    requires ready { Ready desk.now }
    requires course { Course (desk_of desk.now) (way_of plan.now.way) missing.now.count plan.now.rows missing.now.columns plan.now.rises }
    requires le_stripes { (1 ≤ stripes) × (stripes ≤ max_stripes) }
    requires stripes { Stripes (desk_of desk.now) stripes packets.now }
    requires out_len { length out.old ≡ stripes * sources_bytes (desk_of desk.now) }
    ensures { LogDecided (desk_of desk.now) stripes packets.now out.old (log_number result) (log_good stripes result) (log_count result) out.new }
{
    if missing.count == 0 {
        return log_of_sources(desk, stripes, packets, out);
    }
    in_turn(desk, stripes, packets, out, |_, own, part| {
        stripe_by_plan(desk, plan, missing, own, part)
    })
}

// One stripe whose only candidates are these sources: 9 and 10, and the sources into out, which has their length; refused, out as it was.
fn stripe_of_candidate(
    desk: &Desk,
    count: u64,
    sources: &[u8],
    packets: &[u8],
    out: &mut [u8],
) -> Result<u64, Unread>
    requires finishes { Finishes (desk_of desk.now) count }
    requires survivors { Survivors desk.now packets.now }
    requires sources_len { length sources.now ≡ sources_bytes (desk_of desk.now) }
    requires by_index { (x : List ℕ) → EncodesTo (desk_of desk.now) packets.now x → x ≡ sources.now }
    requires out_len { length out.old ≡ sources_bytes (desk_of desk.now) }
    ensures { RebuildMade (desk_of desk.now) packets.now out.old (rebuild_number result) (rebuild_count result) out.new }
{
    if survivors::stray(desk, packets) {
        return Err(Unread::from(Refusal::Stray));
    }
    if !encode::same_packets(desk, sources, packets) {
        return Err(Unread::from(Refusal::Foreign));
    }
    bits::known(sources);
    bits::copy_front(out, sources);
    Ok(count)
}

// Stripe t, whose own packets are lent too, out of its lane: 9 and 10, and its sources into out, which has their length; refused, out as it was.
fn stripe_of_lane(
    log: &Log<'_>,
    words: &[u16],
    count: u64,
    t: usize,
    own: &[u8],
    out: &mut [u8],
) -> Result<u64, Unread>
    requires words_len { length words.now ≡ lane_words }
    requires t_lt_stripes { t < log.now.stripes }
    requires own { own.now ≡ stripe (desk_of log.now.desk.now) log.now.packets.now t }
    requires lanes_read { LanesRead (desk_of log.now.desk.now) log.now.packets.now log.now.stripes count true words.now }
    requires out_len { length out.old ≡ sources_bytes (desk_of log.now.desk.now) }
    ensures { RebuildMade (desk_of log.now.desk.now) own.now out.old (rebuild_number result) (rebuild_count result) out.new }
{
    let desk = log.desk;
    let mut room = [0u8; SOURCES_BYTES];
    let sources = &mut room[..desk.sources_bytes()];
    lanes::read_stripe(log, words, t, sources);
    bits::known(sources);
    stripe_of_candidate(desk, count, sources, own, out)
}

// The stripes one after another, each out of its lane, up to the first bad one.
pub fn log_of_lanes(log: &Log<'_>, words: &[u16], count: u64, out: &mut [u8]) -> Result<u64, BadLog>
    requires words_len { length words.now ≡ lane_words }
    requires some { 1 ≤ log.now.stripes }
    requires lanes_read { LanesRead (desk_of log.now.desk.now) log.now.packets.now log.now.stripes count true words.now }
    requires out_len { length out.old ≡ log.now.stripes * sources_bytes (desk_of log.now.desk.now) }
    ensures { LogDecided (desk_of log.now.desk.now) log.now.stripes log.now.packets.now out.old (log_number result) (log_good log.now.stripes result) (log_count result) out.new }
{
    in_turn(log.desk, log.stripes, log.packets, out, |t, own, part| {
        stripe_of_lane(log, words, count, t, own, part)
    })
}
