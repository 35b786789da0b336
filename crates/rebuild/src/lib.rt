// Rebuilding: the sources read back from any k packets.
#![tactic(auto)]

ghost use Rattle.std.specs.Prelude.{◌≡◌, [], length, ℕ, ◌≤◌, OnOk};
ghost use Rattle.rows.specs.Rows.{row_in};
ghost use Rattle.table.specs.Limits.{max_k, max_length};
ghost use Rattle.table.specs.Desk.{desk, sources_bytes};
ghost use Rattle.table.specs.Desks.{Ready, Survivors, desk_of};
ghost use Rattle.survivors.specs.Remainders.{Roomy, sources_in, InBytes, NoRest};
ghost use Rattle.rebuild.specs.Stages.{Recovered, RebuildMade, RebuildGiven};
ghost use Rattle.rebuild.specs.Promise.{Rebuilt};
ghost use Rattle.rebuild.specs.Parts.{rebuild_number, rebuild_count};

use table::{Desk, Refusal};

// Why no sources were read: the refusal, and with a stall the count of steps made before it, else 0.
#[derive(Clone, Copy, Debug, PartialEq, Eq)]
pub struct Unread {
    pub refusal: Refusal,
    pub count: u64,
}

// A refusal with no count.
impl From<Refusal> for Unread {
    ghost from_gives = { λ r e. (e.refusal ≡ r) × (e.count ≡ 0) };

    fn from(refusal: Refusal) -> Unread {
        Unread { refusal, count: 0 }
    }
}

// The refusal alone.
impl From<Unread> for Refusal {
    ghost from_gives = { λ e r. r ≡ e.refusal };

    fn from(unread: Unread) -> Refusal {
        unread.refusal
    }
}

// 8, 9 and 10, and the sources that encode to the packets, in rows that were noughts; then nothing is left of any parity. Gives the count of steps.
pub fn recover(desk: &Desk, packets: &[u8], rows: &mut [u64]) -> Result<u64, Unread>
    requires ready { Ready desk.now }
    requires survivors { Survivors desk.now packets.now }
    requires roomy { Roomy rows.old }
    requires by_index { (i p : ℕ) → row_in rows.old i p ≡ 0 }
    ensures recovered { Recovered (desk_of desk.now) packets.now (rebuild_number result) (rebuild_count result) (sources_in (desk_of desk.now) rows.new) }
    ensures in_bytes { InBytes (desk_of desk.now) rows.new × OnOk result (NoRest (desk_of desk.now) rows.new) }
{
    let d = decode::read_back(desk, packets, rows);
    if !d.whole {
        return Err(Unread {
            refusal: Refusal::Stall,
            count: d.count,
        });
    }
    if survivors::stray(desk, packets) {
        return Err(Unread::from(Refusal::Stray));
    }
    if !d.consistent {
        return Err(Unread::from(Refusal::Foreign));
    }
    Ok(d.count)
}

// The k sources of so many bytes that stand in the rows into out, which has their length.
pub fn put_sources(k: usize, l: usize, rows: &[u64], out: &mut [u8])
    requires k_le_max_k { k ≤ max_k }
    requires l_le_max_length { l ≤ max_length }
    requires roomy { Roomy rows.now }
    requires out_len { length out.old ≡ sources_bytes (desk k 0 l [] 0) }
    ensures { out.new ≡ sources_in (desk k 0 l [] 0) rows.now }
{
    let bytes = table::packets::source_bytes(l);
    for c in 0..k {
        rows::bytes::store(rows, c, out, c * bytes, bytes);
    }
    bits::known(out);
}

// The sources of a desk in the rows into out, which has their length.
pub fn store_sources(desk: &Desk, rows: &[u64], out: &mut [u8])
    requires roomy { Roomy rows.now }
    requires out_len { length out.old ≡ sources_bytes (desk_of desk.now) }
    ensures { out.new ≡ sources_in (desk_of desk.now) rows.now }
{
    put_sources(desk.k, desk.length, rows, out);
}

// 8, 9 and 10, and the sources into out, which has their length; refused, out as it was.
fn rebuild_into(desk: &Desk, packets: &[u8], out: &mut [u8]) -> Result<u64, Unread>
    requires ready { Ready desk.now }
    requires survivors { Survivors desk.now packets.now }
    requires out_len { length out.old ≡ sources_bytes (desk_of desk.now) }
    ensures { RebuildMade (desk_of desk.now) packets.now out.old (rebuild_number result) (rebuild_count result) out.new }
{
    let mut rows = [0u64; survivors::WORDS];
    let count = recover(desk, packets, &mut rows)?;
    store_sources(desk, &rows, out);
    Ok(count)
}

// 4 and 5, and what is left of rebuild.
fn rebuild_lent(desk: &Desk, packets: &[u8], out: &mut [u8]) -> Result<u64, Unread>
    requires ready { Ready desk.now }
    ensures { RebuildGiven (desk_of desk.now) packets.now out.old (rebuild_number result) (rebuild_count result) out.new }
{
    checks::check_lengths(
        packets,
        desk.bytes_of_survivors(),
        out,
        desk.sources_bytes(),
    )?;
    rebuild_into(desk, packets, out)
}

// All sources from the packets at hand, in order, and the count of steps.
pub fn rebuild(
    k: u64,
    m: u64,
    l: u64,
    table: &[u8],
    marks: u64,
    packets: &[u8],
    out: &mut [u8],
) -> Result<u64, Unread>
    ensures { Rebuilt k m l table.now marks packets.now out.old (rebuild_number result) (rebuild_count result) out.new }
{
    let desk = checks::open_marked(k, m, l, table, marks)?;
    rebuild_lent(&desk, packets, out)
}
