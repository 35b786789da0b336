// Any packet, from any k packets at hand. Where these are the sources it is encoded from them; else from the sources that are read back.
#![tactic(auto)]

ghost use Rattle.std.specs.Prelude.{◌≡◌, true, length, ℕ, ◌+◌, ◌<◌};
ghost use Rattle.table.specs.Desk.{mark, packet_bytes};
ghost use Rattle.table.specs.Desks.{Ready, Survivors, desk_of};
ghost use Rattle.table.specs.Refusals.{told};
ghost use Rattle.code.specs.Code.{packet_of};
ghost use Rattle.survivors.specs.Remainders.{Roomy, sources_in, InBytes, NoRest};
ghost use Rattle.packet.specs.Stages.{ExactlyK, PacketDecided, PacketLent};
ghost use Rattle.packet.specs.Promise.{PacketMade};

use table::{Desk, Refusal};

// Packet i, from 0, of the sources in the rows, into out, which is as long as it is: a source stands in its row, and a parity is added up in its own.
fn encode_rows(desk: &Desk, i: usize, rows: &mut [u64], out: &mut [u8])
    requires i_bound { i < desk.now.k + desk.now.m }
    requires roomy { Roomy rows.old }
    requires in_bytes { InBytes (desk_of desk.now) rows.old }
    requires no_rest { NoRest (desk_of desk.now) rows.old }
    requires out_len { length out.old ≡ packet_bytes (desk_of desk.now) i }
    ensures { out.new ≡ packet_of (desk_of desk.now) (sources_in (desk_of desk.now) rows.old) i }
{
    survivors::add_to_rests(desk, 1 << i, u64::MAX, rows);
    rows::bytes::store(rows, i, out, 0, out.len());
    bits::known(out);
}

// 8, 9 and 10, and packet i, from 0, of the sources read back, into out, which is as long as it is; refused, out as it was.
fn read_back(desk: &Desk, packets: &[u8], i: usize, out: &mut [u8]) -> Result<(), Refusal>
    requires ready { Ready desk.now }
    requires survivors { Survivors desk.now packets.now }
    requires i_bound { i < desk.now.k + desk.now.m }
    requires out_len { length out.old ≡ packet_bytes (desk_of desk.now) i }
    ensures { PacketDecided (desk_of desk.now) packets.now i out.old (told result) out.new }
{
    let mut rows = [0u64; survivors::WORDS];
    rebuild::recover(desk, packets, &mut rows)?;
    encode_rows(desk, i, &mut rows, out);
    Ok(())
}

// The same where k packets are at hand and no source is missing: they are the sources, and 8, 9 and 10 cannot occur.
fn packet_of_sources(desk: &Desk, packets: &[u8], i: usize, out: &mut [u8])
    requires ready { Ready desk.now }
    requires exactly_k { ExactlyK (desk_of desk.now) }
    requires by_index { (c : ℕ) → c < desk.now.k → mark desk.now.marks c ≡ true }
    requires survivors { Survivors desk.now packets.now }
    requires i_bound { i < desk.now.k + desk.now.m }
    requires out_len { length out.old ≡ packet_bytes (desk_of desk.now) i }
    ensures { PacketDecided (desk_of desk.now) packets.now i out.old 0 out.new }
{
    bits::known(packets);
    code::encode_packet(desk, i, packets, out);
}

// What is left of packet after 6 and 7, for packet i, from 0: 4 and 5, and the packet of the sources at hand, else of those read back.
fn packet_lent(desk: &Desk, packets: &[u8], i: usize, out: &mut [u8]) -> Result<(), Refusal>
    requires ready { Ready desk.now }
    requires exactly_k { ExactlyK (desk_of desk.now) }
    requires i_bound { i < desk.now.k + desk.now.m }
    ensures { PacketLent (desk_of desk.now) packets.now i out.old (told result) out.new }
{
    checks::check_lengths(packets, desk.bytes_of_survivors(), out, desk.bytes_of(i))?;
    let missing = table::packets::next_missing(desk.marks, 0, desk.k);
    if missing == desk.k {
        packet_of_sources(desk, packets, i, out);
        return Ok(());
    }
    read_back(desk, packets, i, out)
}

// The packet of the wanted number, from 1, encoded from the sources that the packets at hand give. The desk is laid where it is used: a board that is handed one in an answer copies it byte by byte.
pub fn packet(
    k: u64,
    m: u64,
    l: u64,
    table: &[u8],
    marks: u64,
    packets: &[u8],
    wanted: u64,
    out: &mut [u8],
) -> Result<(), Refusal>
    ensures { PacketMade k m l table.now marks packets.now wanted out.old (told result) out.new }
{
    checks::check_shape(k, m, l, table)?;
    let mut desk = Desk::least();
    desk.lay(k, m, l, table);
    checks::check_asked(desk.k, desk.m, marks, desk.k + desk.m, wanted)?;
    desk.put_marks(marks);
    packet_lent(&desk, packets, wanted as usize - 1, out)
}
