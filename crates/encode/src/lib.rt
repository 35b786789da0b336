// Encoding all parities; and how long packets are.
#![tactic(auto)]

ghost use Rattle.std.specs.Prelude.{◌≡◌, ◌+◌, ◌<◌, length};
ghost use Rattle.bits.specs.Bits.{Tells};
ghost use Rattle.table.specs.Desk.{sources_bytes, packet_bytes};
ghost use Rattle.table.specs.Desks.{Survivors, desk_of};
ghost use Rattle.table.specs.Refusals.{told, given};
ghost use Rattle.code.specs.Code.{packet_of, survivors_of};
ghost use Rattle.encode.specs.Stages.{AllGiven, LengthGiven};
ghost use Rattle.encode.specs.Promise.{EncodedAll, PacketMeasured, ParitiesMeasured, SurvivorsMeasured};

use table::{Desk, Refusal, Table};

// 4 and 5, and all parities of the sources.
fn all_parities(desk: &Desk, sources: &[u8], out: &mut [u8]) -> Result<(), Refusal>
    ensures { AllGiven (desk_of desk.now) sources.now out.old (told result) out.new }
{
    checks::check_lengths(sources, desk.sources_bytes(), out, desk.bytes_of_parities())?;
    code::encode_parities(desk, sources, out);
    Ok(())
}

// All parities of the sources, in order. The desk is laid where it is used.
pub fn encode_all(
    k: u64,
    m: u64,
    l: u64,
    table: &[u8],
    sources: &[u8],
    out: &mut [u8],
) -> Result<(), Refusal>
    ensures { EncodedAll k m l table.now sources.now out.old (told result) out.new }
{
    checks::check_shape(k, m, l, table)?;
    let mut desk = Desk::least();
    desk.lay(k, m, l, table);
    all_parities(&desk, sources, out)
}

// 6, and the bytes of the packet of the given number, from 1.
fn one_length(desk: &Desk, packet: u64) -> Result<u64, Refusal>
    ensures { LengthGiven (desk_of desk.now) packet (told result) (given result) }
{
    checks::check_one_of((desk.k + desk.m) as u64, packet)?;
    let bytes = desk.bytes_of(packet as usize - 1);
    Ok(bytes as u64)
}

// The bytes of the packet of the given number, from 1.
pub fn packet_length(k: u64, m: u64, l: u64, table: &[u8], packet: u64) -> Result<u64, Refusal>
    ensures { PacketMeasured k m l table.now packet (told result) (given result) }
{
    checks::check_shape(k, m, l, table)?;
    let mut desk = Desk::least();
    desk.lay(k, m, l, table);
    one_length(&desk, packet)
}

// The bytes of all parities together.
pub fn parities_length(k: u64, m: u64, l: u64, table: &[u8]) -> Result<u64, Refusal>
    ensures { ParitiesMeasured k m l table.now (told result) (given result) }
{
    checks::check_shape(k, m, l, table)?;
    let mut desk = Desk::least();
    desk.lay(k, m, l, table);
    Ok(desk.bytes_of_parities() as u64)
}

// The bytes of all packets that the marks name.
pub fn survivors_length(k: u64, m: u64, l: u64, table: &[u8], marks: u64) -> Result<u64, Refusal>
    ensures { SurvivorsMeasured k m l table.now marks (told result) (given result) }
{
    let desk = checks::open_marked(k, m, l, table, marks)?;
    Ok(desk.bytes_of_survivors() as u64)
}

// Whether packet i, from 0, of the sources is this one, which is as long as it is.
fn same_packet(desk: &Desk, i: usize, sources: &[u8], packet: &[u8]) -> bool
    requires i_bound { i < desk.now.k + desk.now.m }
    requires sources_len { length sources.now ≡ sources_bytes (desk_of desk.now) }
    requires packet_len { length packet.now ≡ packet_bytes (desk_of desk.now) i }
    ensures { Tells result (packet.now ≡ packet_of (desk_of desk.now) sources.now i) }
{
    let n = packet.len();
    let mut made = [0u8; Table::LONGEST];
    code::encode_packet(desk, i, sources, &mut made[..n]);
    bits::same(packet, &made[..n])
}

// Whether the packets at hand are those of the sources; each is made alone.
pub fn same_packets(desk: &Desk, sources: &[u8], packets: &[u8]) -> bool
    requires sources_len { length sources.now ≡ sources_bytes (desk_of desk.now) }
    requires survivors { Survivors desk.now packets.now }
    ensures { Tells result (packets.now ≡ survivors_of (desk_of desk.now) sources.now) }
{
    let n = desk.k + desk.m;
    let mut from = 0;
    let mut i = table::packets::next_present(desk.marks, 0, n);
    while i < n {
        let end = from + desk.bytes_of(i);
        if !same_packet(desk, i, sources, &packets[from..end]) {
            return false;
        }
        from = end;
        i = table::packets::next_present(desk.marks, i + 1, n);
    }
    true
}
