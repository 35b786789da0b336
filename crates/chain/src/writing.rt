// A packet cut into blocks.
ghost use Rattle.std.specs.Prelude.{◌≡◌, ◌+◌, ◌≤◌, ◌<◌, length};
ghost use Rattle.table.specs.Limits.{longest};
ghost use Rattle.table.specs.Checks.{Checked};
ghost use Rattle.table.specs.Refusals.{told};
ghost use Rattle.card.specs.Block.{max_information};
ghost use Rattle.chain.specs.Cut.{cut_size_checks, cut_into, write_checks};
ghost use Rattle.chain.specs.Writing.{BlockPut, BlocksPut};

use crate::Blocks;
use table::{Refusal, Table};

// 36.
fn check_cut_size(size: u64) -> Result<(), Refusal>
    ensures { Checked (cut_size_checks size) (told result) }
{
    if size < 1 {
        return Err(Refusal::Cut);
    }
    if Blocks::MAX_INFORMATION < size {
        return Err(Refusal::Cut);
    }
    Ok(())
}

// The bytes of all blocks of a packet, of which there is one even where it is empty.
fn blocks_length(packet: &[u8], size: usize) -> usize
    requires { (1 ≤ size) × (length packet.now ≤ longest) }
    ensures { result ≡ length (cut_into size packet.now) }
{
    if packet.len() <= size {
        return packet.len() + 4;
    }
    packet.len() + 4 * ((packet.len() - 1) / size + 1)
}

// 36, 4 and 16.
pub fn check_write(packet: &[u8], size: u64, room: usize) -> Result<(), Refusal>
    ensures { Checked (write_checks packet.now size room) (told result) }
{
    check_cut_size(size)?;
    if Table::LONGEST < packet.len() {
        return Err(Refusal::Input);
    }
    if room < blocks_length(packet, size as usize) {
        return Err(Refusal::Room);
    }
    Ok(())
}

// Puts one block behind what stands before at: NAD, PCB, LEN, the information bytes, and the XOR of all.
fn put_block(dest: &mut [u8], at: usize, sequence: u8, more: u8, info: &[u8]) -> usize
    requires info_in_bounds { at + length info.now + 4 ≤ length dest.old }
    requires sequence_bound { (sequence < 2) × (more < 2) × (length info.now ≤ max_information) }
    ensures { BlockPut dest.old at sequence more info.now result dest.new }
{
    let pcb = 0x40 * sequence + 0x20 * more;
    let len = info.len() as u8;
    let lrc = pcb ^ (len ^ bits::xor_all(info));
    let mut end = text::put_byte(dest, at, 0x00);
    end = text::put_byte(dest, end, pcb);
    end = text::put_byte(dest, end, len);
    end = text::put(dest, end, info);
    text::put_byte(dest, end, lrc)
}

// Cuts a packet into blocks of size bytes, with M as long as more are left, at the front of dest.
pub fn cut(packet: &[u8], size: usize, dest: &mut [u8]) -> usize
    requires le_size { (1 ≤ size) × (size ≤ max_information) }
    requires packet_in_bounds { length (cut_into size packet.now) ≤ length dest.old }
    ensures { BlocksPut size packet.now dest.old result dest.new }
{
    let mut left = packet;
    let mut end = 0;
    let mut turn: u8 = 0;
    while size < left.len() {
        end = put_block(dest, end, turn, 1, &left[..size]);
        left = &left[size..];
        turn = 1 - turn;
    }
    put_block(dest, end, turn, 0, left)
}
