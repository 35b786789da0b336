// The card layer: one T=1 block as a reader hands it over.
#![tactic(auto)]

ghost use Rattle.std.specs.Prelude.{◌≡◌, length, ◌+◌, ◌≤◌, ◌<◌};
ghost use Rattle.table.specs.Checks.{Checked};
ghost use Rattle.table.specs.Refusals.{told};
ghost use Rattle.card.specs.Block.{len, sequence_of, more_of, framing_checks, block_length_checks, content_checks, room_checks, form_checks, block_checks};
ghost use Rattle.card.specs.Taken.{flag, length_taken, sequence_taken, more_taken};
ghost use Rattle.card.specs.Promise.{BlockTaken};

use table::Refusal;

// What a block gives: how many information bytes there are, N(S) and M.
#[derive(Clone, Copy, Debug, PartialEq, Eq)]
pub struct Taken {
    pub length: u64,
    pub sequence: u64,
    pub more: bool,
}

// The number of information bytes that LEN tells.
pub fn information_length(block: &[u8]) -> usize
    requires { 4 ≤ length block.now }
    ensures { (result ≡ len block.now) × (result < 256) }
{
    usize::from(block[2])
}

// N(S), the send-sequence bit of the PCB.
pub fn sequence_of(block: &[u8]) -> u64
    requires { 4 ≤ length block.now }
    ensures { result ≡ sequence_of block.now }
{
    u64::from(block[1] / 0x40 % 2)
}

// M, the more-data bit of the PCB.
pub fn more_of(block: &[u8]) -> bool
    requires { 4 ≤ length block.now }
    ensures { flag result ≡ more_of block.now }
{
    block[1] / 0x20 % 2 == 1
}

// 11 and 12.
pub fn check_framing(block: &[u8]) -> Result<(), Refusal>
    ensures { Checked (framing_checks block.now) (told result) }
{
    if block.len() < 4 {
        return Err(Refusal::BlockShort);
    }
    if information_length(block) == 255 {
        return Err(Refusal::BlockReserved);
    }
    Ok(())
}

// 13.
fn check_block_length(block: &[u8]) -> Result<(), Refusal>
    requires { 4 ≤ length block.now }
    ensures { Checked (block_length_checks block.now) (told result) }
{
    if block.len() != information_length(block) + 4 {
        return Err(Refusal::BlockLength);
    }
    Ok(())
}

// 14 and 15.
pub fn check_content(block: &[u8]) -> Result<(), Refusal>
    requires { 4 ≤ length block.now }
    ensures { Checked (content_checks block.now) (told result) }
{
    if bits::xor_all(block) != 0 {
        return Err(Refusal::BlockSum);
    }
    if block[0] != 0x00 {
        return Err(Refusal::BlockHeader);
    }
    match block[1] {
        0x00 | 0x20 | 0x40 | 0x60 => Ok(()),
        _ => Err(Refusal::BlockHeader),
    }
}

// 16, for so many information bytes and so much room.
fn check_room(length: usize, room: usize) -> Result<(), Refusal>
    ensures { Checked (room_checks length room) (told result) }
{
    if room < length {
        return Err(Refusal::Room);
    }
    Ok(())
}

// 11 to 15.
fn check_form(block: &[u8]) -> Result<(), Refusal>
    ensures { Checked (form_checks block.now) (told result) }
{
    check_framing(block)?;
    check_block_length(block)?;
    check_content(block)
}

// 11 to 16.
fn check_block(block: &[u8], room: usize) -> Result<(), Refusal>
    ensures { Checked (block_checks block.now room) (told result) }
{
    check_form(block)?;
    check_room(information_length(block), room)
}

// Takes one block: its information bytes go to the front of dest, and the rest of dest stays. With M
// it is not a whole packet: more is to come.
pub fn block(block: &[u8], dest: &mut [u8]) -> Result<Taken, Refusal>
    ensures { BlockTaken block.now dest.old (told result) (length_taken result) (sequence_taken result) (more_taken result) dest.new }
{
    check_block(block, dest.len())?;
    let length = information_length(block);
    let end = 3 + length;
    bits::copy_front(dest, &block[3..end]);
    Ok(Taken {
        length: length as u64,
        sequence: sequence_of(block),
        more: more_of(block),
    })
}
