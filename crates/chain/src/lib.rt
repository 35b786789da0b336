// Chained blocks: a run of blocks read into one packet, and a packet written as a run of blocks.
#![tactic(auto)]

mod reading;
mod writing;

ghost use Rattle.std.specs.Prelude.{◌≡◌};
ghost use Rattle.table.specs.Refusals.{told, given};
ghost use Rattle.chain.specs.Cut.{blocks_longest};
ghost use Rattle.chain.specs.Promise.{BlocksRead, BlocksWritten};

use table::{Refusal, Table};

// The blocks of one packet.
#[derive(Drop)]
pub struct Blocks {}

impl Blocks {
    // The most information bytes of one block.
    pub const MAX_INFORMATION: u64 = 254;

    // The most bytes that they have together: a block of 5 for each byte of the longest packet.
    pub const LONGEST: usize = 5 * Table::LONGEST;

    // That limit, which the definitions state too.
    pub fn longest() -> usize
        ensures { result ≡ blocks_longest }
    {
        Blocks::LONGEST
    }
}

// Reads a run of blocks, N(S) from 0 on: what they carry goes to the front of dest, joined, and the
// rest of dest stays. Gives how many bytes they carry. The whole run is checked before anything is written.
pub fn read_blocks(run: &[u8], dest: &mut [u8]) -> Result<u64, Refusal>
    ensures { BlocksRead run.now dest.old (told result) (given result) dest.new }
{
    let length = crate::reading::check_run(run)?;
    if dest.len() < length {
        return Err(Refusal::Room);
    }
    crate::reading::join(run, dest);
    Ok(length as u64)
}

// Writes a packet as a run of blocks that carry size bytes each, the last one possibly fewer, to the
// front of dest; the rest of dest stays. Gives how many bytes the blocks have.
pub fn write_blocks(packet: &[u8], size: u64, dest: &mut [u8]) -> Result<u64, Refusal>
    ensures { BlocksWritten packet.now size dest.old (told result) (given result) dest.new }
{
    crate::writing::check_write(packet, size, dest.len())?;
    let length = crate::writing::cut(packet, size as usize, dest);
    Ok(length as u64)
}
