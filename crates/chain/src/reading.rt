// A run of blocks, looked at from its first block to its last, and then its bytes joined.
ghost use Rattle.std.specs.Prelude.{◌+◌, ◌≤◌, length};
ghost use Rattle.table.specs.Checks.{Checked};
ghost use Rattle.table.specs.Refusals.{told};
ghost use Rattle.card.specs.Block.{len};
ghost use Rattle.card.specs.Taken.{flag};
ghost use Rattle.chain.specs.Run.{first_checks, turn_checks, end_checks, link_checks};
ghost use Rattle.chain.specs.Reading.{BlockTold, RunTold, InformationPut, Fits, CarriedTo};

use table::Refusal;

// The first block of what is left: M, and how many bytes it carries.
#[derive(Clone, Copy)]
struct Block {
    more: bool,
    length: usize,
}

// 11 to 15 of the first block of what is left.
fn check_first(left: &[u8]) -> Result<(), Refusal>
    ensures { Checked (first_checks left.now) (told result) }
{
    card::check_framing(left)?;
    let end = card::information_length(left) + 4;
    if left.len() < end {
        return Err(Refusal::BlockLength);
    }
    card::check_content(&left[..end])
}

// 20, for N(S) and the turn.
fn check_turn(sequence: u64, turn: u64) -> Result<(), Refusal>
    ensures { Checked (turn_checks sequence turn) (told result) }
{
    if sequence != turn {
        return Err(Refusal::BlockTurn);
    }
    Ok(())
}

// 21, for M and so many bytes behind the block.
fn check_end(more: bool, bytes: usize) -> Result<(), Refusal>
    ensures { Checked (end_checks (flag more) bytes) (told result) }
{
    if more == (bytes == 0) {
        return Err(Refusal::BlockEnd);
    }
    Ok(())
}

// 20 and 21 of the first block of what is left.
fn check_link(left: &[u8], turn: u64) -> Result<(), Refusal>
    requires { len left.now + 4 ≤ length left.now }
    ensures { Checked (link_checks turn left.now) (told result) }
{
    let bytes = left.len() - card::information_length(left) - 4;
    check_turn(card::sequence_of(left), turn)?;
    check_end(card::more_of(left), bytes)
}

// 11 to 21 of the first block of what is left.
fn check_block(left: &[u8], turn: u64) -> Result<Block, Refusal>
    ensures { BlockTold turn left.now result }
{
    check_first(left)?;
    check_link(left, turn)?;
    Ok(Block {
        more: card::more_of(left),
        length: card::information_length(left),
    })
}

// 11 to 21 of all blocks of a run, one after another, from N(S) = 0 on, and how many bytes they carry.
pub fn check_run(run: &[u8]) -> Result<usize, Refusal>
    ensures { RunTold run.now result }
{
    bits::known(run);
    let mut left = run;
    let mut turn = 0;
    let mut joined = 0;
    loop {
        let block = check_block(left, turn)?;
        joined += block.length;
        if !block.more {
            return Ok(joined);
        }
        left = &left[block.length + 4..];
        turn = 1 - turn;
    }
}

// Puts the information bytes of the first block of what is left behind what stands before end, and
// gives how many they are.
fn put_information(dest: &mut [u8], end: usize, left: &[u8]) -> usize
    requires { (len left.now + 4 ≤ length left.now) × (end + len left.now ≤ length dest.old) }
    ensures { InformationPut dest.old end left.now result dest.new }
{
    let length = card::information_length(left);
    let stop = 3 + length;
    text::put(dest, end, &left[3..stop]);
    length
}

// Joins what the blocks of a run carry at the front of dest.
pub fn join(run: &[u8], dest: &mut [u8])
    requires { Fits run.now (length dest.old) }
    ensures { CarriedTo run.now dest.old dest.new }
{
    let mut left = run;
    let mut end = 0;
    loop {
        let length = put_information(dest, end, left);
        if !card::more_of(left) {
            return;
        }
        end += length;
        left = &left[length + 4..];
    }
}
