// Prints the limits of the shift table's type and of blocks, the families and the list of numbers as C macros:
// include/windhawker_limits.h is this program's output.
#![tactic(auto)]

use chain::Blocks;
use std::io;
use table::{Family, Refusal, Table};

// A macro's name, without WH_, and its value.
type Macro = (&'static str, u64);

const LIMITS: [Macro; 9] = [
    ("MAX_K", Table::MAX_K),
    ("MAX_M", Table::MAX_M),
    ("MAX_LENGTH", Table::MAX_LENGTH),
    ("MAX_SHIFT", Table::MAX_SHIFT as u64),
    ("LONGEST", Table::LONGEST as u64),
    ("FAMILIES", Table::FAMILIES),
    ("MAX_STRIPES", Table::MAX_STRIPES),
    ("MAX_INFORMATION", Blocks::MAX_INFORMATION),
    ("BLOCKS_LONGEST", Blocks::LONGEST as u64),
];

const FAMILIES: [Macro; 3] = [
    ("HOUSE", Family::House as u64),
    ("HANKEL", Family::Hankel as u64),
    ("VANDERMONDE", Family::Vandermonde as u64),
];

const NUMBERS: [Macro; 27] = [
    ("DONE", Refusal::DONE),
    ("SIZE", Refusal::Size as u64),
    ("LENGTH", Refusal::Length as u64),
    ("TABLE", Refusal::Table as u64),
    ("INPUT", Refusal::Input as u64),
    ("OUTPUT", Refusal::Output as u64),
    ("PACKET", Refusal::Packet as u64),
    ("MARKS", Refusal::Marks as u64),
    ("STALL", Refusal::Stall as u64),
    ("STRAY", Refusal::Stray as u64),
    ("FOREIGN", Refusal::Foreign as u64),
    ("BLOCK_SHORT", Refusal::BlockShort as u64),
    ("BLOCK_RESERVED", Refusal::BlockReserved as u64),
    ("BLOCK_LENGTH", Refusal::BlockLength as u64),
    ("BLOCK_SUM", Refusal::BlockSum as u64),
    ("BLOCK_HEADER", Refusal::BlockHeader as u64),
    ("ROOM", Refusal::Room as u64),
    ("PROGRESS", Refusal::Progress as u64),
    ("LINE", Refusal::Line as u64),
    ("FAMILY", Refusal::Family as u64),
    ("BLOCK_TURN", Refusal::BlockTurn as u64),
    ("BLOCK_END", Refusal::BlockEnd as u64),
    ("STEPS_UNEQUAL", Refusal::StepsUnequal as u64),
    ("STEP_NOT_BARE", Refusal::StepNotBare as u64),
    ("STEPS_EARLY", Refusal::StepsEarly as u64),
    ("STRIPES", Refusal::Stripes as u64),
    ("CUT", Refusal::Cut as u64),
];

// A heading, a macro a line, and an empty line.
fn print_macros(rt: &impl Print, heading: &str, macros: &[Macro]) -> io::Result<()> {
    println!(rt; "/* {heading} */")?;
    for (name, value) in macros {
        println!(rt; "#define WH_{name} {value}")?;
    }
    println!(rt)
}

fn main(rt: HostRuntime) -> io::Result<()> {
    println!(rt;
        "/* Printed by the program limits, from the constants of the crates table and chain. */\n"
    )?;
    println!(rt; "#ifndef WINDHAWKER_LIMITS_H\n#define WINDHAWKER_LIMITS_H\n")?;
    print_macros(
        &rt,
        "The limits of the shift table's type, and of a packet's blocks.",
        &LIMITS,
    )?;
    print_macros(&rt, "The families of shift tables.", &FAMILIES)?;
    print_macros(&rt, "The list of numbers.", &NUMBERS)?;
    println!(rt; "#endif")
}
