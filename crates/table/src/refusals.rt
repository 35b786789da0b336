// Why a call is refused: the list of numbers, one name each.
ghost use Rattle.std.specs.Prelude.{◌≡◌};
ghost use Rattle.table.specs.Refusals.{number_of, told};

use std::fmt;

#[derive(Clone, Copy, Debug, PartialEq, Eq)]
pub enum Refusal {
    // k or m is 0 or above its limit
    Size = 1,

    // the length is 0 or above its limit
    Length = 2,

    // the table is not m·k bytes, or an entry is above the largest shift
    Table = 3,

    // an input buffer has not the exact length, or a packet to be cut is longer than the longest
    Input = 4,

    // an output buffer has not the exact length
    Output = 5,

    // a packet number is outside 1 to n, a source number outside 1 to k, or a mark above n is set
    Packet = 6,

    // the marks are not exactly k
    Marks = 7,

    // no order of steps finishes all missing sources
    Stall = 8,

    // a parity at hand has a one above its last bit
    Stray = 9,

    // no sources encode to these packets
    Foreign = 10,

    // a block has fewer than 4 bytes; in a run, fewer are left
    BlockShort = 11,

    // a block's LEN is 255, which is reserved
    BlockReserved = 12,

    // a block's length is not LEN + 4; in a run, fewer bytes than that are left
    BlockLength = 13,

    // the XOR of all bytes of a block is not 0
    BlockSum = 14,

    // a block's NAD is not 00, or its PCB is none of 00 20 40 60
    BlockHeader = 15,

    // the destination is shorter than what is to be put there
    Room = 16,

    // progress above the bits of a source, or not zero for a source present or a number above k
    Progress = 17,

    // the class sheet's input is not exactly one line of its form
    Line = 18,

    // the family is not one of those that there are
    Family = 19,

    // a block's N(S) is out of turn in its run
    BlockTurn = 20,

    // a run of blocks ends with M set, or goes on after a block without it
    BlockEnd = 21,

    // the two lists of steps differ in length
    StepsUnequal = 22,

    // a step of the list is not bare when its turn comes
    StepNotBare = 23,

    // the list of steps ends before all missing sources are whole
    StepsEarly = 24,

    // the stripes are none or above their limit
    Stripes = 25,

    // the size to cut a packet by is not 1 to 254
    Cut = 36,
}

impl Refusal {
    // The number of a call that is not refused.
    pub const DONE: u64 = 0;

    // The number of the list.
    pub fn number(self) -> u64
        ensures { result ≡ number_of self }
    {
        self as u64
    }
}

// A refusal is told by its number.
impl fmt::Display for Refusal {
    fn fmt<W: fmt::Write>(&self, f: &mut fmt::Formatter<W>) -> fmt::Result {
        write!(f, "{}", self.number())
    }
}

// The number that an answer tells: the refusal's, or 0 where there is none.
pub fn told<T>(answer: &Result<T, Refusal>) -> u64
    ensures { result ≡ told answer.now }
{
    match answer {
        Ok(_) => Refusal::DONE,
        Err(refusal) => refusal.number(),
    }
}
