// What lies on the desk of a call.
ghost use Rattle.table.specs.Table.{Within, Measured};

use crate::Table;

// k sources of so many bytes, m parities, the shifts of their table, laid out eight to a row, and how far each parity reaches: all within the limits. And the marks of the packets at hand,
// none on a desk that is new.
#[derive(Clone, Copy)]
pub struct Desk {
    pub k: usize,
    pub m: usize,
    pub length: usize,
    pub marks: u64,
    pub shifts: [u8; Table::CELLS],
    pub reaches: [u8; Table::PARITIES],
    ghost within: { Within k m length shifts },
    ghost measured: { Measured k m shifts reaches },
}
