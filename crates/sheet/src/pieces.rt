// The pieces that the class sheet prints, each at the front of a lent buffer; and how many bytes each has, where it was printed.
ghost use Rattle.std.specs.Prelude.{IfSome, ◌≤◌};
ghost use Rattle.sheet.specs.Printing.{header, refusal};
ghost use Rattle.sheet.specs.Promise.{Printed, RowPrinted};
ghost use Rattle.sheet.specs.Given.{count_of};

use crate::{steps, writing};
use choices::Choice;
use line::Line;

// As many bytes as each piece has room in. With less room none is printed.
pub const ROOM: usize = 64;

// The first line of the sheet.
pub fn header(out: &mut [u8]) -> Option<usize>
    ensures printed { Printed header out.old (count_of result) out.new }
    ensures some { IfSome result (λ n. 1 ≤ n) }
{
    if out.len() < ROOM {
        return None;
    }
    Some(text::put(out, 0, b"ids steps\n"))
}

// The only line where the input is refused.
pub fn refusal(number: u64, out: &mut [u8]) -> Option<usize>
    ensures printed { Printed (refusal number) out.old (count_of result) out.new }
    ensures some { IfSome result (λ n. 1 ≤ n) }
{
    if out.len() < ROOM {
        return None;
    }
    let word = text::put(out, 0, b"refused ");
    let end = text::put_numeral(out, word, number);
    Some(text::put_byte(out, end, b'\n'))
}

// The line of the choice c: its numbers, and the count of steps with the house table. Where c is no choice of the line's size, nothing.
pub fn row(line: Line, c: Choice, out: &mut [u8]) -> Option<usize>
    ensures printed { RowPrinted line.k line.m line.l c.ids out.old (count_of result) out.new }
    ensures some { IfSome result (λ n. 1 ≤ n) }
{
    if !choices::is_choice(line.k, line.m, c) {
        return None;
    }
    let steps = steps::count_steps(line, c.ids).ok()?;
    if out.len() < ROOM {
        return None;
    }
    let last = writing::put_ids(out, c.ids, line.k as usize);
    let count = text::put_byte(out, last, b' ');
    let end = text::put_numeral(out, count, steps);
    Some(text::put_byte(out, end, b'\n'))
}
