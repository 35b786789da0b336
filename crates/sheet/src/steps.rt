// The count of steps of a choice, as the walk gives it.
ghost use Rattle.std.specs.Prelude.{◌≡◌, ◌+◌, ◌*◌, ◌≤◌, length, take};
ghost use Rattle.table.specs.Limits.{max_k, max_m};
ghost use Rattle.table.specs.Checks.{Checked, size_checks};
ghost use Rattle.table.specs.Refusals.{told, given};
ghost use Rattle.family.specs.Promise.{HouseTable};
ghost use Rattle.walk.specs.Promise.{Walked};
ghost use Rattle.walk.specs.Parts.{walk_count, walk_whole, walk_progress};
ghost use Rattle.choices.specs.Choices.{Rising};
ghost use Rattle.sheet.specs.Steps.{Marked, WalkOf};

use line::Line;
use table::{Family, Refusal, Table};
use walk::WalkEnd;

// The marks of the first k numbers.
fn marks_of(ids: [u64; Table::SOURCES], k: usize) -> u64
    requires { (k ≤ max_k) × Rising 0 (max_k + max_m) (take k ids) }
    ensures { Marked (take k ids) result }
{
    let mut marks = 0;
    for i in (0..k).rev() {
        marks ^= 1u64 << (ids[i] - 1);
    }
    marks
}

// The walk with the house table, which is written to shifts first.
fn with_house(k: u64, m: u64, l: u64, marks: u64, shifts: &mut [u8]) -> Result<WalkEnd, Refusal>
    requires { Checked (size_checks k m) 0 × (length shifts.old ≡ m * k) }
    ensures { HouseTable k m shifts.new × Walked k m l shifts.new marks (told result) (walk_count result) (walk_whole result) (walk_progress result) }
{
    family::family_table(k, m, Family::House as u64, shifts)?;
    walk::walk(k, m, l, shifts, marks)
}

// How many steps the walk with the house table makes, the packets of the choice at hand.
pub fn count_steps(line: Line, ids: [u64; Table::SOURCES]) -> Result<u64, Refusal>
    requires { Checked (size_checks line.k line.m) 0 × Rising 0 (max_k + max_m) (take line.k ids) }
    ensures { WalkOf line.k line.m line.l (take line.k ids) (told result) (given result) }
{
    let marks = marks_of(ids, line.k as usize);
    let mut shifts = [0u8; Table::CELLS];
    let cells = (line.m * line.k) as usize;
    let end = with_house(line.k, line.m, line.l, marks, &mut shifts[..cells])?;
    Ok(end.count)
}
