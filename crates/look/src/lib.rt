// Looking: one source for reading, as a part of the survivors or of the rebuilt sources.
#![tactic(auto)]

ghost use Rattle.std.specs.Prelude.{◌≡◌, length, ◌+◌, ◌≤◌, ◌<◌};
ghost use Rattle.bits.specs.Sums.{count};
ghost use Rattle.table.specs.Limits.{max_k};
ghost use Rattle.table.specs.Desk.{mark};
ghost use Rattle.table.specs.Desks.{desk_of};
ghost use Rattle.table.specs.Checks.{Checked};
ghost use Rattle.table.specs.Refusals.{told};
ghost use Rattle.look.specs.Stages.{Stands, buffers_checks};
ghost use Rattle.look.specs.Places.{number_of, buffer_told, start_told, length_told};
ghost use Rattle.look.specs.Promise.{LookedAt, Looked, HandedOut, PartOf};

use table::{Desk, Refusal};

// The buffers that a source can stand in, each with its number.
#[derive(Clone, Copy, Debug, PartialEq, Eq)]
pub enum Buffer {
    Survivors = 1,
    Rebuilt = 2,
}

// Where a source stands; start and length are in bytes.
#[derive(Clone, Copy, Debug, PartialEq, Eq)]
pub struct Place {
    pub buffer: Buffer,
    pub start: u64,
    pub length: u64,
}

// 4.
fn check_buffers(desk: &Desk, survivors: &[u8], rebuilt: &[u8]) -> Result<(), Refusal>
    ensures { Checked (buffers_checks (desk_of desk.now) survivors.now rebuilt.now) (told result) }
{
    if survivors.len() != desk.bytes_of_survivors() {
        return Err(Refusal::Input);
    }
    if rebuilt.len() != desk.sources_bytes() {
        return Err(Refusal::Input);
    }
    Ok(())
}

// How many packets before packet i, from 0, are present.
fn present_before(marks: u64, i: usize) -> usize
    requires { i < max_k }
    ensures { (result ≡ count i (mark marks)) × (result ≤ i) }
{
    u64::count_ones(marks % (1u64 << i)) as usize
}

// Where source i, from 0, stands.
fn standing(desk: &Desk, i: usize) -> Place
    requires { i < desk.now.k }
    ensures { Stands (desk_of desk.now) i (number_of result.buffer) result.start × (result.length ≡ (desk_of desk.now).bytes) }
{
    let bytes = desk.source_bytes();
    if table::marked(desk.marks, i) {
        return Place {
            buffer: Buffer::Survivors,
            start: (present_before(desk.marks, i) * bytes) as u64,
            length: bytes as u64,
        };
    }
    Place {
        buffer: Buffer::Rebuilt,
        start: (i * bytes) as u64,
        length: bytes as u64,
    }
}

// Where the source of the given number, from 1, stands: among the survivors where its card is present, else among the rebuilt sources.
pub fn look_at(
    k: u64,
    m: u64,
    l: u64,
    table: &[u8],
    marks: u64,
    source: u64,
    survivors: &[u8],
    rebuilt: &[u8],
) -> Result<Place, Refusal>
    ensures { LookedAt k m l table.now marks source survivors.now rebuilt.now (told result) (buffer_told result) (start_told result) (length_told result) }
{
    checks::check_shape(k, m, l, table)?;
    let mut desk = Desk::least();
    desk.lay(k, m, l, table);
    checks::check_asked(desk.k, desk.m, marks, desk.k, source)?;
    desk.put_marks(marks);
    check_buffers(&desk, survivors, rebuilt)?;
    Ok(standing(&desk, source as usize - 1))
}

// The n bytes of s from byte a: no copy.
fn part<'a>(s: &'a [u8], a: usize, n: usize) -> &'a [u8]
    requires { a + n ≤ length s.now }
    ensures { PartOf s.entry a n result }
{
    let e = a + n;
    &s[a..e]
}

// The source of the given number, from 1: a part of the survivors where its card is present, else of the rebuilt sources.
pub fn hand_out<'a>(
    k: u64,
    m: u64,
    l: u64,
    table: &[u8],
    marks: u64,
    source: u64,
    survivors: &'a [u8],
    rebuilt: &'a [u8],
) -> Result<&'a [u8], Refusal>
    ensures { HandedOut k m l table.now marks source survivors.entry rebuilt.entry result }
{
    let place = look_at(k, m, l, table, marks, source, survivors, rebuilt)?;
    let start = place.start as usize;
    let n = place.length as usize;
    match place.buffer {
        Buffer::Survivors => Ok(part(survivors, start, n)),
        Buffer::Rebuilt => Ok(part(rebuilt, start, n)),
    }
}

// The source of the given number, from 1: a part of the survivors where its card is present, else of the rebuilt sources; empty where refused.
pub fn look<'a>(
    k: u64,
    m: u64,
    l: u64,
    table: &[u8],
    marks: u64,
    source: u64,
    survivors: &'a [u8],
    rebuilt: &'a [u8],
) -> &'a [u8]
    ensures { Looked k m l table.now marks source survivors.entry rebuilt.entry result }
{
    match hand_out(k, m, l, table, marks, source, survivors, rebuilt) {
        Ok(found) => found,
        Err(_) => part(survivors, 0, 0),
    }
}
