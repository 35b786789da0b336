// Runs the worked examples of the paper, and a few inputs that tell a wrong program from a right one, one line each.
// Unless a line says so, k = 2, m = 2, L = 1 and the table is the house table (0,1),(0,2).
#![tactic(auto)]

use chain::Blocks;
use look::Buffer;
use std::{fmt, io};
use table::{Family, Refusal, Table};

// The house table of k = 2 and m = 2.
const HOUSE: [u8; 4] = [0, 1, 0, 2];

// Rows whose largest entries differ, so that the parities differ in length.
const UNEVEN: [u8; 4] = [0, 1, 0, 9];

// Room for what a card gives.
const ROOM: usize = 64;

// Values with a space between them, in decimal.
#[derive(Drop)]
struct List<'a, T>(&'a [T]);

impl<'a, T: fmt::Display> fmt::Display for List<'a, T> {
    fn fmt<W: fmt::Write>(&self, f: &mut fmt::Formatter<W>) -> fmt::Result {
        let mut gap = "";
        for x in self.0 {
            write!(f, "{gap}{x}")?;
            gap = " ";
        }
        Ok(())
    }
}

// Bytes with a space between them, in hex.
#[derive(Drop)]
struct Hex<'a>(&'a [u8]);

impl<'a> fmt::Display for Hex<'a> {
    fn fmt<W: fmt::Write>(&self, f: &mut fmt::Formatter<W>) -> fmt::Result {
        let mut gap = "";
        for x in self.0 {
            write!(f, "{gap}{x:02X}")?;
            gap = " ";
        }
        Ok(())
    }
}

// The bytes that a card gave, or was to be given.
#[derive(Drop)]
struct Given<'a>(&'a [u8]);

impl<'a> fmt::Display for Given<'a> {
    fn fmt<W: fmt::Write>(&self, f: &mut fmt::Formatter<W>) -> fmt::Result {
        if self.0.is_empty() {
            return f.write_str("no bytes");
        }
        write!(f, "{}", Hex(self.0))
    }
}

// The entries of a list of steps.
#[derive(Drop)]
struct Steps<'a>(&'a [u8]);

impl<'a> fmt::Display for Steps<'a> {
    fn fmt<W: fmt::Write>(&self, f: &mut fmt::Formatter<W>) -> fmt::Result {
        if self.0.is_empty() {
            return f.write_str("none");
        }
        write!(f, "{}", List(self.0))
    }
}

// What a call answers: its value, or the number of its refusal.
#[derive(Drop)]
struct Answer<T>(Result<T, Refusal>);

impl<T: fmt::Display> fmt::Display for Answer<T> {
    fn fmt<W: fmt::Write>(&self, f: &mut fmt::Formatter<W>) -> fmt::Result {
        match &self.0 {
            Ok(value) => write!(f, "{value}"),
            Err(refusal) => write!(f, "number {refusal}"),
        }
    }
}

// How many bytes.
#[derive(Drop)]
struct Length(u64);

impl fmt::Display for Length {
    fn fmt<W: fmt::Write>(&self, f: &mut fmt::Formatter<W>) -> fmt::Result {
        write!(f, "{} bytes", self.0)
    }
}

// The first n bytes, of which there are as many.
fn first(xs: &[u8], n: u64) -> &[u8] {
    xs.get(..n as usize).unwrap_or(&[])
}

// What stands before a line on the table UNEVEN.
fn say_uneven(rt: &impl Print) -> io::Result<()> {
    print!(rt; "table (0,1),(0,9): ")
}

// The table of a family, into rows.
fn family(rt: &impl Print, k: u64, m: u64, family: u64, rows: &mut [u8]) -> io::Result<()> {
    let written = family::family_table(k, m, family, rows);
    if family != Family::House as u64 {
        print!(rt; "family {family}, ")?;
    }
    print!(rt; "k = {k}, m = {m}: ")?;
    match written {
        Ok(()) => println!(rt; "rows {}", List(rows)),
        Err(refusal) => println!(rt; "number {refusal}"),
    }
}

// All parities of two sources, into so much room.
fn encoded(rt: &impl Print, table: &[u8], sources: &[u8], parities: &mut [u8]) -> io::Result<()> {
    let made = encode::encode_all(2, 2, 1, table, sources, parities);
    println!(rt;
        "encode {}: {}",
        Hex(sources),
        Answer(made.map(|()| Hex(parities)))
    )
}

fn encoded_house(rt: &impl Print, sources: &[u8]) -> io::Result<()> {
    let mut parities = [0u8; 4];
    encoded(rt, &HOUSE, sources, &mut parities)
}

fn encoded_uneven(rt: &impl Print, sources: &[u8]) -> io::Result<()> {
    let mut parities = [0u8; 5];
    say_uneven(rt)?;
    encoded(rt, &UNEVEN, sources, &mut parities)
}

// The bytes of a packet where the parities differ in length.
fn packet_long(rt: &impl Print, packet: u64) -> io::Result<()> {
    let length = encode::packet_length(2, 2, 1, &UNEVEN, packet);
    say_uneven(rt)?;
    println!(rt; "packet {packet}: {}", Answer(length.map(Length)))
}

// The bytes of all parities there.
fn parities_long(rt: &impl Print) -> io::Result<()> {
    let length = encode::parities_length(2, 2, 1, &UNEVEN);
    say_uneven(rt)?;
    println!(rt; "all parities: {}", Answer(length.map(Length)))
}

// The walk of k sources and as many parities.
fn walked(rt: &impl Print, table: &[u8], k: u64, marks: u64) -> io::Result<()> {
    print!(rt; "walk marks {marks}: ")?;
    match walk::walk(k, k, 1, table, marks) {
        Ok(end) => {
            let whole = if end.whole { "whole" } else { "not whole" };
            println!(rt;
                "count {}, {whole}, ends at {}",
                end.count,
                List(&end.progress)
            )
        }
        Err(refusal) => println!(rt; "number {refusal}"),
    }
}

// The number and the place that a list of steps gets.
fn checked(
    rt: &impl Print,
    table: &[u8],
    marks: u64,
    parities: &[u8],
    sources: &[u8],
) -> io::Result<()> {
    print!(rt;
        "steps marks {marks}, parities {}, sources {}: ",
        Steps(parities),
        Steps(sources)
    )?;
    let (number, place) = match steps::check_steps(2, 2, 1, table, marks, parities, sources) {
        Ok(()) => (Refusal::DONE, 0),
        Err(bad) => (bad.refusal.number(), bad.place),
    };
    println!(rt; "number {number}, place {place}")
}

// Whether a table of two rows has growing differences.
fn judged(rt: &impl Print, table: &[u8]) -> io::Result<()> {
    let growing = family::judge::judge(2, 2, table);
    println!(rt;
        "judge: {}",
        Answer(growing.map(|yes| if yes { "yes" } else { "no" }))
    )
}

// The sources that packets of k sources and as many parities give.
fn rebuilt(
    rt: &impl Print,
    table: &[u8],
    k: u64,
    marks: u64,
    packets: &[u8],
    sources: &mut [u8],
) -> io::Result<()> {
    print!(rt; "rebuild marks {marks}, packets {}: ", Hex(packets))?;
    match rebuild::rebuild(k, k, 1, table, marks, packets, sources) {
        Ok(count) => println!(rt; "sources {}, count {count}", Hex(sources)),
        Err(unread) => println!(rt; "number {}, count {}", unread.refusal, unread.count),
    }
}

fn rebuilt_two(rt: &impl Print, table: &[u8], marks: u64, packets: &[u8]) -> io::Result<()> {
    let mut sources = [0u8; 2];
    rebuilt(rt, table, 2, marks, packets, &mut sources)
}

fn rebuilt_three(rt: &impl Print, table: &[u8], marks: u64, packets: &[u8]) -> io::Result<()> {
    let mut sources = [0u8; 3];
    rebuilt(rt, table, 3, marks, packets, &mut sources)
}

// What a log of two sources a stripe gives from both parities, into an output of nines.
fn read_log(
    rt: &impl Print,
    table: &[u8],
    stripes: u64,
    packets: &[u8],
    out: &mut [u8],
) -> io::Result<()> {
    print!(rt;
        "log of {stripes} stripes, marks 12, packets {}: ",
        Hex(packets)
    )?;
    let read = whole_log::rebuild_log(2, 2, 1, table, stripes, 12, packets, out);
    let (number, good, count) = match read {
        Ok(count) => (Refusal::DONE, stripes, count),
        Err(bad) => (bad.refusal.number(), bad.good, bad.count),
    };
    println!(rt;
        "number {number}, good {good}, count {count}, output {}",
        Hex(out)
    )
}

fn read_log_of_three(rt: &impl Print, packets: &[u8]) -> io::Result<()> {
    let mut out = [9u8; 6];
    read_log(rt, &HOUSE, 3, packets, &mut out)
}

// The wanted packet, from the packets at hand, into so much room.
fn made(
    rt: &impl Print,
    marks: u64,
    packets: &[u8],
    wanted: u64,
    room: &mut [u8],
) -> io::Result<()> {
    let made = packet::packet(2, 2, 1, &HOUSE, marks, packets, wanted, room);
    print!(rt;
        "packet {wanted}, marks {marks}, packets {}: ",
        Hex(packets)
    )?;
    println!(rt; "{}", Answer(made.map(|()| Hex(room))))
}

// The number that a walk gives.
fn numbered(rt: &impl Print, label: &str, l: u64, table: &[u8], marks: u64) -> io::Result<()> {
    let number = table::told(&walk::walk(2, 2, l, table, marks));
    println!(rt; "{label}: number {number}")
}

// The information bytes of a block, N(S) and M.
fn say_information(rt: &impl Print, block: &[u8]) -> io::Result<()> {
    let mut room = [0u8; ROOM];
    match card::block(block, &mut room) {
        Ok(taken) => {
            let given = Given(first(&room, taken.length));
            let more = u64::from(taken.more);
            println!(rt; "{given}, N(S) {}, M {more}", taken.sequence)
        }
        Err(refusal) => println!(rt; "number {refusal}"),
    }
}

fn taken(rt: &impl Print, block: &[u8]) -> io::Result<()> {
    print!(rt; "block {}: ", Hex(block))?;
    say_information(rt, block)
}

// A block with one byte more than there is room for.
fn too_long(rt: &impl Print) -> io::Result<()> {
    let mut block = [0u8; ROOM + 5];
    block[2] = 65;
    block[ROOM + 4] = 65;
    print!(rt; "block of LEN 65 into 64 bytes: ")?;
    say_information(rt, &block)
}

// A run of blocks.
fn read_run(rt: &impl Print, blocks: &[u8]) -> io::Result<()> {
    let mut room = [0u8; ROOM];
    let length = chain::read_blocks(blocks, &mut room);
    let value = length.map(|n| Given(first(&room, n)));
    println!(rt; "run {}: {}", Given(blocks), Answer(value))
}

// A packet as blocks of a size.
fn written(rt: &impl Print, packet: &[u8], size: u64) -> io::Result<()> {
    let mut room = [0u8; Blocks::LONGEST];
    let length = chain::write_blocks(packet, size, &mut room);
    let value = length.map(|n| Hex(first(&room, n)));
    println!(rt;
        "packet {} at size {size}: {}",
        Given(packet),
        Answer(value)
    )
}

// How many bytes the blocks of a packet of noughts have.
fn measured(rt: &impl Print, packet: &[u8], size: u64) -> io::Result<()> {
    let mut room = [0u8; Blocks::LONGEST];
    let length = chain::write_blocks(packet, size, &mut room);
    println!(rt;
        "packet of {} bytes at size {size}: {}",
        packet.len(),
        Answer(length.map(Length))
    )
}

// Where a source stands with packets 1 and 4 at hand, and its bytes.
fn looked<'a>(
    rt: &impl Print,
    source: u64,
    survivors: &'a [u8],
    rebuilt: &'a [u8],
) -> io::Result<()> {
    print!(rt; "look source {source}, marks 9: ")?;
    let place = look::look_at(2, 2, 1, &HOUSE, 9, source, survivors, rebuilt);
    let bytes = look::look(2, 2, 1, &HOUSE, 9, source, survivors, rebuilt);
    match place {
        Ok(place) => {
            let buffer = match place.buffer {
                Buffer::Survivors => "survivors",
                Buffer::Rebuilt => "rebuilt",
            };
            println!(rt; "{buffer} at {}: {}", place.start, Hex(bytes))
        }
        Err(refusal) => println!(rt; "number {refusal}"),
    }
}

fn house_tables(rt: &impl Print) -> io::Result<()> {
    let mut rows = [0u8; 9];
    family(rt, 3, 3, Family::House as u64, &mut rows)?;
    encoded_house(rt, b"\x01\x01")?;
    encoded_house(rt, b"\x80\xC0")?;
    rebuilt_two(rt, &HOUSE, 12, b"\x03\x00\x05\x00")?;
    walked(rt, &HOUSE, 2, 9)?;
    walked(rt, &HOUSE, 2, 3)?;
    rebuilt_two(rt, &HOUSE, 12, b"\x03\x00\x05\x04")?;
    rebuilt_two(rt, &HOUSE, 12, b"\x03\x00\x05\x01")
}

// Tables of the other families, and families that there are not.
fn families(rt: &impl Print) -> io::Result<()> {
    let mut nine = [0u8; 9];
    let mut twelve = [0u8; 12];
    let mut all = [0u8; Table::CELLS];
    family(rt, 3, 4, Family::Hankel as u64, &mut twelve)?;
    family(rt, 4, 3, Family::Hankel as u64, &mut twelve)?;
    family(rt, 8, 8, Family::Hankel as u64, &mut all)?;
    family(rt, 3, 3, Family::Vandermonde as u64, &mut nine)?;
    family(rt, 3, 3, 4, &mut nine)?;
    family(rt, 0, 3, 0, &mut nine)
}

// Each parity at its own length; and an output for both at the longer one's.
fn own_lengths(rt: &impl Print) -> io::Result<()> {
    let mut six = [0u8; 6];
    packet_long(rt, 3)?;
    packet_long(rt, 4)?;
    parities_long(rt)?;
    encoded_uneven(rt, b"\x01\x01")?;
    encoded_uneven(rt, b"\x80\xC0")?;
    say_uneven(rt)?;
    print!(rt; "into six bytes: ")?;
    encoded(rt, &UNEVEN, b"\x01\x01", &mut six)
}

// A table of two rows that has no growing differences, with both parities at hand.
fn other_table(rt: &impl Print, label: &str, table: &[u8]) -> io::Result<()> {
    print!(rt; "{label}: ")?;
    rebuilt_two(rt, table, 12, b"\x00\x00\x00\x00")?;
    print!(rt; "{label}: ")?;
    walked(rt, table, 2, 12)?;
    print!(rt; "{label}: ")?;
    judged(rt, table)
}

// The sources of sixteen steps, and the parities of the library's own order and of another.
const STEPPED: [u8; 16] = [1, 1, 2, 1, 2, 1, 2, 1, 2, 1, 2, 1, 2, 1, 2, 2];

const OWN: [u8; 16] = [1, 2, 1, 2, 1, 2, 1, 2, 1, 2, 1, 2, 1, 2, 1, 1];

const OTHER: [u8; 16] = [2, 2, 1, 2, 1, 2, 1, 2, 1, 2, 1, 2, 1, 2, 2, 2];

// Lists of steps: two that are right; a tie; one of the right length; one short and one too many;
// up to a stall; none; an entry 0; and of two lengths.
fn step_lists(rt: &impl Print) -> io::Result<()> {
    checked(rt, &HOUSE, 12, &OWN, &STEPPED)?;
    checked(rt, &HOUSE, 12, &OTHER, &STEPPED)?;
    checked(rt, &HOUSE, 12, b"\x01\x01", b"\x01\x02")?;
    checked(rt, &HOUSE, 12, &[1u8; 16], &STEPPED)?;
    checked(rt, &HOUSE, 12, &OWN[..15], &STEPPED[..15])?;
    checked(
        rt,
        &HOUSE,
        12,
        b"\x01\x02\x01\x02\x01\x02\x01\x02\x01\x02\x01\x02\x01\x02\x01\x01\x01",
        b"\x01\x01\x02\x01\x02\x01\x02\x01\x02\x01\x02\x01\x02\x01\x02\x02\x02",
    )?;
    print!(rt; "table (0,7),(0,7): ")?;
    checked(rt, b"\x00\x07\x00\x07", 12, &[1u8; 7], &[1u8; 7])?;
    checked(rt, &HOUSE, 3, b"", b"")?;
    checked(rt, &HOUSE, 12, b"", b"")?;
    checked(rt, &HOUSE, 12, b"\x00", b"\x01")?;
    checked(rt, &HOUSE, 12, b"\x00", b"")
}

// Packets of the sources; one that is lost, and one that is at hand; one at hand that is not just copied; and none such.
fn any_packet(rt: &impl Print) -> io::Result<()> {
    let mut source = [0u8; 1];
    let mut parity = [0u8; 2];
    made(rt, 3, b"\x80\xC0", 4, &mut parity)?;
    made(rt, 3, b"\x80\xC0", 2, &mut source)?;
    made(rt, 12, b"\x00\x01\x80\x03", 1, &mut source)?;
    made(rt, 12, b"\x00\x01\x80\x03", 3, &mut parity)?;
    made(rt, 12, b"\x03\x00\x05\x01", 3, &mut parity)?;
    made(rt, 3, b"\x80\xC0", 5, &mut parity)
}

fn other_tables(rt: &impl Print) -> io::Result<()> {
    other_table(rt, "table (0,7),(0,7)", b"\x00\x07\x00\x07")?;
    other_table(rt, "table (0,8),(0,8)", b"\x00\x08\x00\x08")?;
    print!(rt; "rows 0 0 5; 0 5 0; 5 0 0: ")?;
    rebuilt_three(
        rt,
        b"\x00\x00\x05\x00\x05\x00\x05\x00\x00",
        56,
        b"\x00\x00\x00\x00\x00\x00",
    )
}

fn numbers(rt: &impl Print) -> io::Result<()> {
    numbered(rt, "marks 16", 1, &HOUSE, 16)?;
    numbered(rt, "marks 7", 1, &HOUSE, 7)?;
    numbered(rt, "entry 64", 1, b"\x00\x40\x00\x02", 12)?;
    numbered(rt, "entry 65", 1, b"\x00\x41\x00\x02", 12)?;
    numbered(rt, "L 56", 56, &HOUSE, 12)?;
    numbered(rt, "L 57", 57, &HOUSE, 12)
}

fn logs(rt: &impl Print) -> io::Result<()> {
    read_log_of_three(rt, b"\x03\x00\x05\x00\x03\x00\x05\x01\x03\x00\x05\x04")?;
    read_log_of_three(rt, b"\x03\x00\x05\x00\x03\x00\x05\x00\x03\x00\x05\x00")?;
    let mut out = [9u8; 4];
    print!(rt; "table (0,7),(0,7): ")?;
    read_log(
        rt,
        b"\x00\x07\x00\x07",
        2,
        b"\x03\x00\x05\x00\x03\x00\x05\x00",
        &mut out,
    )
}

fn blocks(rt: &impl Print) -> io::Result<()> {
    taken(rt, b"\x00\x00\x02\xAA\x55\xFD")?;
    taken(rt, b"\x00\x40\x02\xAA\x55\xBD")?;
    taken(rt, b"\x00\x00\x00\x00")?;
    taken(rt, b"\x00\x00\xFF\x00")?;
    taken(rt, b"\x00\x00\xFF\x00\x00")?;
    taken(rt, b"\x00\x20\x02\x01\x02\x21")?;
    taken(rt, b"\x00\x80\x00\x80")?;
    too_long(rt)
}

fn runs(rt: &impl Print) -> io::Result<()> {
    read_run(rt, b"\x00\x20\x02\x01\x02\x21\x00\x40\x01\x03\x42")?;
    read_run(rt, b"\x00\x20\x02\x01\x02\x21")?;
    read_run(rt, b"\x00\x40\x01\x03\x42")?;
    read_run(rt, b"\x00\x00\x00\x00\x00")?;
    read_run(rt, b"\x00\x20\x02\x01\x02\x21\x00\x00\x01\x03\x02")?;
    read_run(rt, b"\x00\x20\x00\x20\x00\x40\x00\x40")?;
    read_run(rt, b"\x00\x20\x02\x01\x02\x21\x00")?;
    read_run(rt, b"")?;
    written(rt, b"\x01\x02\x03", 2)?;
    written(rt, b"\xAA\x55", 1)?;
    written(rt, b"", 32)?;
    written(rt, b"\x01", 0)?;
    written(rt, b"\x01", 255)?;
    measured(rt, &[0u8; ROOM], 32)?;
    measured(rt, &[0u8; ROOM], 1)?;
    measured(rt, &[0u8; ROOM + 1], 1)
}

// Inputs that tell a wrong program from a right one.
fn telling(rt: &impl Print) -> io::Result<()> {
    rebuilt_two(rt, &HOUSE, 12, b"\x00\x00\x00\x00")?;
    rebuilt_two(rt, &HOUSE, 12, b"\x00\x01\x80\x03")?;
    rebuilt_two(rt, &HOUSE, 12, b"\x00\x02\x00\x00")?;
    rebuilt_two(rt, &HOUSE, 9, b"\x01\x05\x00")?;
    rebuilt_two(rt, &HOUSE, 9, b"\x01\x04\x00")?;
    numbered(rt, "marks 65548", 1, &HOUSE, 65548)?;
    looked(rt, 1, b"\x80\x80\x03", b"\x80\xC0")?;
    looked(rt, 2, b"\x80\x80\x03", b"\x80\xC0")?;
    looked(rt, 3, b"\x80\x80\x03", b"\x80\xC0")
}

fn main(rt: HostRuntime) -> io::Result<()> {
    house_tables(&rt)?;
    families(&rt)?;
    own_lengths(&rt)?;
    step_lists(&rt)?;
    any_packet(&rt)?;
    logs(&rt)?;
    other_tables(&rt)?;
    numbers(&rt)?;
    blocks(&rt)?;
    runs(&rt)?;
    telling(&rt)
}
