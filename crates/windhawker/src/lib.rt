// The C interface: each export keeps the promise of the call that it passes on. Numbers come back as results, all else in slots.
#![tactic(auto)]

ghost use Rattle.family.specs.Promise.{FamilyWritten, Judged};
ghost use Rattle.encode.specs.Promise.{EncodedAll, PacketMeasured, ParitiesMeasured, SurvivorsMeasured};
ghost use Rattle.walk.specs.Promise.{Walked, Stepped};
ghost use Rattle.steps.specs.Promise.{StepsChecked};
ghost use Rattle.rebuild.specs.Promise.{Rebuilt};
ghost use Rattle.whole_log.specs.Promise.{LogRebuilt};
ghost use Rattle.packet.specs.Promise.{PacketMade};
ghost use Rattle.look.specs.Promise.{LookedAt};
ghost use Rattle.card.specs.Promise.{BlockTaken};
ghost use Rattle.chain.specs.Promise.{BlocksRead, BlocksWritten};

use table::{Refusal, Table};

// The table of a family, of k sources and m parities.
#[unsafe(no_mangle)]
pub extern "C" fn whx_family_table(k: u64, m: u64, family: u64, out: &mut [u8]) -> u64
    ensures { FamilyWritten k m family out.old result out.new }
{
    table::told(&family::family_table(k, m, family, out))
}

// Whether differences grow down the table.
#[unsafe(no_mangle)]
pub extern "C" fn whx_judge(k: u64, m: u64, table: &[u8], growing: &mut u64) -> u64
    ensures { Judged k m table.now result growing.new }
{
    let judged = family::judge::judge(k, m, table);
    *growing = u64::from(judged.unwrap_or(false));
    table::told(&judged)
}

// The bytes of one packet.
#[unsafe(no_mangle)]
pub extern "C" fn whx_packet_length(
    k: u64,
    m: u64,
    l: u64,
    table: &[u8],
    packet: u64,
    length: &mut u64,
) -> u64
    ensures { PacketMeasured k m l table.now packet result length.new }
{
    let bytes = encode::packet_length(k, m, l, table, packet);
    *length = bytes.unwrap_or(0);
    table::told(&bytes)
}

// The bytes of all parities.
#[unsafe(no_mangle)]
pub extern "C" fn whx_parities_length(k: u64, m: u64, l: u64, table: &[u8], length: &mut u64) -> u64
    ensures { ParitiesMeasured k m l table.now result length.new }
{
    let bytes = encode::parities_length(k, m, l, table);
    *length = bytes.unwrap_or(0);
    table::told(&bytes)
}

// The bytes of all packets present.
#[unsafe(no_mangle)]
pub extern "C" fn whx_survivors_length(
    k: u64,
    m: u64,
    l: u64,
    table: &[u8],
    marks: u64,
    length: &mut u64,
) -> u64
    ensures { SurvivorsMeasured k m l table.now marks result length.new }
{
    let bytes = encode::survivors_length(k, m, l, table, marks);
    *length = bytes.unwrap_or(0);
    table::told(&bytes)
}

// All parities of the sources.
#[unsafe(no_mangle)]
pub extern "C" fn whx_encode_all(
    k: u64,
    m: u64,
    l: u64,
    table: &[u8],
    sources: &[u8],
    out: &mut [u8],
) -> u64
    ensures { EncodedAll k m l table.now sources.now out.old result out.new }
{
    table::told(&encode::encode_all(k, m, l, table, sources, out))
}

// The walk from nothing to its end.
#[unsafe(no_mangle)]
pub extern "C" fn whx_walk(
    k: u64,
    m: u64,
    l: u64,
    table: &[u8],
    marks: u64,
    count: &mut u64,
    whole: &mut u64,
    progress: &mut [u64; Table::SOURCES],
) -> u64
    ensures { Walked k m l table.now marks result count.new whole.new progress.new }
{
    match walk::walk(k, m, l, table, marks) {
        Ok(end) => {
            let reached = end.progress;
            *count = end.count;
            *whole = u64::from(end.whole);
            *progress = reached;
            Refusal::DONE
        }
        Err(refusal) => {
            *count = 0;
            *whole = 0;
            *progress = [0u64; Table::SOURCES];
            refusal.number()
        }
    }
}

// The next step.
#[unsafe(no_mangle)]
pub extern "C" fn whx_next_step(
    k: u64,
    m: u64,
    l: u64,
    table: &[u8],
    marks: u64,
    progress: &[u64; Table::SOURCES],
    parity: &mut u64,
    source: &mut u64,
    after: &mut [u64; Table::SOURCES],
) -> u64
    ensures { Stepped k m l table.now marks progress.now result parity.new source.new after.new }
{
    let from = *progress;
    match walk::next_step(k, m, l, table, marks, from) {
        Ok(step) => {
            let reached = step.progress;
            *after = reached;
            match step.pair {
                Some(pair) => {
                    *parity = pair.parity as u64 + 1;
                    *source = pair.source as u64 + 1;
                    Refusal::DONE
                }
                None => {
                    *parity = 0;
                    *source = 0;
                    Refusal::DONE
                }
            }
        }
        Err(refusal) => {
            *parity = 0;
            *source = 0;
            *after = [0u64; Table::SOURCES];
            refusal.number()
        }
    }
}

// Whether a list of steps finishes all missing sources, and where it goes wrong.
#[unsafe(no_mangle)]
pub extern "C" fn whx_check_steps(
    k: u64,
    m: u64,
    l: u64,
    table: &[u8],
    marks: u64,
    parities: &[u8],
    sources: &[u8],
    place: &mut u64,
) -> u64
    ensures { StepsChecked k m l table.now marks parities.now sources.now result place.new }
{
    match steps::check_steps(k, m, l, table, marks, parities, sources) {
        Ok(()) => {
            *place = 0;
            Refusal::DONE
        }
        Err(bad) => {
            *place = bad.place;
            bad.refusal.number()
        }
    }
}

// One block from a card reader.
#[unsafe(no_mangle)]
pub extern "C" fn whx_block(
    block: &[u8],
    dest: &mut [u8],
    length: &mut u64,
    sequence: &mut u64,
    more: &mut u64,
) -> u64
    ensures { BlockTaken block.now dest.old result length.new sequence.new more.new dest.new }
{
    match card::block(block, dest) {
        Ok(taken) => {
            *length = taken.length;
            *sequence = taken.sequence;
            *more = u64::from(taken.more);
            Refusal::DONE
        }
        Err(refusal) => {
            *length = 0;
            *sequence = 0;
            *more = 0;
            refusal.number()
        }
    }
}

// A run of blocks from a card reader.
#[unsafe(no_mangle)]
pub extern "C" fn whx_read_blocks(blocks: &[u8], dest: &mut [u8], length: &mut u64) -> u64
    ensures { BlocksRead blocks.now dest.old result length.new dest.new }
{
    let bytes = chain::read_blocks(blocks, dest);
    *length = bytes.unwrap_or(0);
    table::told(&bytes)
}

// A packet as a run of blocks.
#[unsafe(no_mangle)]
pub extern "C" fn whx_write_blocks(
    packet: &[u8],
    size: u64,
    dest: &mut [u8],
    length: &mut u64,
) -> u64
    ensures { BlocksWritten packet.now size dest.old result length.new dest.new }
{
    let bytes = chain::write_blocks(packet, size, dest);
    *length = bytes.unwrap_or(0);
    table::told(&bytes)
}

// All sources from the packets at hand.
#[unsafe(no_mangle)]
pub extern "C" fn whx_rebuild(
    k: u64,
    m: u64,
    l: u64,
    table: &[u8],
    marks: u64,
    packets: &[u8],
    out: &mut [u8],
    count: &mut u64,
) -> u64
    ensures { Rebuilt k m l table.now marks packets.now out.old result count.new out.new }
{
    match rebuild::rebuild(k, m, l, table, marks, packets, out) {
        Ok(made) => {
            *count = made;
            Refusal::DONE
        }
        Err(unread) => {
            *count = unread.count;
            unread.refusal.number()
        }
    }
}

// All sources of each stripe of a logbook from its packets at hand, up to the first bad stripe.
#[unsafe(no_mangle)]
pub extern "C" fn whx_rebuild_log(
    k: u64,
    m: u64,
    l: u64,
    table: &[u8],
    stripes: u64,
    marks: u64,
    packets: &[u8],
    out: &mut [u8],
    good: &mut u64,
    count: &mut u64,
) -> u64
    ensures { LogRebuilt k m l table.now stripes marks packets.now out.old result good.new count.new out.new }
{
    match whole_log::rebuild_log(k, m, l, table, stripes, marks, packets, out) {
        Ok(steps) => {
            *good = stripes;
            *count = steps;
            Refusal::DONE
        }
        Err(bad) => {
            *good = bad.good;
            *count = bad.count;
            bad.refusal.number()
        }
    }
}

// Any packet from the packets at hand.
#[unsafe(no_mangle)]
pub extern "C" fn whx_packet(
    k: u64,
    m: u64,
    l: u64,
    table: &[u8],
    marks: u64,
    packets: &[u8],
    wanted: u64,
    out: &mut [u8],
) -> u64
    ensures { PacketMade k m l table.now marks packets.now wanted out.old result out.new }
{
    table::told(&packet::packet(k, m, l, table, marks, packets, wanted, out))
}

// Where one source stands for reading.
#[unsafe(no_mangle)]
pub extern "C" fn whx_look(
    k: u64,
    m: u64,
    l: u64,
    table: &[u8],
    marks: u64,
    which: u64,
    survivors: &[u8],
    rebuilt: &[u8],
    buffer: &mut u64,
    start: &mut u64,
    length: &mut u64,
) -> u64
    ensures { LookedAt k m l table.now marks which survivors.now rebuilt.now result buffer.new start.new length.new }
{
    match look::look_at(k, m, l, table, marks, which, survivors, rebuilt) {
        Ok(place) => {
            *buffer = place.buffer as u64;
            *start = place.start;
            *length = place.length;
            Refusal::DONE
        }
        Err(refusal) => {
            *buffer = 0;
            *start = 0;
            *length = 0;
            refusal.number()
        }
    }
}
