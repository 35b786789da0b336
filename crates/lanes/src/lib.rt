// Sixteen stripes at once, for the case of steps: the lanes of words. A bare pair is looked for once a step, and its bit is read in all stripes.
#![tactic(auto)]

ghost use Rattle.std.specs.Prelude.{◌≡◌, true, ℕ, ◌+◌, ◌*◌, ◌%◌, ◌≤◌, ◌<◌, length};
ghost use Rattle.bits.specs.Sums.{at};
ghost use Rattle.bits.specs.Bits.{bit, bit_at, up, part};
ghost use Rattle.table.specs.Limits.{max_stripes, longest};
ghost use Rattle.table.specs.Desk.{survivors_bytes, sources_bytes, packet_bits};
ghost use Rattle.table.specs.Desks.{desk_of};
ghost use Rattle.rows.specs.Rows.{Stored};
ghost use Rattle.code.specs.Code.{sum_of, sources_of};
ghost use Rattle.walk.specs.Walk.{Held};
ghost use Rattle.search.specs.Search.{AllMissing};
ghost use Rattle.survivors.specs.Packets.{came_parity, stripe};
ghost use Rattle.lanes.specs.Lanes.{lane_words, Gathers, Places, Stripes, known, LanesRead};

use search::Missing;
use table::{Desk, Table};

// The words of one source's bits.
const SOURCE_WORDS: usize = 8 * Table::MAX_BYTES;

// A word for each bit of each source that there can be.
pub const WORDS: usize = Table::SOURCES * SOURCE_WORDS;

// Room for the place of each packet.
pub const PACKETS: usize = Table::SOURCES + Table::PARITIES;

// How many steps were made, and whether they finish all missing sources.
#[derive(Clone, Copy, Debug, PartialEq, Eq)]
pub struct Steps {
    pub count: u64,
    pub whole: bool,
}

// The stripes of a logbook: the desk that they share, their packets one stripe after another, how many they are, the bytes of one, and where each packet at hand stands in it.
#[derive(Clone, Copy)]
pub struct Log<'a> {
    pub desk: &'a Desk,
    pub packets: &'a [u8],
    pub stripes: usize,
    pub size: usize,
    pub places: [u16; PACKETS],
    ghost few: { stripes ≤ max_stripes },
    ghost sized: { size ≡ survivors_bytes (desk_of desk.now) },
    ghost filled: { Stripes (desk_of desk.now) stripes packets.now },
    ghost placed: { Places (desk_of desk.now) places },
}

// Where each packet at hand stands in its stripe; 0 for the others.
fn places(desk: &Desk) -> [u16; PACKETS]
    ensures { Places (desk_of desk.now) result }
{
    let n = desk.k + desk.m;
    let mut places = [0u16; PACKETS];
    let mut from = 0;
    let mut i = table::packets::next_present(desk.marks, 0, n);
    while i < n {
        places[i] = from as u16;
        from += desk.bytes_of(i);
        i = table::packets::next_present(desk.marks, i + 1, n);
    }
    places
}

impl<'a> Log<'a> {
    // So many stripes over a desk.
    pub fn new(desk: &'a Desk, stripes: usize, packets: &'a [u8]) -> Log<'a>
        requires stripes_le_max_stripes { stripes ≤ max_stripes }
        requires stripes { Stripes (desk_of desk.now) stripes packets.now }
        ensures { (result.desk.now ≡ desk.now) × (result.stripes ≡ stripes) × (result.packets.now ≡ packets.now) }
    {
        Log {
            desk,
            packets,
            stripes,
            size: desk.bytes_of_survivors(),
            places: places(desk),
        }
    }
}

// Bit q of every stripe.
fn gather(log: &Log<'_>, q: usize) -> u16
    requires { q < 8 * log.now.size }
    ensures { Gathers log.now.stripes (λ t. bit_at (part log.now.packets.now log.now.size t) q) result }
{
    let mut word: u16 = 0;
    for t in (0..log.stripes).rev() {
        word = word * 2 + bits::bit_of(&log.packets[t * log.size..], q) as u16;
    }
    word
}

// Bit q of source c as it stands in parity a, in every stripe: gathered where the source is present, out of the lanes where it is missing.
fn source_word(log: &Log<'_>, lanes: &[u16], a: usize, c: usize, q: usize) -> u16
    requires lanes_len { length lanes.now ≡ lane_words }
    requires a_lt_m { (a < log.now.desk.now.m) × (c < log.now.desk.now.k) }
    ensures { Gathers log.now.stripes (λ t. up ((desk_of log.now.desk.now).shift a c) (known (desk_of log.now.desk.now) log.now.packets.now lanes.now t c) q) result }
{
    let desk = log.desk;
    let e = desk.shift_of(a, c);
    if q < e {
        return 0;
    }
    let p = q - e;
    if 8 * desk.source_bytes() <= p {
        return 0;
    }
    if table::marked(desk.marks, c) {
        return gather(log, 8 * log.places[c] as usize + p);
    }
    lanes[c * SOURCE_WORDS + p]
}

// Bit q of what is left of parity a, when all that is known of the sources is taken out, in every stripe.
fn left_word(log: &Log<'_>, lanes: &[u16], a: usize, q: usize) -> u16
    requires lanes_len { length lanes.now ≡ lane_words }
    requires held { Held (desk_of log.now.desk.now) a }
    requires q_bound { q < packet_bits (desk_of log.now.desk.now) (log.now.desk.now.k + a) }
    ensures { Gathers log.now.stripes
        (λ t. (came_parity (desk_of log.now.desk.now) (stripe (desk_of log.now.desk.now) log.now.packets.now t) a q
        + sum_of (desk_of log.now.desk.now) (known (desk_of log.now.desk.now) log.now.packets.now lanes.now t) a q) % 2) result }
{
    let k = log.desk.k;
    let mut word = gather(log, 8 * log.places[k + a] as usize + q);
    for c in 0..k {
        word ^= source_word(log, lanes, a, c, q);
    }
    word
}

// Steps until no pair is bare, each looked for first after the row of the last; each is one word of the lanes, which are noughts at first.
pub fn read_lanes(log: &Log<'_>, missing: &Missing, lanes: &mut [u16]) -> Steps
    requires all_missing { AllMissing log.now.desk.now.k log.now.desk.now.marks missing.now.columns missing.now.count }
    requires lanes_len { length lanes.old ≡ lane_words }
    requires by_index { (i : ℕ) → at lanes.old i ≡ 0 }
    ensures { LanesRead (desk_of log.now.desk.now) log.now.packets.now log.now.stripes result.count result.whole lanes.new }
{
    let desk = log.desk;
    let mut g = [0u64; Table::SOURCES];
    let mut count: u64 = 0;
    let mut row = 0;
    while let Some(p) = search::some_pair(desk, &g, missing, row) {
        let b = p.source;
        let here = g[b];
        let q = desk.shift_of(p.parity, b) + here as usize;
        lanes[b * SOURCE_WORDS + here as usize] = left_word(log, lanes, p.parity, q);
        g[b] = here + 1;
        count += 1;
        row = p.parity + 1;
    }
    let whole = walk::is_whole(desk, &g);
    Steps { count, whole }
}

// Eight bits of lane t as a byte, from word `first` on.
fn lane_byte(lanes: &[u16], first: usize, t: usize) -> u8
    requires first_in_bounds { first + 8 ≤ length lanes.now }
    requires t_lt_max_stripes { t < max_stripes }
    ensures { (j : ℕ) → j < 8 → bit result j ≡ bit (at lanes.now (first + j)) t }
{
    let mut byte: u8 = 0;
    for j in (0..8).rev() {
        byte = byte * 2 + ((lanes[first + j] >> t) % 2) as u8;
    }
    byte
}

// Puts the bits of lane t from word `first` on into n bytes of out, from byte `from` on.
fn put_lane(lanes: &[u16], first: usize, t: usize, out: &mut [u8], from: usize, n: usize)
    requires n_in_bounds { first + 8 * n ≤ length lanes.now }
    requires t_lt_max_stripes { t < max_stripes }
    requires n_in_bounds_2 { from + n ≤ length out.old }
    ensures { Stored from n (λ p. bit (at lanes.now (first + p)) t) out.old out.new }
{
    for i in 0..n {
        out[from + i] = lane_byte(lanes, first + 8 * i, t);
    }
}

// Puts src into out from byte `from` on.
fn put_bytes(src: &[u8], out: &mut [u8], from: usize)
    requires { from + length src.now ≤ length out.old }
    ensures { Stored from (length src.now) (bit_at src.now) out.old out.new }
{
    bits::copy_front(&mut out[from..], src);
}

// The sources of stripe t into out, which has their length: the present ones as they came, the missing ones out of the lane.
pub fn read_stripe(log: &Log<'_>, lanes: &[u16], t: usize, out: &mut [u8])
    requires lanes_len { length lanes.now ≡ lane_words }
    requires t_lt_stripes { t < log.now.stripes }
    requires out_len { length out.old ≡ sources_bytes (desk_of log.now.desk.now) }
    ensures { (c p : ℕ) → c < log.now.desk.now.k
        → sources_of (desk_of log.now.desk.now) out.new c p ≡ known (desk_of log.now.desk.now) log.now.packets.now lanes.now t c p }
{
    let desk = log.desk;
    let bytes = desk.source_bytes();
    for c in 0..desk.k {
        if table::marked(desk.marks, c) {
            let from = t * log.size + log.places[c] as usize;
            let end = from + bytes;
            put_bytes(&log.packets[from..end], out, c * bytes);
        } else {
            put_lane(lanes, c * SOURCE_WORDS, t, out, c * bytes, bytes);
        }
    }
}
