// The missing sources uncovered bit by bit: each bit read in a row through what is known of the missing sources.
ghost use Rattle.std.specs.Prelude.{◌≡◌, ◌+◌, ◌≤◌, ◌<◌};
ghost use Rattle.table.specs.Desk.{source_bits};
ghost use Rattle.table.specs.Desks.{desk_of};
ghost use Rattle.rows.specs.Rows.{row_bits};
ghost use Rattle.search.specs.Search.{AllMissing};
ghost use Rattle.survivors.specs.Remainders.{Roomy, source_in};
ghost use Rattle.decode.specs.Data.{Blank, in_row, left_bit, Took, Decoded};

use search::Missing;
use table::{Desk, Table};
use walk::Pair;

// Bit q of source c as it stands in the row of parity a.
fn shifted_bit(desk: &Desk, a: usize, c: usize, q: usize, rows: &[u64]) -> u8
    requires a_lt_m { (a < desk.now.m) × (c < desk.now.k) × (q < row_bits) }
    requires roomy { Roomy rows.now }
    ensures value { result ≡ in_row (desk_of desk.now) (source_in (desk_of desk.now) rows.now) c a q }
    ensures upper_bound { result < 2 }
{
    let e = desk.shift_of(a, c);
    if q < e {
        return 0;
    }
    rows::bytes::bit_of(rows, c, q - e)
}

// Bit q of what is left of parity a, when all that is known of the missing sources is taken out.
fn left_bit(desk: &Desk, missing: &Missing, a: usize, q: usize, rows: &[u64]) -> u8
    requires all_missing { AllMissing desk.now.k desk.now.marks missing.now.columns missing.now.count }
    requires a_lt_m { (a < desk.now.m) × (q < row_bits) }
    requires roomy { Roomy rows.now }
    ensures { result ≡ left_bit (desk_of desk.now) rows.now a q }
{
    let mut v = rows::bytes::bit_of(rows, desk.k + a, q);
    for j in 0..missing.count as usize {
        v = (v + shifted_bit(desk, a, missing.columns[j] as usize, q, rows)) % 2;
    }
    v
}

// Reads bit g of the pair's source in the row of its parity.
fn take_bit(desk: &Desk, missing: &Missing, p: Pair, g: usize, rows: &mut [u64])
    requires all_missing { AllMissing desk.now.k desk.now.marks missing.now.columns missing.now.count }
    requires parity_lt_m { (p.parity < desk.now.m) × (p.source < desk.now.k) × (g < source_bits desk.now.length) }
    requires roomy { Roomy rows.old }
    requires g_value { source_in (desk_of desk.now) rows.old p.source g ≡ 0 }
    ensures { Took (desk_of desk.now) p.parity p.source g rows.old rows.new }
{
    let e = desk.shift_of(p.parity, p.source);
    let v = left_bit(desk, missing, p.parity, e + g, rows);
    rows::bytes::flip(rows, p.source, g, v);
}

// How many steps were made, and whether they finish all missing sources.
#[derive(Clone, Copy, Debug, PartialEq, Eq)]
pub struct DecodeAnswer {
    pub count: u64,
    pub whole: bool,
}

// Steps until no pair is bare, each looked for first after the row of the last.
pub fn decode(desk: &Desk, missing: &Missing, rows: &mut [u64]) -> DecodeAnswer
    requires all_missing { AllMissing desk.now.k desk.now.marks missing.now.columns missing.now.count }
    requires roomy { Roomy rows.old }
    requires blank { Blank (desk_of desk.now) rows.old }
    ensures { Decoded (desk_of desk.now) result.count result.whole rows.old rows.new }
{
    let mut g = [0u64; Table::SOURCES];
    let mut count: u64 = 0;
    let mut row = 0;
    while let Some(p) = search::some_pair(desk, &g, missing, row) {
        let here = g[p.source];
        take_bit(desk, missing, p, here as usize, rows);
        g[p.source] = here + 1;
        count += 1;
        row = p.parity + 1;
    }
    DecodeAnswer {
        count,
        whole: walk::is_whole(desk, &g),
    }
}
