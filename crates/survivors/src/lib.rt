// The packets that came: each in a row of its own, the sources taken out of the rows of the parities at hand, and a stray packet found.
#![tactic(auto)]

ghost use Rattle.std.specs.Prelude.{◌≡◌, length, ℕ, ◌+◌, ◌/◌, ◌^◌, ◌<◌};
ghost use Rattle.bits.specs.Bits.{Tells};
ghost use Rattle.rows.specs.Rows.{row_bits, row_words, row_in, AddedTo};
ghost use Rattle.table.specs.Desk.{mark};
ghost use Rattle.table.specs.Desks.{Ready, Survivors, desk_of};
ghost use Rattle.code.specs.Code.{sum_of};
ghost use Rattle.survivors.specs.Packets.{Stray};
ghost use Rattle.survivors.specs.Remainders.{Roomy, marked_of, source_in, Placed, AddedToRests};

use table::{Desk, Table};

// Room for a row for each packet that there can be.
pub const WORDS: usize = (Table::MAX_K + Table::MAX_M) as usize * rows::ROW_WORDS;

// Puts each packet at hand into its row, of rows that are noughts.
pub fn place_packets(desk: &Desk, packets: &[u8], rows: &mut [u64])
    requires ready { Ready desk.now }
    requires survivors { Survivors desk.now packets.now }
    requires roomy { Roomy rows.old }
    requires by_index { (i p : ℕ) → row_in rows.old i p ≡ 0 }
    ensures { Placed (desk_of desk.now) packets.now rows.new }
{
    let n = desk.k + desk.m;
    let mut from = 0;
    let mut i = table::packets::next_present(desk.marks, 0, n);
    while i < n {
        let end = from + desk.bytes_of(i);
        rows::bytes::load(rows, i, &packets[from..end]);
        from = end;
        i = table::packets::next_present(desk.marks, i + 1, n);
    }
}

// Adds the sources that `marks` name, each shifted up by its entry of row a, into the row of parity a.
fn add_sources(desk: &Desk, a: usize, marks: u64, rows: &mut [u64])
    requires a_lt_m { a < desk.now.m }
    requires roomy { Roomy rows.old }
    ensures { AddedTo (desk.now.k + a) (sum_of (desk_of desk.now) (marked_of marks (source_in (desk_of desk.now) rows.old)) a)
        rows.old rows.new }
{
    let k = desk.k;
    let mut b = table::packets::next_present(marks, 0, k);
    while b < k {
        let e = desk.shift_of(a, b);
        rows::add_up(rows, k + a, b, e);
        b = table::packets::next_present(marks, b + 1, k);
    }
}

// So, into the row of each parity that `targets` name.
pub fn add_to_rests(desk: &Desk, targets: u64, marks: u64, rows: &mut [u64])
    requires m_value { targets / 2 ^ (desk.now.k + desk.now.m) ≡ 0 }
    requires roomy { Roomy rows.old }
    ensures { AddedToRests (desk_of desk.now) (mark targets)
        (sum_of (desk_of desk.now) (marked_of marks (source_in (desk_of desk.now) rows.old)))
        rows.old rows.new }
{
    let k = desk.k;
    let n = k + desk.m;
    let mut i = table::packets::next_present(targets, k, n);
    while i < n {
        add_sources(desk, i - k, marks, rows);
        i = table::packets::next_present(targets, i + 1, n);
    }
}

// Whether a packet at hand has a one above its last bit.
pub fn stray(desk: &Desk, packets: &[u8]) -> bool
    requires survivors { Survivors desk.now packets.now }
    ensures { Tells result (Stray (desk_of desk.now) packets.now) }
{
    let n = desk.k + desk.m;
    let mut from = 0;
    let mut i = table::packets::next_present(desk.marks, 0, n);
    while i < n {
        let end = from + desk.bytes_of(i);
        let last = desk.bits_of(i);
        if !bits::clear_above(&packets[from..end], last) {
            return true;
        }
        from = end;
        i = table::packets::next_present(desk.marks, i + 1, n);
    }
    false
}
