// The code of the papers: each parity is the sum of the sources, shifted up by the entries of its row.
#![tactic(auto)]

ghost use Rattle.std.specs.Prelude.{◌≡◌, length, ◌+◌, ◌≤◌, ◌<◌};
ghost use Rattle.rows.specs.Rows.{HasRow, AddedTo, Stored};
ghost use Rattle.table.specs.Limits.{longest};
ghost use Rattle.table.specs.Desk.{source_bytes, sources_bytes, packet_bytes, parities_bytes};
ghost use Rattle.table.specs.Desks.{desk_of};
ghost use Rattle.code.specs.Code.{sum_of, parity, sources_of, packet_of, parities_of};

use rows::ROW_WORDS;
use table::{Desk, Table};

// Adds every source, shifted up by its entry of row a of the table, into row `at` of rows.
#[inline(always)]
pub fn add_row(desk: &Desk, a: usize, sources: &[u8], rows: &mut [u64], at: usize)
    requires a_lt_m { a < desk.now.m }
    requires shifts_in_bounds { sources_bytes (desk_of desk.now) ≤ length sources.now }
    requires has_row { HasRow rows.old at }
    ensures { AddedTo at (sum_of (desk_of desk.now) (sources_of (desk_of desk.now) sources.now) a) rows.old rows.new }
{
    add_row_of(desk, a, desk.source_bytes(), sources, rows, at);
}

// Adds every source, of so many bytes as the desk says, in the same way. The number is told: read off the desk at each row, it would keep the compiler from making the loop over the rows twice,
// once for the longest sources and once for all others.
#[inline(always)]
fn add_row_of(desk: &Desk, a: usize, bytes: usize, sources: &[u8], rows: &mut [u64], at: usize)
    requires a_lt_m { a < desk.now.m }
    requires bytes_value { bytes ≡ source_bytes desk.now.length }
    requires shifts_in_bounds { sources_bytes (desk_of desk.now) ≤ length sources.now }
    requires has_row { HasRow rows.old at }
    ensures { AddedTo at (sum_of (desk_of desk.now) (sources_of (desk_of desk.now) sources.now) a) rows.old rows.new }
{
    for b in 0..desk.k {
        let from = b * bytes;
        let end = from + bytes;
        let e = desk.shift_of(a, b);
        rows::bytes::add_bytes(rows, at, &sources[from..end], e);
    }
}

// Parity a of the sources, each of so many bytes as the desk says, added up in a row of its own and put into the n bytes of out from byte `from` on. Encoding is the loop over it: with a call a
// parity it takes a tenth longer.
#[inline(always)]
fn put_parity(
    desk: &Desk,
    a: usize,
    bytes: usize,
    sources: &[u8],
    out: &mut [u8],
    from: usize,
    n: usize,
)
    requires a_lt_m { a < desk.now.m }
    requires bytes_value { bytes ≡ source_bytes desk.now.length }
    requires shifts_in_bounds { sources_bytes (desk_of desk.now) ≤ length sources.now }
    requires n_le_longest { n ≤ longest }
    requires n_in_bounds { from + n ≤ length out.old }
    ensures { Stored from n (parity (desk_of desk.now) (sources_of (desk_of desk.now) sources.now) a) out.old out.new }
{
    let mut row = [0u64; ROW_WORDS];
    add_row_of(desk, a, bytes, sources, &mut row, 0);
    rows::bytes::store(&row, 0, out, from, n);
}

// Every parity into out, which is as long as they are.
pub fn encode_parities(desk: &Desk, sources: &[u8], out: &mut [u8])
    requires sources_len { length sources.now ≡ sources_bytes (desk_of desk.now) }
    requires out_len { length out.old ≡ parities_bytes (desk_of desk.now) }
    ensures { out.new ≡ parities_of (desk_of desk.now) sources.now }
{
    let bytes = desk.source_bytes();
    let mut start = 0;
    for a in 0..desk.m {
        let n = desk.bytes_of_parity(a);
        put_parity(desk, a, bytes, sources, out, start, n);
        start += n;
    }
    bits::known(out);
}

// Packet i, from 0, of the sources, into out, which is as long as it is.
pub fn encode_packet(desk: &Desk, i: usize, sources: &[u8], out: &mut [u8])
    requires i_bound { i < desk.now.k + desk.now.m }
    requires sources_len { length sources.now ≡ sources_bytes (desk_of desk.now) }
    requires out_len { length out.old ≡ packet_bytes (desk_of desk.now) i }
    ensures { out.new ≡ packet_of (desk_of desk.now) sources.now i }
{
    let k = desk.k;
    let bytes = desk.source_bytes();
    if i < k {
        let from = i * bytes;
        let end = from + bytes;
        bits::copy_front(out, &sources[from..end]);
        return;
    }
    put_parity(desk, i - k, bytes, sources, out, 0, out.len());
    bits::known(out);
}
