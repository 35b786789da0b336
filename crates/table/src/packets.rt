// The bits, the bytes and the place of each packet. Packets are counted from 0.
ghost use Rattle.std.specs.Prelude.{◌≡◌, true, false, length, ℕ, ◌+◌, ◌*◌, ◌/◌, ◌%◌, ◌≤◌, ◌<◌};
ghost use Rattle.bits.specs.Sums.{at};
ghost use Rattle.table.specs.Limits.{max_k, max_m, max_length, max_shift, max_packets, all_sources, longest, cells};
ghost use Rattle.table.specs.Desk.{entry, most, source_bits, source_bytes, sources_bytes, packet_bits, packet_bytes, parities_bytes, survivors_bytes};
ghost use Rattle.table.specs.Table.{Measured, NextMark, laid_out};
ghost use Rattle.table.specs.Desks.{Stands, Remarked, desk_of};
ghost use Rattle.table.specs.Checks.{Checked, shape_checks};

use crate::{Desk, Table, lay_row};

// The first packet present from packet i on, or n where there is none below n.
pub fn next_present(marks: u64, i: usize, n: usize) -> usize
    requires { (i ≤ n) × (n ≤ max_packets) }
    ensures { NextMark true marks i n result }
{
    let rest = marks >> i;
    if rest == 0 {
        return n;
    }
    let next = i + rest.trailing_zeros() as usize;
    next.min(n)
}

// The first packet missing from packet i on, or n where there is none below n.
pub fn next_missing(marks: u64, i: usize, n: usize) -> usize
    requires { (i ≤ n) × (n ≤ max_packets) }
    ensures { NextMark false marks i n result }
{
    let next = i + (u64::MAX - (marks >> i)).trailing_zeros() as usize;
    next.min(n)
}

// The bits of a source of so many bytes.
pub fn source_bits(length: usize) -> usize
    requires { length ≤ max_length }
    ensures { result ≡ source_bits length }
{
    8 * length
}

// The bytes of a source.
pub fn source_bytes(length: usize) -> usize
    ensures { result ≡ source_bytes length }
{
    length
}

// The bytes of k sources.
pub fn sources_bytes(k: usize, length: usize) -> usize
    requires { (k ≤ max_k) × (length ≤ max_length) }
    ensures { (result ≡ k * source_bytes length) × (result ≤ all_sources) }
{
    k * source_bytes(length)
}

// The largest of the k bytes of s from byte `from` on, or 0 where k is.
fn largest(s: &[u8], from: usize, k: usize) -> usize
    requires { from + k ≤ length s.now }
    ensures { (result ≡ most k (λ b. at s.now (from + b))) × (result < 256) }
{
    let mut x = 0;
    for b in 0..k {
        let y = usize::from(s[from + b]);
        if x < y {
            x = y;
        }
    }
    x
}

// How far parity a shifts its sources up: the largest shift of its row.
pub fn reach(k: usize, shifts: &[u8; Table::CELLS], a: usize) -> usize
    requires { (k ≤ max_k) × (a < max_m) × ((i : ℕ) → at shifts.now i ≤ max_shift) }
    ensures { (result ≡ most k (laid_out k shifts.now a)) × (result ≤ max_shift) }
{
    largest(shifts, a * Table::SOURCES, k)
}

// Lays the bytes of a table, row by row, out on a sheet of noughts, and puts the reach of every parity in its place. Row by row for both: two loops over the rows take a short table longer.
fn lay_rows(k: usize, m: usize, table: &[u8], shifts: &mut [u8], reaches: &mut [u8])
    requires k_le_max_k { (k ≤ max_k) × (m ≤ max_m) × (length table.now ≡ m * k) }
    requires shifts_len { length shifts.old ≡ cells }
    requires by_index { (i : ℕ) → at shifts.old i ≡ 0 }
    requires reaches_len { length reaches.old ≡ max_m }
    ensures laid { (i : ℕ) → i < cells → at shifts.new i ≡ entry k table.now (i / max_k) (i % max_k) }
    ensures measured { (a : ℕ) → a < m → at reaches.new a ≡ most k (entry k table.now a) }
{
    for a in 0..m {
        lay_row(k, table, a, shifts);
        reaches[a] = largest(table, a * k, k) as u8;
    }
}

impl Desk {
    // A desk of the least size, for a call to lay its own on.
    #[inline(always)]
    pub fn least() -> Desk
        ensures { (result.k ≡ 1) × (result.m ≡ 1) × (result.length ≡ 1) × (result.marks ≡ 0) }
    {
        Desk {
            k: 1,
            m: 1,
            length: 1,
            marks: 0,
            shifts: [0u8; Table::CELLS],
            reaches: [0u8; Table::PARITIES],
        }
    }

    // Lays numbers and bytes that were accepted on the desk, with no packets at hand. Shifts and reaches are put where they stay: a copy of bytes that were just written would wait for them.
    pub fn lay(&mut self, k: u64, m: u64, l: u64, table: &[u8])
        requires { Checked (shape_checks k m l table.now) 0 }
        ensures { Stands k m l table.now 0 self.new }
    {
        self.k = k as usize;
        self.m = m as usize;
        self.length = l as usize;
        self.marks = 0;
        self.shifts = [0u8; Table::CELLS];
        lay_rows(
            k as usize,
            m as usize,
            table,
            &mut self.shifts,
            &mut self.reaches,
        );
    }

    // The desk of numbers and bytes that were accepted, with no packets at hand.
    #[inline(always)]
    pub fn new(k: u64, m: u64, l: u64, table: &[u8]) -> Desk
        requires { Checked (shape_checks k m l table.now) 0 }
        ensures { Stands k m l table.now 0 result }
    {
        let mut desk = Desk::least();
        desk.lay(k, m, l, table);
        desk
    }

    // Puts the packets of these marks at hand.
    pub fn put_marks(&mut self, marks: u64)
        ensures { Remarked marks self.old self.new }
    {
        self.marks = marks;
    }

    // The bits of a source.
    pub fn source_bits(&self) -> usize
        ensures { result ≡ source_bits self.now.length }
    {
        source_bits(self.length)
    }

    // The bytes of a source.
    pub fn source_bytes(&self) -> usize
        ensures { result ≡ source_bytes self.now.length }
    {
        source_bytes(self.length)
    }

    // The shift of parity a and source b.
    pub fn shift_of(&self, a: usize, b: usize) -> usize
        requires { (a < self.now.m) × (b < self.now.k) }
        ensures { (result ≡ laid_out self.now.k self.now.shifts a b) × (result ≤ max_shift) }
    {
        usize::from(self.shifts[a * Table::SOURCES + b])
    }

    // The bytes of all sources: no shift matters.
    pub fn sources_bytes(&self) -> usize
        ensures { (result ≡ sources_bytes (desk_of self.now)) × (result ≤ all_sources) }
    {
        sources_bytes(self.k, self.length)
    }

    // The bits of parity a.
    fn bits_of_parity(&self, a: usize) -> usize
        requires { a < self.now.m }
        ensures { (result ≡ packet_bits (desk_of self.now) (self.now.k + a)) × (result ≤ 8 * longest) }
    {
        self.source_bits() + usize::from(self.reaches[a])
    }

    // The bytes of parity a.
    pub fn bytes_of_parity(&self, a: usize) -> usize
        requires { a < self.now.m }
        ensures { (result ≡ packet_bytes (desk_of self.now) (self.now.k + a)) × (result ≤ longest) }
    {
        (self.bits_of_parity(a) + 7) / 8
    }

    // The bits of packet i.
    pub fn bits_of(&self, i: usize) -> usize
        requires { i < self.now.k + self.now.m }
        ensures { (result ≡ packet_bits (desk_of self.now) i) × (result ≤ 8 * longest) }
    {
        if i < self.k {
            return self.source_bits();
        }
        self.bits_of_parity(i - self.k)
    }

    // The bytes of packet i.
    pub fn bytes_of(&self, i: usize) -> usize
        requires { i < self.now.k + self.now.m }
        ensures { (result ≡ packet_bytes (desk_of self.now) i) × (result ≤ longest) }
    {
        if i < self.k {
            return self.source_bytes();
        }
        self.bytes_of_parity(i - self.k)
    }

    // The bytes of all parities.
    pub fn bytes_of_parities(&self) -> usize
        ensures { result ≡ parities_bytes (desk_of self.now) }
    {
        let mut total = 0;
        for a in 0..self.m {
            total += self.bytes_of_parity(a);
        }
        total
    }

    // The bytes of all packets present, from one to the next.
    pub fn bytes_of_survivors(&self) -> usize
        ensures { result ≡ survivors_bytes (desk_of self.now) }
    {
        let n = self.k + self.m;
        let mut total = 0;
        let mut i = next_present(self.marks, 0, n);
        while i < n {
            total += self.bytes_of(i);
            i = next_present(self.marks, i + 1, n);
        }
        total
    }
}
