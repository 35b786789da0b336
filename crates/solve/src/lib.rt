// Rows solved in place for the unknowns that they are made of. Bits are a polynomial in z; `rises` has an exponent v[b] for each unknown, and w[b] is z ^ v[b].
#![tactic(auto)]

ghost use Rattle.std.specs.Prelude.{◌-◌, ◌≤◌, ◌<◌};
ghost use Rattle.bits.specs.Sums.{at};
ghost use Rattle.table.specs.Limits.{max_shift};
ghost use Rattle.solve.specs.Solve.{HasPlaces, Rising, Changed, SolvedRows, SolvedColumns};
ghost use Rattle.solve.specs.EvenRows.{Eliminated, Restored, EliminatedTo};
ghost use Rattle.solve.specs.EvenColumns.{Differenced, Expanded, DifferencedTo};

// Adds to each row after row q, from the last one up, the row before it, shifted up by e bits.
fn eliminate(rows: &mut [u64], place: &[u8], e: usize, q: usize, n: usize)
    requires has_places { HasPlaces place.now n rows.old }
    requires e_le_max_shift { e ≤ max_shift }
    requires q_lt_n { q < n }
    ensures { Changed (Eliminated e q n) place.now n rows.old rows.new }
{
    for i in (q + 1..n).rev() {
        rows::add_up(rows, usize::from(place[i]), usize::from(place[i - 1]), e);
    }
}

// Eliminates one unknown after the other, but for the last.
fn eliminate_all(rows: &mut [u64], place: &[u8], rises: &[u8], n: usize)
    requires has_places { HasPlaces place.now n rows.old }
    requires rising { Rising rises.now n }
    ensures { Changed (EliminatedTo (at rises.now) n (n - 1)) place.now n rows.old rows.new }
{
    for q in 0..n - 1 {
        eliminate(rows, place, usize::from(rises[q]), q, n);
    }
}

// Divides each row b after row q by w[q] + w[b], and adds it to row q.
fn restore(rows: &mut [u64], place: &[u8], rises: &[u8], q: usize, n: usize)
    requires has_places { HasPlaces place.now n rows.old }
    requires rising { Rising rises.now n }
    requires q_lt_n { q < n }
    ensures { Changed (Restored (at rises.now) q n n) place.now n rows.old rows.new }
{
    let first = usize::from(place[q]);
    let e = usize::from(rises[q]);
    for b in q + 1..n {
        let row = usize::from(place[b]);
        rows::divide::divide(rows, row, e, usize::from(rises[b]) - e);
        rows::add_up(rows, first, row, 0);
    }
}

// Solves n rows, of which row i is the sum of w[b] ^ i times unknown b: unknown b takes the place of row b.
pub fn solve_rows(rows: &mut [u64], place: &[u8], rises: &[u8], n: usize)
    requires has_places { HasPlaces place.now n rows.old }
    requires rising { Rising rises.now n }
    ensures { Changed (SolvedRows (at rises.now) n) place.now n rows.old rows.new }
{
    eliminate_all(rows, place, rises, n);
    for q in (0..n - 1).rev() {
        restore(rows, place, rises, q, n);
    }
}

// Adds row q to each row i after it, and divides that by w[q] + w[i].
fn difference(rows: &mut [u64], place: &[u8], rises: &[u8], q: usize, n: usize)
    requires has_places { HasPlaces place.now n rows.old }
    requires rising { Rising rises.now n }
    requires q_lt_n { q < n }
    ensures { Changed (Differenced (at rises.now) q n n) place.now n rows.old rows.new }
{
    let first = usize::from(place[q]);
    let e = usize::from(rises[q]);
    for i in q + 1..n {
        let row = usize::from(place[i]);
        rows::add_up(rows, row, first, 0);
        rows::divide::divide(rows, row, e, usize::from(rises[i]) - e);
    }
}

// Makes the rows divided differences, one after the other.
fn difference_all(rows: &mut [u64], place: &[u8], rises: &[u8], n: usize)
    requires has_places { HasPlaces place.now n rows.old }
    requires rising { Rising rises.now n }
    ensures { Changed (DifferencedTo (at rises.now) n (n - 1)) place.now n rows.old rows.new }
{
    for q in 0..n - 1 {
        difference(rows, place, rises, q, n);
    }
}

// Adds to each row from row q on, but for the last, the row after it, shifted up by e bits.
fn expand(rows: &mut [u64], place: &[u8], e: usize, q: usize, n: usize)
    requires has_places { HasPlaces place.now n rows.old }
    requires e_le_max_shift { e ≤ max_shift }
    requires q_lt_n { q < n }
    ensures { Changed (Expanded e q (n - 1) n) place.now n rows.old rows.new }
{
    for b in q..n - 1 {
        rows::add_up(rows, usize::from(place[b]), usize::from(place[b + 1]), e);
    }
}

// Solves n rows, of which row i is the sum of w[i] ^ b times unknown b: unknown b takes the place of row b.
pub fn solve_columns(rows: &mut [u64], place: &[u8], rises: &[u8], n: usize)
    requires has_places { HasPlaces place.now n rows.old }
    requires rising { Rising rises.now n }
    ensures { Changed (SolvedColumns (at rises.now) n) place.now n rows.old rows.new }
{
    difference_all(rows, place, rises, n);
    for q in (0..n - 1).rev() {
        expand(rows, place, usize::from(rises[q]), q, n);
    }
}
