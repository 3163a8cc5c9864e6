//! Numbers of a row that are not 0, each with its place.
ghost use Rattle.std.specs.Prelude.{◌≡◌, ◌+◌, ◌<◌, ◌≤◌, length, map, replicate, vec_capacity, vec_len};
ghost use Rattle.std.specs.List.{All};
ghost use Rattle.simplex_run.specs.Places.{fraction_zero};
ghost use Rattle.fraction_tableau.specs.SparseEntries.{HasAdded, written};

use crate::entries::is_zero;
use exact_num::Exact;
use lists::push_within;

/// A number at its place in a row.
#[derive(Clone, Copy)]
pub struct Entry<N> {
    pub place: usize,
    pub number: N,
}

/// Adds an entry for each number that is not 0.
pub fn push_nonzero<N: Exact>(entries: &mut Vec<Entry<N>>, numbers: &[N])
    requires { vec_len entries.old + length numbers.now ≤ vec_capacity entries.old }
    ensures entries { HasAdded N.fraction numbers.now entries.old.items entries.new.items }
    ensures few { vec_len entries.new ≤ vec_len entries.old + length numbers.now }
    ensures capacity { vec_capacity entries.old ≤ vec_capacity entries.new }
{
    for place in 0..numbers.len() {
        let number = numbers[place];
        if !is_zero(number) {
            push_within(entries, Entry { place, number });
        }
    }
}

/// Makes each number of the row 0.
pub fn write_zeros<N: Exact>(row: &mut [N])
    ensures { map N.fraction row.new ≡ replicate (length row.old) fraction_zero }
{
    for j in 0..row.len() {
        row[j] = N::zero();
    }
}

/// Writes each entry at its place.
pub fn write_entries<N: Exact>(row: &mut [N], entries: &[Entry<N>])
    requires { All (λ e. e.place < length row.old) entries.now }
    ensures { map N.fraction row.new ≡ written N.fraction entries.now (map N.fraction row.old) }
{
    for entry in entries {
        row[entry.place] = entry.number;
    }
}
