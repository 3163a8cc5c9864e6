//! A program as it is given. Nothing outside this file knows how it is laid out.
ghost use Rattle.std.specs.Prelude.{◌≡◌, ◌+◌, ◌*◌, ◌^◌, ◌<◌, ◌≤◌, ◌∷◌, ◌++◌, [], IfOk, length, map, slice_index_or, vec_capacity, vec_len};
ghost use Rattle.std.specs.List.{All};
ghost use Rattle.exact_num.specs.Fraction.{negated};
ghost use Rattle.simplex_run.specs.Places.{fraction_zero};
ghost use Rattle.fraction_tableau.specs.Programs.{empty_program, with_row};
ghost use Rattle.fraction_tableau.specs.declared.limits.TheConstants.{MAX_SIDE};
ghost use Rattle.fraction_tableau.specs.SparseEnds.{AreEnds};

use crate::room::turn_signs;
use crate::sparse_entry::{Entry, push_nonzero, write_entries, write_zeros};
use exact_num::Exact;
use lists::{push_within, write_all, write_front};
use std::alloc::{AllocError, Global};

/// A program without its zeros. All its memory is taken when it is made.
#[derive(Drop)]
pub struct SparseProgram<N: Copy> {
    costs: Vec<N>,
    // of each row the coefficients that are not 0, and its right side last, at the place behind
    // them
    entries: Vec<Entry<N>>,
    // where the entries of each row end
    ends: Vec<usize>,
    ghost in_order: { AreEnds 0 ends.items (length entries.items) },
    ghost inside: { All (λ e. e.place < length costs.items + 1) entries.items },
    ghost few: { vec_len entries ≤ vec_len ends * (vec_len costs + 1) },
}

impl<N: Exact> SparseProgram<N> {
    ghost use Rattle.fraction_tableau.specs.SparseEntries.{row_with};
    ghost use Rattle.fraction_tableau.specs.SparseRows.{lists_of, program_in, HasRoom, KeepsRoom};

    /// A program with room for as many rows of as many columns. It has no cost and no row yet.
    pub fn with_room(
        alloc: Global,
        rows: usize,
        columns: usize,
    ) -> Result<SparseProgram<N>, AllocError>
        requires columns { columns ≤ MAX_SIDE }
        requires numbers { rows * (columns + 1) < 2 ^ 64 }
        ensures { IfOk result (HasRoom rows columns) }
    {
        let costs = Vec::with_capacity(alloc, columns)?;
        let entries = Vec::with_capacity(alloc, rows * (columns + 1))?;
        let ends = Vec::with_capacity(alloc, rows)?;
        Ok(SparseProgram {
            costs,
            entries,
            ends,
        })
    }

    /// Starts a program: these costs, and no row.
    pub fn begin(&mut self, costs: &[N])
        requires { length costs.now ≤ vec_capacity self.old.costs }
        ensures program { program_in N.fraction self.new
            ≡ empty_program (map N.fraction costs.now) }
        ensures room { KeepsRoom self.old self.new }
    {
        self.entries.clear();
        self.ends.clear();
        write_all(&mut self.costs, costs);
    }

    /// Adds the row `a · x <= b` at the end of the program.
    pub fn row(&mut self, a: &[N], b: N)
        requires width { length a.now ≡ length self.old.costs.items }
        requires ends { vec_len self.old.ends < vec_capacity self.old.ends }
        requires entries { (vec_len self.old.ends + 1) * (vec_len self.old.costs + 1)
            ≤ vec_capacity self.old.entries }
        ensures program { program_in N.fraction self.new
            ≡ with_row (program_in N.fraction self.old) (map N.fraction a.now) (N.fraction b) }
        ensures room { KeepsRoom self.old self.new }
    {
        push_nonzero(&mut self.entries, a);
        let last = Entry {
            place: a.len(),
            number: b,
        };
        push_within(&mut self.entries, last);
        push_within(&mut self.ends, self.entries.len());
    }

    /// The number of variables.
    pub fn variables(&self) -> usize
        ensures { result ≡ length self.now.costs.items }
    {
        self.costs.len()
    }

    /// The number of rows.
    pub fn rows(&self) -> usize
        ensures { result ≡ length self.now.ends.items }
    {
        self.ends.len()
    }

    /// The costs.
    pub fn costs(&self) -> &[N]
        ensures { result.now ≡ self.now.costs.items }
    {
        self.costs.as_slice()
    }

    /// Where the entries of row i start.
    fn start(&self, i: usize) -> usize
        requires { i < length self.now.ends.items }
        ensures start { result ≡ slice_index_or (0 ∷ self.now.ends.items) i 0 }
        ensures inside { result ≤ slice_index_or self.now.ends.items i 0 }
    {
        if i == 0 { 0 } else { self.ends[i - 1] }
    }

    /// Where the entries of row i end.
    fn end(&self, i: usize) -> usize
        requires { i < length self.now.ends.items }
        ensures end { result ≡ slice_index_or self.now.ends.items i 0 }
        ensures inside { result ≤ length self.now.entries.items }
    {
        self.ends[i]
    }

    /// The entries of row i.
    fn entries(&self, i: usize) -> &[Entry<N>]
        requires { i < length self.now.ends.items }
        ensures row { row_with N.fraction (length self.now.costs.items + 1) result.now
            ≡ slice_index_or (lists_of N.fraction self.now) i [] }
        ensures inside { All (λ e. e.place < length self.now.costs.items + 1) result.now }
    {
        let start = self.start(i);
        let end = self.end(i);
        &self.entries[start..end]
    }

    /// Writes row i, its right side last.
    pub fn write_row(&self, i: usize, row: &mut [N])
        requires place { i < length self.now.ends.items }
        requires width { length row.old ≡ length self.now.costs.items + 1 }
        ensures { map N.fraction row.new ≡ slice_index_or (lists_of N.fraction self.now) i [] }
    {
        write_zeros(row);
        write_entries(row, self.entries(i));
    }

    /// Writes the objective row of the first table: the costs with their signs turned, and 0.
    pub fn write_objective(&self, row: &mut [N])
        requires { length row.old ≡ length self.now.costs.items + 1 }
        ensures { map N.fraction row.new
            ≡ map negated (map N.fraction self.now.costs.items) ++ fraction_zero ∷ [] }
    {
        write_front(row, self.costs.as_slice(), N::zero());
        turn_signs(row);
    }
}
