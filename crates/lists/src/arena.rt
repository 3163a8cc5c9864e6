//! Rows of one width over one raw block.
ghost use Rattle.std.specs.Prelude.{◌≡◌, ◌≢◌, ◌+◌, ◌-◌, ◌<◌, ◌≤◌, [], ◌∷◌, ◌++◌, length, take, slice_index_or, OnOk, OnErr};

use crate::block::Block;
use std::alloc::{AllocError, Global};
use std::marker::Model;
use std::mem::replace;

/// Rows of numbers, all of one width, one behind another in one raw block.
///
/// A contract sees the list of rows, the width (how many numbers a row has) and `spare` (how many
/// more rows fit without taking memory). Only `reserve` takes memory.
pub struct RowArena<N: Copy> {
    // The rows, and behind them perhaps numbers of rows that were released.
    block: Block<N, Global>,
    alloc: Global,
    width: usize,
    count: usize,
    spare: usize,
}

impl<N: Copy> Model for RowArena<N> {
    ghost use Rattle.lists.specs.Rows.{Rows, rows_code};

    ghost Value = { Rows N };

    ghost coded = { rows_code N.code };

    ghost use Rattle.lists.specs.Rows.{cut_rows, IsBlock};
    ghost use Rattle.std.specs.Prelude.{◌≡◌, ◌+◌, length};

    ghost view = { λ s. record {
      rows = cut_rows s.width s.count s.block.numbers;
      width = s.width;
      spare = s.spare;
    } };

    ghost invariant = { λ s. IsBlock s.width s.count s.spare (length s.block.numbers)
        (length s.block.numbers + s.block.spare) × (s.block.alloc ≡ s.alloc) };
}

impl<N: Copy> Drop for RowArena<N> {
    fn drop(self) {
        let RowArena {
            block,
            alloc,
            width,
            count,
            spare,
        } = self;
        block.free(&alloc, (count + spare) * width);
    }
}

impl<N: Copy> RowArena<N> {
    ghost use Rattle.lists.specs.Lending.{with_row};
    ghost use Rattle.lists.specs.contracts.arena.RowArena.{the_row};
    ghost use Rattle.std.specs.Borrow.{sem, follows, Array};

    /// An arena with no row and no spare row, for rows of `width` numbers, 1 to 1,048,576.
    pub fn new(alloc: Global, width: usize) -> RowArena<N>
        requires { (1 ≤ width) × (width ≤ 1048576) }
        ensures { (result.rows ≡ []) × (result.width ≡ width) × (result.spare ≡ 0) }
    {
        RowArena {
            block: Block::none(&alloc),
            alloc,
            width,
            count: 0,
            spare: 0,
        }
    }

    /// The number of rows.
    pub fn len(&self) -> usize
        ensures { result ≡ length self.now.rows }
    {
        self.count
    }

    /// How many more rows fit without taking memory.
    pub fn spare(&self) -> usize
        ensures { result ≡ self.now.spare }
    {
        self.spare
    }

    /// How many numbers a row has.
    pub fn width(&self) -> usize
        ensures { result ≡ self.now.width }
    {
        self.width
    }

    /// Makes room for at least `rows` more rows. The rows stay.
    ///
    /// `AllocError` where the allocator has no memory, or where all rows together would take
    /// 2^63 numbers or bytes; then nothing changes.
    pub fn reserve(&mut self, rows: usize) -> Result<(), AllocError>
        ensures kept { (self.new.rows ≡ self.old.rows) × (self.new.width ≡ self.old.width) }
        ensures room { OnOk result (rows ≤ self.new.spare) }
        ensures spare { self.old.spare ≤ self.new.spare }
        ensures unchanged { OnErr result (self.new ≡ self.old) }
    {
        if rows <= self.spare {
            return Ok(());
        }
        let Some(count) = self.count.checked_add(rows) else {
            return Err(AllocError);
        };
        let Some(places) = count.checked_mul(self.width) else {
            return Err(AllocError);
        };
        let block = self
            .block
            .grown(&self.alloc, self.count * self.width, places)?;
        let old = replace(&mut self.block, block);
        old.free(&self.alloc, (self.count + self.spare) * self.width);
        self.spare = rows;
        Ok(())
    }

    /// Puts `row` behind the last row, into a spare one.
    pub fn append(&mut self, row: &[N])
        requires spare { 0 < self.old.spare }
        requires width { length row.now ≡ self.old.width }
        ensures rows { self.new.rows ≡ self.old.rows ++ row.now ∷ [] }
        ensures width { self.new.width ≡ self.old.width }
        ensures spare { self.new.spare + 1 ≡ self.old.spare }
    {
        self.block.extend(self.count * self.width, row);
        self.count += 1;
        self.spare -= 1;
    }

    /// The numbers of row `i`, counted from 0.
    pub fn row(&self, i: usize) -> &[N]
        requires { i < length self.now.rows }
        ensures row { result.now ≡ slice_index_or self.now.rows i [] }
        ensures width { length result.now ≡ self.now.width }
    {
        self.block.slice(i * self.width, self.width)
    }

    /// Keeps the first `k` rows. The others become spare.
    pub fn release_from(&mut self, k: usize)
        requires { k ≤ length self.old.rows }
        ensures rows { self.new.rows ≡ take k self.old.rows }
        ensures width { self.new.width ≡ self.old.width }
        ensures spare { self.new.spare ≡ self.old.spare + (length self.old.rows - k) }
    {
        self.spare += self.count - k;
        self.count = k;
    }

    /// Row `read` to read, and another row, `write`, to write. What is written changes that row
    /// alone.
    pub fn pair(&mut self, read: usize, write: usize) -> (&[N], &mut [N])
        requires inside { (read < length self.old.rows) × (write < length self.old.rows) }
        requires apart { read ≢ write }
        ensures* writes_back { sem 𝓛 (follows (the_row N.row) (Array N.row 0)
            self.entry.ghost_name result.1.ghost_name (with_row self.old write)) }
        ensures parts { (result.0.now ≡ slice_index_or self.old.rows read [])
            × (result.1.now ≡ slice_index_or self.old.rows write []) }
        ensures widths { (length result.0.now ≡ self.old.width)
            × (length result.1.now ≡ self.old.width) }
    {
        let width = self.width;
        self.block.pair(read * width, write * width, width)
    }

    /// Row `i`, to be written. What is written changes that row alone.
    pub fn row_mut(&mut self, i: usize) -> &mut [N]
        requires { i < length self.old.rows }
        ensures* writes_back { sem 𝓛 (follows (the_row N.row) (Array N.row 0) self.entry.ghost_name
            result.ghost_name (with_row self.old i)) }
        ensures row { result.now ≡ slice_index_or self.old.rows i [] }
        ensures width { length result.now ≡ self.old.width }
    {
        let width = self.width;
        self.block.slice_mut(i * width, width)
    }
}
