//! One raw allocation for numbers of one type.
ghost use Rattle.std.specs.Prelude.{◌≡◌, ℕ, ◌+◌, ◌^◌, ◌<◌, ◌≤◌, ◌⊎◌, List, [], ◌∷◌, ◌++◌, length, take, IfOk, IsTrue};
ghost use Rattle.std.specs.Borrow.{sem};
ghost use Rattle.std.specs.Vec.Ownership.{FitsInBlock};
ghost use prog.Memory.{size, capped};
ghost use denote.Param.{layout};
ghost use Rattle.lists.specs.Ownership.{block_owns, block_lent};
ghost use Rattle.lists.specs.Parts.{part};

use std::alloc::{AllocError, Allocator};
use std::marker::{Model, PhantomData};
use std::mem::{align_of, size_of};
use std::slice::{from_raw_parts, from_raw_parts_mut};

/// Places for numbers in one raw allocation: the first hold `numbers`, and `spare` more are free.
/// With no place the pointer is null, and there is no allocation.
pub struct Block<N, A: Allocator> {
    ptr: *mut N,
    by: PhantomData<A>,
    pub(crate) ghost numbers: { List N },
    pub(crate) ghost spare: { ℕ },
    pub(crate) ghost alloc: { A },
}

impl<N, A: Allocator> Model for Block<N, A> {
    ghost also_owns = { λ b. block_owns N.row (A.dealloc_token b.alloc) b.ptr b.numbers b.spare };

    ghost also_shares = { λ b _ κ. block_lent N.row b.ptr b.numbers b.spare κ };
}

impl<N, A: Allocator> Block<N, A> {
    ghost use Rattle.lists.specs.Lends.{capacity, lends_part};

    /// A block with no place.
    pub(crate) fn none(_alloc: &A) -> Block<N, A>
        ensures { (result.numbers ≡ []) × (result.spare ≡ 0) × (result.alloc ≡ _alloc.now) }
    {
        Block {
            ptr: std::ptr::null_mut(),
            by: PhantomData,
        }
    }

    /// A block of `places` free places. `AllocError` where the allocator has no memory.
    pub(crate) fn new(alloc: &A, places: usize) -> Result<Block<N, A>, AllocError>
        requires { FitsInBlock N.row places }
        ensures { IfOk result
            (λ b. (b.numbers ≡ []) × (b.spare ≡ places) × (b.alloc ≡ alloc.now)) }
    {
        match alloc.allocate(places * size_of::<N>(), align_of::<N>()) {
            Ok(block) => Ok(Block {
                ptr: block as *mut N,
                by: PhantomData,
            }),
            Err(refused) => Err(refused),
        }
    }

    /// Gives the allocation back. `places` is how many the block has.
    pub(crate) fn free(self, alloc: &A, places: usize)
        requires { (capacity self ≡ places) × (self.alloc ≡ alloc.now) }
    {
        let Block { ptr, by: _ } = self;
        if places > 0 {
            unsafe {
                alloc.deallocate(ptr as *mut u8, places * size_of::<N>(), align_of::<N>());
            }
        }
    }

    /// Keeps the first `count` numbers, forgets the others, and puts `number` behind those kept.
    pub(crate) fn push(&mut self, count: usize, number: N)
        requires { (count ≤ length self.old.numbers) × (count < capacity self.old) }
        ensures { (self.new.numbers ≡ take count self.old.numbers ++ number ∷ [])
            × (capacity self.new ≡ capacity self.old)
            × (self.new.alloc ≡ self.old.alloc) }
    {
        unsafe { self.ptr.add(count).write(number) }
    }

    /// The `count` numbers from `start` on.
    pub(crate) fn slice(&self, start: usize, count: usize) -> &[N]
        requires { (0 < count) × (start + count ≤ length self.now.numbers) }
        ensures { result.now ≡ part start count self.now.numbers }
    {
        unsafe { from_raw_parts(self.ptr.add(start), count) }
    }

    /// The `count` numbers from `start` on, to be written.
    pub(crate) fn slice_mut(&mut self, start: usize, count: usize) -> &mut [N]
        requires { (0 < count) × (start + count ≤ length self.old.numbers) }
        ensures* writes_back { sem 𝓛 (lends_part N.row A.row A.Allocator self.entry
            start count result) }
        ensures part { result.now ≡ part start count self.old.numbers }
    {
        unsafe { from_raw_parts_mut(self.ptr.add(start), count) }
    }

    /// `count` numbers from `read` on, and `count` from `write` on, to be written.
    pub(crate) fn pair(&mut self, read: usize, write: usize, count: usize) -> (&[N], &mut [N])
        requires { (0 < count) × (read + count ≤ length self.old.numbers)
            × (write + count ≤ length self.old.numbers)
            × ((read + count ≤ write) ⊎ (write + count ≤ read)) }
        ensures* writes_back { sem 𝓛 (lends_part N.row A.row A.Allocator self.entry
            write count result.1) }
        ensures parts { (result.0.now ≡ part read count self.old.numbers)
            × (result.1.now ≡ part write count self.old.numbers) }
    {
        let first = self.ptr;
        unsafe {
            (
                from_raw_parts(first.add(read) as *const N, count),
                from_raw_parts_mut(first.add(write), count),
            )
        }
    }
}

impl<N: Copy, A: Allocator> Block<N, A> {
    ghost use Rattle.lists.specs.Lends.{capacity};

    /// Keeps the first `count` numbers, and puts `numbers` behind them. Others may stay there.
    pub(crate) fn extend(&mut self, count: usize, numbers: &[N])
        requires { (count ≤ length self.old.numbers) × (capacity self.old < 2 ^ 63)
            × (count + length numbers.now ≤ capacity self.old) }
        ensures numbers { take (count + length numbers.now) self.new.numbers
            ≡ take count self.old.numbers ++ numbers.now }
        ensures places { (count + length numbers.now ≤ length self.new.numbers)
            × (capacity self.new ≡ capacity self.old) }
        ensures alloc { self.new.alloc ≡ self.old.alloc }
    {
        for i in 0..numbers.len() {
            self.push(count + i, numbers[i]);
        }
    }

    /// A block of `places` places with the first `count` numbers of this one.
    /// `AllocError` where the allocator has no memory, or where so many places take 2^63 bytes.
    pub(crate) fn grown(
        &self,
        alloc: &A,
        count: usize,
        places: usize,
    ) -> Result<Block<N, A>, AllocError>
        requires { (count ≤ length self.now.numbers) × (count ≤ places) }
        ensures numbers { IfOk result (λ b. take count b.numbers ≡ take count self.now.numbers) }
        ensures places { IfOk result
            (λ b. (count ≤ length b.numbers) × (places < 2 ^ 63) × (capacity b ≡ places)) }
        ensures alloc { IfOk result (λ b. b.alloc ≡ alloc.now) }
    {
        if !fits::<N>(places) {
            return Err(AllocError);
        }
        let mut block = Block::new(alloc, places)?;
        if count > 0 {
            block.extend(0, self.slice(0, count));
        }
        Ok(block)
    }
}

/// The size of `N` in bytes. Elsewhere `size_of` of a type parameter is taken only in a product.
fn size_of_number<N>() -> usize
    ensures { result ≡ capped (size (layout N.row)) }
{
    size_of::<N>()
}

/// Whether `places` places are few enough for one allocation.
pub(crate) fn fits<N>(places: usize) -> bool
    ensures { IsTrue result → FitsInBlock N.row places }
{
    let most = isize::MAX as usize;
    let size = size_of_number::<N>();
    if most < places || most < size {
        return false;
    }
    match places.checked_mul(size) {
        Some(bytes) => bytes <= most,
        None => false,
    }
}
