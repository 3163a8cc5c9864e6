//! What a batch is cleared in by a run in narrow numbers first.
ghost use Rattle.std.specs.Prelude.{◌≤◌, IfOk};
ghost use Rattle.form.specs.declared.limits.TheConstants.{MAX_BUDGET};
ghost use Rattle.form.specs.Limits.{IsWithinLimits};
ghost use Rattle.narrow_clearing.specs.Rooms.{IsFirstRoom};

use clearing::ClearRoom;
use constraint_generation::JointRoom;
use exact_num::Exact;
use form::Batch;
use frac::{Frac64, Frac128};
use std::alloc::{AllocError, Global};

/// What a batch is cleared in by a run in N first. Only `new` takes memory. A contract sees it as
/// the batch and the limit that it is for.
#[derive(Drop)]
pub struct FirstRoom<N: Exact> {
    pub(crate) first: JointRoom<N>,
    // the fills that are found in N, in 128 bits
    pub(crate) fills: Vec<Frac128>,
    pub(crate) broad: ClearRoom,
}

impl<N: Exact> FirstRoom<N> {
    /// Room for the clearing of the batch with at most `limit` units. The error is want of memory.
    pub fn new(alloc: Global, batch: &Batch, limit: u32) -> Result<FirstRoom<N>, AllocError>
        requires within { IsWithinLimits batch.now }
        requires limit { limit ≤ MAX_BUDGET }
        ensures { IfOk result (IsFirstRoom batch.now limit) }
    {
        Ok(FirstRoom {
            fills: Vec::with_capacity(alloc, batch.orders.as_slice().len())?,
            first: JointRoom::new(alloc, batch, limit)?,
            broad: ClearRoom::new(alloc, batch, limit)?,
        })
    }
}

/// What a batch is cleared in by a run in 64 bits first.
pub type Room = FirstRoom<Frac64>;
