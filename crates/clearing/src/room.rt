//! What a batch is cleared in. All memory of a clear is taken here, before the first step of its
//! run.
ghost use Rattle.std.specs.Prelude.{◌≤◌, IfOk, OnOk};
ghost use Rattle.form.specs.declared.limits.TheConstants.{MAX_BUDGET};
ghost use Rattle.form.specs.Limits.{IsWithinLimits};
ghost use Rattle.clearing.specs.Rooms.{IsClearRoom};

use crate::fallback::Matched;
use constraint_generation::JointRoom;
use form::Batch;
use frac::Frac128;
use sign_tree::leg_count;
use std::alloc::{AllocError, Global};

/// What a batch is cleared in, with at most so many units. Only `new` and `renew` take memory. A
/// contract sees it as the batch and the limit that it is for; after a clear it is for none until
/// `renew`, since the outcome takes its lists out.
pub struct ClearRoom {
    pub(crate) run: JointRoom<Frac128>,
    // a sign for each leg, for the sums of the verdict
    pub(crate) signs: Vec<i8>,
    // where the run stops
    pub(crate) matched: Matched,
}

// Not derived: whoever owns a room lets it go by this one call, and not field by field.
impl Drop for ClearRoom {
    fn drop(self) {
        let ClearRoom {
            run: _run,
            signs: _signs,
            matched: _matched,
        } = self;
    }
}

impl ClearRoom {
    /// Room for the clearing of the batch with at most `limit` units. The error is want of memory.
    pub fn new(alloc: Global, batch: &Batch, limit: u32) -> Result<ClearRoom, AllocError>
        requires within { IsWithinLimits batch.now }
        requires limit { limit ≤ MAX_BUDGET }
        ensures { IfOk result (IsClearRoom batch.now limit) }
    {
        Ok(ClearRoom {
            signs: vec![in alloc; 0_i8; leg_count(batch.orders.as_slice())]?,
            matched: Matched::new(alloc, batch)?,
            run: JointRoom::new(alloc, batch, limit)?,
        })
    }

    /// Makes it room for the clearing of this batch with at most `limit` units. The tables of the
    /// programs, by far the most of it, stay where they are large enough; the lists that an outcome
    /// takes out, and the match of the batch, are taken anew. The error is want of memory.
    pub fn renew(&mut self, alloc: Global, batch: &Batch, limit: u32) -> Result<(), AllocError>
        requires within { IsWithinLimits batch.now }
        requires limit { limit ≤ MAX_BUDGET }
        ensures { OnOk result (IsClearRoom batch.now limit self.new) }
    {
        self.run.renew(alloc, batch, limit)?;
        self.signs.resize(leg_count(batch.orders.as_slice()), 0)?;
        self.matched = Matched::new(alloc, batch)?;
        Ok(())
    }
}
