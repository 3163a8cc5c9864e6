//! What the solves of master programs work in.
ghost use Rattle.std.specs.Prelude.{◌≡◌, ◌≤◌, ◌+◌, IfOk, OnOk};
ghost use Rattle.form.specs.declared.limits.TheConstants.{MAX_ORDERS};
ghost use Rattle.constraint_generation.specs.declared.master.TheConstants.{MAX_STATES};
ghost use Rattle.constraint_generation.specs.Answers.{reading_in};
ghost use Rattle.constraint_generation.specs.Readings.{reading_in_lists};
ghost use Rattle.constraint_generation.specs.Rooms.{IsSolveRoom};

use crate::reading::Claim;
use crate::solution::Solution;
use cert_check::{Cover, Measure, Points, Weighted};
use exact_num::Exact;
use lists::{make_room, take_list};
use simplex::Space;
use std::alloc::{AllocError, Global};

/// What the solves of master programs work in, one after another: the space of the programs and the
/// row that is given next, and the fills and the weighted states that are read off.
pub(crate) struct SolveRoom<N: Exact> {
    pub(crate) space: Space<N>,
    pub(crate) row: Vec<N>,
    pub(crate) fills: Vec<N>,
    pub(crate) points: Vec<Weighted>,
}

// Not derived: whoever owns a room lets it go by this one call, and not field by field.
impl<N: Exact> Drop for SolveRoom<N> {
    fn drop(self) {
        let SolveRoom {
            space: _space,
            row: _row,
            fills: _fills,
            points: _points,
        } = self;
    }
}

impl<N: Exact> SolveRoom<N> {
    /// Room for master programs of at most so many orders and states. The error is want of memory.
    pub(crate) fn new(
        alloc: Global,
        orders: usize,
        states: usize,
    ) -> Result<SolveRoom<N>, AllocError>
        requires orders { orders ≤ MAX_ORDERS }
        requires states { (1 ≤ states) × (states ≤ MAX_STATES) }
        ensures { IfOk result (IsSolveRoom orders states) }
    {
        Ok(SolveRoom {
            row: Vec::with_capacity(alloc, orders + 1)?,
            fills: Vec::with_capacity(alloc, orders)?,
            points: Vec::with_capacity(alloc, states)?,
            space: Space::new(alloc, orders + states, orders + 1)?,
        })
    }

    /// Makes it room for master programs of at least so many orders and states, where it is not
    /// yet. The error is want of memory.
    pub(crate) fn renew(
        &mut self,
        alloc: Global,
        orders: usize,
        states: usize,
    ) -> Result<(), AllocError>
        requires orders { orders ≤ MAX_ORDERS }
        requires states { (1 ≤ states) × (states ≤ MAX_STATES) }
        ensures { OnOk result (IsSolveRoom orders states self.new) }
    {
        self.space.reserve(alloc, orders + states, orders + 1)?;
        make_room(&mut self.row, orders + 1)?;
        make_room(&mut self.fills, orders)?;
        make_room(&mut self.points, states)
    }
}

/// What was read off, with its cover and with its lists, which are taken out of the room.
pub(crate) fn take_joint<N: Exact>(
    room: &mut SolveRoom<N>,
    read: Claim<N>,
    cover: Cover,
) -> Solution<N>
    ensures reading { reading_in N.fraction result
        ≡ reading_in_lists N.fraction room.old.fills.items room.old.points.items read }
    ensures cover { result.cover ≡ cover }
{
    Solution {
        fills: take_list(&mut room.fills),
        liability: read.liability,
        surplus: read.surplus,
        cover,
        measure: Measure {
            points: Points::from_vec(take_list(&mut room.points)),
        },
    }
}
