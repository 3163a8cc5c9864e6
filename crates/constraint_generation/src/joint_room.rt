//! What a joint solve works in.
ghost use Rattle.std.specs.Prelude.{ℕ, ◌≡◌, ◌≤◌, ◌<◌, ◌+◌, IfOk, OnOk};
ghost use Rattle.form.specs.Limits.{IsWithinLimits};
ghost use Rattle.pricing_oracle.specs.Sizes.{AreWithin, sizes_for};
ghost use Rattle.constraint_generation.specs.Rooms.{IsJointRoom};

use crate::first_states::write_axis_rays;
use crate::solve_room::SolveRoom;
use exact_num::Exact;
use form::{Batch, State};
use line_cover::breakpoints;
use lists::make_room;
use pricing_oracle::{SearchRoom, SearchSizes};
use std::alloc::{AllocError, Global};

/// The most units of a joint solve in given room.
pub const MAX_UNITS: u32 = 199_000;

/// What the joint solve of a batch with so many units works in. Only `new` and `renew` take memory.
/// What a solve finds takes its lists out of the room, which is then room for no batch until
/// `renew`.
pub struct JointRoom<N: Exact> {
    // the states of the line, or those of the rounds so far
    pub(crate) states: Vec<State>,
    pub(crate) solve: SolveRoom<N>,
    // for several underlyings
    pub(crate) search: Option<SearchRoom<N>>,
}

// Not derived: whoever owns a room lets it go by this one call, and not field by field.
impl<N: Exact> Drop for JointRoom<N> {
    fn drop(self) {
        let JointRoom {
            states: _states,
            solve: _solve,
            search: _search,
        } = self;
    }
}

// Room for a batch on one underlying.
fn line_room<N: Exact>(alloc: Global, batch: &Batch) -> Result<JointRoom<N>, AllocError>
    requires limits { IsWithinLimits batch.now }
    requires one { batch.now.underlyings ≡ 1 }
    ensures { (units : ℕ) → IfOk result (IsJointRoom batch.now units) }
{
    let states = breakpoints(alloc, batch)?;
    let solve = SolveRoom::new(alloc, batch.orders.as_slice().len(), states.len())?;
    Ok(JointRoom {
        states,
        solve,
        search: None,
    })
}

// Room for a batch on several underlyings.
fn rounds_room<N: Exact>(
    alloc: Global,
    batch: &Batch,
    units: u32,
) -> Result<JointRoom<N>, AllocError>
    requires limits { IsWithinLimits batch.now }
    requires several { 1 < batch.now.underlyings }
    requires units { units ≤ MAX_UNITS }
    ensures { IfOk result (IsJointRoom batch.now units) }
{
    let orders = batch.orders.as_slice();
    let more = usize::from(batch.underlyings) + units as usize / 2;
    let mut states = Vec::with_capacity(alloc, more)?;
    write_axis_rays(&mut states, batch.underlyings);
    let solve = SolveRoom::new(alloc, orders.len(), 1 + more)?;
    let search = SearchRoom::new(alloc, SearchSizes::of(batch, units))?;
    Ok(JointRoom {
        states,
        solve,
        search: Some(search),
    })
}

// Makes it room for a batch on one underlying, and gives back the room for searches.
fn renew_line<N: Exact>(
    room: &mut JointRoom<N>,
    alloc: Global,
    batch: &Batch,
) -> Result<(), AllocError>
    requires limits { IsWithinLimits batch.now }
    requires one { batch.now.underlyings ≡ 1 }
    ensures { (units : ℕ) → OnOk result (IsJointRoom batch.now units room.new) }
{
    let states = breakpoints(alloc, batch)?;
    let orders = batch.orders.as_slice().len();
    room.solve.renew(alloc, orders, states.len())?;
    room.states = states;
    room.search = None;
    Ok(())
}

// Room for searches, that which is given where it is large enough.
fn search_room<N: Exact>(
    alloc: Global,
    given: Option<SearchRoom<N>>,
    batch: &Batch,
    units: u32,
) -> Result<SearchRoom<N>, AllocError>
    requires limits { IsWithinLimits batch.now }
    ensures { IfOk result (λ search. AreWithin (sizes_for batch.now units) search.sizes) }
{
    let sizes = SearchSizes::of(batch, units);
    match given {
        Some(mut search) => {
            search.renew(alloc, sizes)?;
            Ok(search)
        }
        None => SearchRoom::new(alloc, sizes),
    }
}

// Makes it room for a batch on several underlyings.
fn renew_rounds<N: Exact>(
    room: &mut JointRoom<N>,
    alloc: Global,
    batch: &Batch,
    units: u32,
) -> Result<(), AllocError>
    requires limits { IsWithinLimits batch.now }
    requires several { 1 < batch.now.underlyings }
    requires units { units ≤ MAX_UNITS }
    ensures { OnOk result (IsJointRoom batch.now units room.new) }
{
    let later = usize::from(batch.underlyings) + units as usize / 2;
    make_room(&mut room.states, later)?;
    write_axis_rays(&mut room.states, batch.underlyings);
    let orders = batch.orders.as_slice().len();
    room.solve.renew(alloc, orders, 1 + later)?;
    let search = search_room(alloc, room.search.take(), batch, units)?;
    room.search = Some(search);
    Ok(())
}

impl<N: Exact> JointRoom<N> {
    /// Room for the joint solve of the batch with at most so many units. The error is want of
    /// memory.
    pub fn new(alloc: Global, batch: &Batch, units: u32) -> Result<JointRoom<N>, AllocError>
        requires limits { IsWithinLimits batch.now }
        requires units { units ≤ MAX_UNITS }
        ensures { IfOk result (IsJointRoom batch.now units) }
    {
        if batch.underlyings == 1 {
            line_room(alloc, batch)
        } else {
            rounds_room(alloc, batch, units)
        }
    }

    /// Makes it room for the joint solve of this batch with at most so many units: its programs and
    /// rows stay where they are large enough, and the lists that a solve takes out are taken anew.
    /// A batch on one underlying needs no room for searches, so that is given back, and taken anew
    /// for the next batch on several. The error is want of memory.
    pub fn renew(&mut self, alloc: Global, batch: &Batch, units: u32) -> Result<(), AllocError>
        requires limits { IsWithinLimits batch.now }
        requires units { units ≤ MAX_UNITS }
        ensures { OnOk result (IsJointRoom batch.now units self.new) }
    {
        if batch.underlyings == 1 {
            renew_line(self, alloc, batch)
        } else {
            renew_rounds(self, alloc, batch, units)
        }
    }
}
