//! The walk over a cover: sums and what is known are kept along it, and set back behind a subtree.

ghost use Rattle.std.specs.Prelude.{◌≡◌, ◌-◌, length, map, reverse, slice_set, true, IfOk};
ghost use Rattle.frac.specs.Range.{limit};
ghost use Rattle.frac.specs.Value.{fraction_of};
ghost use Rattle.cell_cover.specs.Read.{multiplier_of, node_of};
ghost use Rattle.cell_cover.specs.Kinked.{classes_as};
ghost use Rattle.cell_cover.specs.Kept.{IsChanged, behind, pending_of, set_back, state_of, still_to_come, taken_as};
ghost use Rattle.cell_cover.specs.NodeWalk.{bound_step, leaf_step, next_side, node_step, split_step};

use crate::cover::{Multiplier, Node};
use crate::kinked::{Cell, Kinked};
use crate::leaf::leaf_closes;
use crate::lookups::{index_of, kink_at, unsigned};
use crate::mixing::{plus_sums, rebound, with_bound};
use crate::vectors::{Knowledge, Row, Sign};
use exact_num::Wide;
use std::alloc::AllocError;

/// The bound of a class before it got a sign or another bound, and whether the minus side of its
/// split is still to come.
#[derive(Clone, Copy)]
pub struct Change {
    pub class: u32,
    pub before: Row,
    pub splits: bool,
}

/// A walk that has come to a cell.
#[derive(Drop)]
pub struct Walk {
    pub sums: Row,
    pub known: Vec<Knowledge>,
    /// What to set back behind the cell, the last change at the end.
    pub changes: Vec<Change>,
    /// The sums from before each split whose minus side is still to come.
    pub saved: Vec<Row>,
}

/// What a node has led to.
#[derive(Clone, Copy)]
pub enum Taken {
    On,
    Ended,
    Open,
    Wide(Wide),
}

/// Knows this of the class, where there is one.
fn know(known: &mut Vec<Knowledge>, class: u32, knowledge: Knowledge)
    ensures { known.new.items ≡ slice_set known.old.items (class - 1) knowledge }
{
    let i = index_of(class);
    if i < known.len() {
        known[i] = knowledge;
    }
}

impl Walk {
    /// Takes a node. Where the walk goes on, it has come to the next cell.
    pub fn take(&mut self, kinked: Kinked, node: &Node) -> Result<Taken, AllocError>
        requires { length self.old.known.items ≡ length kinked.classes.now }
        ensures as_many { length self.new.known.items ≡ length self.old.known.items }
        ensures step { IfOk result (λ taken. taken_as kinked.entry.entries taken self.new
            ≡ node_step limit (kinked.entry.entries - 1) (classes_as kinked.entry)
            (fraction_of kinked.entry.liability.now) (state_of kinked.entry.entries self.old)
            (node_of node.now)) }
    {
        match node {
            Node::Split { class } => self.split(kinked, *class),
            Node::Bound { class, minus, plus } => {
                self.bound(kinked, *class, minus.as_slice(), plus.as_slice())
            }
            Node::Leaf { full, multipliers } => {
                self.leaf(kinked, full.as_slice(), multipliers.as_slice())
            }
        }
    }

    /// Knows something else of a class with this bound, which is set back behind the subtree.
    fn change(
        &mut self,
        class: u32,
        before: Row,
        knowledge: Knowledge,
        splits: bool,
    ) -> Result<Taken, AllocError>
        ensures as_many { length self.new.known.items ≡ length self.old.known.items }
        ensures changed { IfOk result (IsChanged self.old self.new
            (record { class = class; before = before; splits = splits }) knowledge) }
    {
        self.changes.push(Change {
            class,
            before,
            splits,
        })?;
        know(&mut self.known, class, knowledge);
        Ok(Taken::On)
    }

    /// Goes into the plus side of a split.
    fn split(&mut self, kinked: Kinked, number: u32) -> Result<Taken, AllocError>
        requires { length self.old.known.items ≡ length kinked.classes.now }
        ensures as_many { length self.new.known.items ≡ length self.old.known.items }
        ensures step { IfOk result (λ taken. taken_as kinked.entry.entries taken self.new
            ≡ split_step limit (classes_as kinked.entry) (state_of kinked.entry.entries self.old)
            number) }
    {
        let Some((class, bound)) = unsigned(kinked, self.known.as_slice(), number) else {
            return Ok(Taken::Open);
        };
        match plus_sums(kinked.entries, &class, &bound, &self.sums) {
            Ok(sums) => {
                self.saved.push(self.sums)?;
                self.sums = sums;
                self.change(number, bound, Knowledge::Signed(Sign::Plus), true)
            }
            Err(wide) => Ok(Taken::Wide(wide)),
        }
    }

    /// Goes into the side of a bound.
    fn bound(
        &mut self,
        kinked: Kinked,
        number: u32,
        minus: &[Multiplier],
        plus: &[Multiplier],
    ) -> Result<Taken, AllocError>
        requires { length self.old.known.items ≡ length kinked.classes.now }
        ensures as_many { length self.new.known.items ≡ length self.old.known.items }
        ensures step { IfOk result (λ taken. taken_as kinked.entry.entries taken self.new
            ≡ bound_step limit (kinked.entry.entries - 1) (classes_as kinked.entry)
            (state_of kinked.entry.entries self.old) number
            (map multiplier_of minus.now) (map multiplier_of plus.now)) }
    {
        let Some((class, before)) = unsigned(kinked, self.known.as_slice(), number) else {
            return Ok(Taken::Open);
        };
        let cell = Cell {
            sums: &self.sums,
            known: self.known.as_slice(),
        };
        match rebound(kinked, cell, &class, &before, minus, plus) {
            Ok(Some((next, sums))) => {
                self.sums = sums;
                self.change(number, before, Knowledge::Bounded(next), false)
            }
            Ok(None) => Ok(Taken::Open),
            Err(wide) => Ok(Taken::Wide(wide)),
        }
    }

    /// Checks a leaf, and goes into the next side that is to come.
    fn leaf(
        &mut self,
        kinked: Kinked,
        full: &[u32],
        multipliers: &[Multiplier],
    ) -> Result<Taken, AllocError>
        ensures as_many { length self.new.known.items ≡ length self.old.known.items }
        ensures step { IfOk result (λ taken. taken_as kinked.entry.entries taken self.new
            ≡ leaf_step limit (kinked.entry.entries - 1) (classes_as kinked.entry)
            (fraction_of kinked.entry.liability.now) (state_of kinked.entry.entries self.old)
            full.now (map multiplier_of multipliers.now)) }
    {
        let cell = Cell {
            sums: &self.sums,
            known: self.known.as_slice(),
        };
        match leaf_closes(kinked, cell, full, multipliers) {
            Ok(true) => self.turn(kinked),
            Ok(false) => Ok(Taken::Open),
            Err(wide) => Ok(Taken::Wide(wide)),
        }
    }

    /// Sets back what was known up to the last split whose minus side is still to come, and goes
    /// into that side. Ends where there is none.
    fn turn(&mut self, kinked: Kinked) -> Result<Taken, AllocError>
        ensures as_many { length self.new.known.items ≡ length self.old.known.items }
        ensures step { IfOk result (λ taken. taken_as kinked.entry.entries taken self.new
            ≡ next_side limit (classes_as kinked.entry)
            (still_to_come kinked.entry.entries self.old)) }
    {
        while let Some(change) = self.changes.pop() {
            know(
                &mut self.known,
                change.class,
                Knowledge::Bounded(change.before),
            );
            if change.splits {
                return self.minus(kinked, change);
            }
        }
        Ok(Taken::Ended)
    }

    /// Goes into the minus side of the split, before which all stands as it was.
    fn minus(&mut self, kinked: Kinked, change: Change) -> Result<Taken, AllocError>
        requires { set_back self.old.known.items change ≡ self.old.known.items }
        ensures as_many { length self.new.known.items ≡ length self.old.known.items }
        ensures step { IfOk result (λ taken. taken_as kinked.entry.entries taken self.new
            ≡ next_side limit (classes_as kinked.entry)
            (behind kinked.entry.entries self.old.known.items change true
            (reverse self.old.saved.items) (pending_of kinked.entry.entries self.old.known.items
            (reverse self.old.changes.items)))) }
    {
        let Some(sums) = self.saved.pop() else {
            return Ok(Taken::Ended);
        };
        let kink = kink_at(kinked.classes, change.class);
        match with_bound(kinked.entries, Sign::Minus, kink, &change.before, &sums) {
            Ok(sums) => {
                self.sums = sums;
                let minus = Knowledge::Signed(Sign::Minus);
                self.change(change.class, change.before, minus, false)
            }
            Err(wide) => Ok(Taken::Wide(wide)),
        }
    }
}
