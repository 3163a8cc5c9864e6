//! The search over a batch: rounds of the master program, climbs, and the tree over classes.

use crate::classes::Classes;
use crate::leaf::CellAim;
use crate::netting::Net;
use crate::tree::{Caps, CellTree};
use near_programs::opens::Aim;
use near_programs::rounding::{WholeMeasure, measure_of};
use near_programs::starts::{SEED, add_all, climb, first_program, keep_lesser};
use near_programs::{Book, Draws, Master, NearState, SMALL, from_zero};
use std::alloc::{AllocError, Global};

// The most rounds for one target.
const ROUNDS: u32 = 400;

/// A search as far as it has come: the master program, the tree, the measure of the least bound, and
/// what climbs and trees before cost.
#[derive(Drop)]
pub struct Search {
    pub master: Master,
    pub tree: CellTree,
    pub measure: Option<WholeMeasure>,
    draws: Draws,
    climbed: u64,
}

/// How a round ended.
#[derive(Clone, Copy)]
enum Round {
    On,
    Closed,
    Full,
}

// Grows a tree for the fills of a master program.
fn grow<'a>(
    alloc: Global,
    book: &'a Book,
    classes: &'a Classes,
    master: &'a Master,
    tree: &mut CellTree,
    forgiven: f64,
    left: Caps,
) -> Result<Vec<NearState>, AllocError> {
    let net = Net::new(alloc, classes, &master.fills)?;
    let aim = Aim {
        alloc,
        book,
        master,
        forgiven,
    };
    let net = &net;
    tree.grow(CellAim { aim, classes, net }, left)
}

impl Search {
    /// A search over a book that has not begun. The error is want of memory.
    pub fn new(alloc: Global, book: &Book, classes: &Classes) -> Result<Search, AllocError> {
        let tree = CellTree::new(alloc, classes.classes.len())?;
        Ok(Search {
            master: first_program(alloc, book)?,
            tree,
            measure: None,
            draws: Draws { seed: SEED },
            climbed: 0,
        })
    }

    /// A search over a book with the same orders at other limits, whose master program begins with
    /// the states of this one. The error is want of memory.
    pub fn for_book(
        &self,
        alloc: Global,
        book: &Book,
        classes: &Classes,
    ) -> Result<Search, AllocError> {
        let tree = CellTree::new(alloc, classes.classes.len())?;
        Ok(Search {
            master: self.master.for_book(book)?,
            tree,
            measure: None,
            draws: Draws { seed: SEED },
            climbed: 0,
        })
    }

    /// Begins with a part of the book, with a tree of one leaf, where the master program stands. The
    /// error is want of memory.
    pub fn turn_to(
        &mut self,
        alloc: Global,
        part: &Book,
        classes: &Classes,
    ) -> Result<(), AllocError> {
        self.count(self.tree.work);
        self.tree = CellTree::new(alloc, classes.classes.len())?;
        self.measure = None;
        self.master.bound_fills(part);
        Ok(())
    }

    /// What it cost so far: how many entries the turns of its tables went over.
    pub fn work(&self) -> u64 {
        self.master
            .work()
            .saturating_add(self.climbed)
            .saturating_add(self.tree.work)
    }

    /// The measure of the least bound, which is none then.
    pub fn take_measure(&mut self) -> Option<WholeMeasure> {
        std::mem::replace(&mut self.measure, None)
    }

    /// Adds to what it cost so far.
    pub fn count(&mut self, work: u64) {
        self.climbed = self.climbed.saturating_add(work);
    }

    /// The measure that rounds of the master program and climbs alone come to, within a target and by
    /// about so much work. The error is want of memory.
    pub fn priced(
        &mut self,
        alloc: Global,
        book: &Book,
        target: f64,
        most: u64,
    ) -> Result<WholeMeasure, AllocError> {
        for _ in 0..ROUNDS {
            self.master.solve(book)?;
            if self.work() >= most || !self.climb(alloc, book, target)? {
                break;
            }
        }
        measure_of(alloc, book, &self.master)
    }

    // Climbs, and adds the states that are violated most. Answers whether there was one.
    fn climb(&mut self, alloc: Global, book: &Book, target: f64) -> Result<bool, AllocError> {
        let forgiven = self.forgiven(book, target);
        climb(
            alloc,
            book,
            &mut self.master,
            &mut self.draws,
            forgiven,
            &mut self.climbed,
        )
    }

    // What of a surplus is forgiven by a target.
    fn forgiven(&self, book: &Book, target: f64) -> f64 {
        from_zero(self.master.surplus(book)) * target + SMALL * 2.0
    }

    // What the tree may take within the caps.
    fn left(&self, caps: Caps) -> Caps {
        let others = self.work().saturating_sub(self.tree.work);
        Caps {
            work: caps.work.saturating_sub(others),
            nodes: caps.nodes,
        }
    }

    // One round: the master program, climbs, and where these find nothing the tree.
    fn round(
        &mut self,
        alloc: Global,
        book: &Book,
        classes: &Classes,
        target: f64,
        caps: Caps,
    ) -> Result<Round, AllocError> {
        self.master.solve(book)?;
        keep_lesser(&mut self.measure, measure_of(alloc, book, &self.master)?);
        if self.work() >= caps.work {
            return Ok(Round::Full);
        }
        if self.climb(alloc, book, target)? {
            return Ok(Round::On);
        }
        let forgiven = self.forgiven(book, target);
        let left = self.left(caps);
        let master = &self.master;
        let states = grow(alloc, book, classes, master, &mut self.tree, forgiven, left)?;
        if self.tree.is_full {
            return Ok(Round::Full);
        }
        Ok(if add_all(book, &mut self.master, &states)? {
            Round::On
        } else {
            Round::Closed
        })
    }

    /// Rounds until each leaf is closed within this part of the surplus. Answers whether they are,
    /// within the caps and 400 rounds. The error is want of memory.
    pub fn close_within(
        &mut self,
        alloc: Global,
        book: &Book,
        classes: &Classes,
        target: f64,
        caps: Caps,
    ) -> Result<bool, AllocError> {
        for _ in 0..ROUNDS {
            match self.round(alloc, book, classes, target, caps)? {
                Round::On => {}
                Round::Closed => return Ok(true),
                Round::Full => return Ok(false),
            }
        }
        Ok(false)
    }
}
