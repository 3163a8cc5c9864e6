//! Leaves of a tree over classes, their programs, and the bounds that close them.

use crate::bounds::{Bound, class_at, mixed, signed_one};
use crate::chords::{Cell, least_bound};
use crate::classes::{Class, Classes, value_at};
use crate::netting::Net;
use near_programs::node::{TOP, sign_at};
use near_programs::opens::{Aim, has_slope_above, place_of_most};
use near_programs::points::net_at;
use near_programs::{
    Column, EntrySums, Found, NearMultiplier, RAY_TOLERANCE, add_entry, add_times, entry,
    from_zero, set_entry, solve_columns,
};
use std::alloc::{AllocError, Global};

// The most programs of a leaf in one look, and how many of them may have chords before.
const MOST_PROGRAMS: u32 = 8;

const CHORD_ROUNDS: u32 = 4;
// How often a leaf that closed by a mixture is solved once more with what that was rounded to.
const MOST_CHECKS: u32 = 3;
// The part of the excess that a round is to gain, twice in turn, and that its chords are to promise.
const GAIN: f64 = 0.0625;

const PROMISE: f64 = 0.015625;
// The part of the excess from which on an overstatement is worth a chord: 2^-9.
const WORTH: f64 = 0.001953125;
// The part of an overstatement that a chord is to take away: 2^-7.
const TAKEN: f64 = 0.0078125;
// The least overstatement: 2^-29.
const LEAST: f64 = 1.862645149230957e-9;
// Shares so near to 0 or 1 are 0 or 1: 2^-16.
const NEAR: f64 = 0.0000152587890625;
// How much of the state before is added to a chord's state.
const BEFORE: f64 = 0.0625;

/// A leaf: its node, a sign for each class, the classes with one in the order in which they got it,
/// for each class the bound in the list of the tree, the multipliers that it had last (of classes
/// without a sign as shares of their kinks), the state of its last chords, and whether it is split.
#[derive(Drop)]
pub struct CellLeaf {
    pub node: usize,
    pub signs: Vec<i8>,
    pub signed: Vec<usize>,
    pub bounds: Vec<Option<usize>>,
    pub multipliers: Vec<NearMultiplier>,
    pub last_point: Option<[f64; 9]>,
    pub is_split: bool,
}

/// What leaves are closed for, by classes: the fills' net.
#[derive(Clone, Copy)]
pub struct CellAim<'a> {
    pub aim: Aim<'a>,
    pub classes: &'a Classes,
    pub net: &'a Net,
}

// A bound that a leaf may take as far as its program wants, and what its entries would change by.
#[derive(Drop)]
struct Offer {
    bound: Bound,
    change: [f64; 9],
}

// What was found in the rounds of a look so far: the offers, the excess before, how many rounds
// gained little, how many had chords, and how often a closed leaf was solved once more.
#[derive(Drop)]
struct Looking {
    offers: Vec<Offer>,
    before: Option<Excess>,
    poor: u32,
    rounds: u32,
    checks: u32,
}

// By how much a leaf is above the liability, or what is owed along a ray.
#[derive(Clone, Copy)]
struct Excess {
    is_ray: bool,
    value: f64,
}

impl Excess {
    fn of(aim: Aim, found: &Found) -> Excess {
        let is_ray = found.is_ray();
        let value = if is_ray {
            found.value
        } else {
            found.value - aim.master.liability
        };
        Excess { is_ray, value }
    }

    // What is forgiven.
    fn forgiven(&self, aim: Aim) -> f64 {
        if self.is_ray {
            RAY_TOLERANCE
        } else {
            aim.forgiven
        }
    }

    // Whether this is not much less than before.
    fn is_poor_after(&self, before: Option<Excess>) -> bool {
        match before {
            Some(before) => {
                before.is_ray == self.is_ray && before.value - self.value < self.value * GAIN
            }
            None => false,
        }
    }
}

/// The kink of a class.
pub fn kink_of(net: &Net, class: usize) -> f64 {
    entry(&net.kinks, class)
}

// Adds a class to the sums of entries: with its sign, or by its bound.
fn add_class(sums: &mut [f64; 9], kink: f64, sign: i8, class: &Class, bound: Option<&Bound>) {
    if sign == 1 {
        add_times(sums, kink, &class.form);
    } else if sign == 0 && kink > 0.0 {
        match bound {
            Some(bound) => add_times(sums, kink, &bound.form),
            None => add_times(sums, kink, &class.upper),
        }
    }
}

// The column of a class with a sign.
fn signed_column(classes: &Classes, signs: &[i8], place: usize) -> Column {
    let class = class_at(classes, place);
    let form = class.form;
    Column {
        place,
        factor: signed_one(sign_at(signs, place)),
        form,
        bound: TOP,
    }
}

/// The columns of the multipliers that a leaf may have. The error is want of memory.
pub fn columns_of(
    alloc: Global,
    classes: &Classes,
    cell: Cell,
    kinks: &[f64],
) -> Result<Vec<Column>, AllocError> {
    let mut columns = Vec::new(alloc);
    for class in cell.signed {
        columns.push(signed_column(classes, cell.signs, *class))?;
    }
    add_unsigned(&mut columns, classes, cell.signs, kinks)?;
    Ok(columns)
}

// The columns of the classes without a sign whose kinks are below 0.
fn add_unsigned(
    columns: &mut Vec<Column>,
    classes: &Classes,
    signs: &[i8],
    kinks: &[f64],
) -> Result<(), AllocError> {
    for (place, class) in classes.classes.iter().enumerate() {
        let kink = entry(kinks, place);
        if kink < 0.0 && sign_at(signs, place) == 0 {
            columns.push(Column {
                place,
                factor: -1.0,
                form: class.form,
                bound: -kink,
            })?;
        }
    }
    Ok(())
}

// The point, a little towards the one before.
fn softened(point: &[f64; 9], before: &Option<[f64; 9]>) -> [f64; 9] {
    let mut soft = *point;
    match before {
        Some(before) => add_times(&mut soft, BEFORE, before),
        None => add_entry(&mut soft, 0, BEFORE),
    }
    soft
}

// The change of the entries by another bound in the place of one.
fn change_of(kink: f64, from: &[f64; 9], to: &[f64; 9]) -> [f64; 9] {
    let mut change = [0.0; 9];
    add_times(&mut change, kink, to);
    add_times(&mut change, -kink, from);
    change
}

impl CellLeaf {
    /// The cell.
    pub fn cell(&self) -> Cell {
        Cell {
            signs: &self.signs,
            signed: &self.signed,
        }
    }

    /// The place of a class's bound in the list.
    pub fn bound_at(&self, class: usize) -> Option<usize> {
        match self.bounds.get(class) {
            Some(bound) => *bound,
            None => None,
        }
    }

    // The bound of a class, where one is known.
    fn bound_of<'a>(&self, bounds: &'a [Bound], class: usize) -> Option<&'a Bound> {
        bounds.get(self.bound_at(class)?)
    }

    // What stands for the entries of a class.
    fn form_for(&self, classes: &Classes, bounds: &[Bound], class: usize) -> [f64; 9] {
        match self.bound_of(bounds, class) {
            Some(bound) => bound.form,
            None => class_at(classes, class).upper,
        }
    }

    // The sums of entries before multipliers.
    fn sums(&self, aim: CellAim, bounds: &[Bound]) -> [f64; 9] {
        let mut sums = aim.net.slope;
        for (place, class) in aim.classes.classes.iter().enumerate() {
            let sign = sign_at(&self.signs, place);
            let bound = self.bound_of(bounds, place);
            add_class(&mut sums, kink_of(aim.net, place), sign, class, bound);
        }
        sums
    }

    // Adds a multiplier that it had last to the sums of entries.
    fn add_multiplier(&self, aim: CellAim, sums: &mut [f64; 9], multiplier: &NearMultiplier) {
        let place = multiplier.place;
        let sign = sign_at(&self.signs, place);
        let factor = if sign == 0 {
            kink_of(aim.net, place).min(0.0) * multiplier.value
        } else {
            signed_one(sign) * multiplier.value
        };
        add_times(sums, factor, &class_at(aim.classes, place).form);
    }

    fn add_multipliers(&self, aim: CellAim, sums: &mut [f64; 9]) {
        for multiplier in self.multipliers.iter() {
            self.add_multiplier(aim, sums, multiplier);
        }
    }

    // Whether the multipliers that it had last close it.
    fn is_still_closed(&self, aim: CellAim, bounds: &[Bound]) -> bool {
        if self.multipliers.is_empty() {
            return false;
        }
        let mut sums = self.sums(aim, bounds);
        self.add_multipliers(aim, &mut sums);
        sums[0] - aim.aim.master.liability <= aim.aim.forgiven && !has_slope_above(&sums)
    }

    // Keeps the multipliers of classes, those without a sign as shares of their kinks.
    fn keep(&mut self, aim: CellAim, found: &Found) -> Result<(), AllocError> {
        self.multipliers.clear();
        for multiplier in found.multipliers.iter() {
            let mut kept = *multiplier;
            if kept.place < aim.classes.classes.len() {
                if sign_at(&self.signs, kept.place) == 0 {
                    kept.value = kept.value / -kink_of(aim.net, kept.place);
                }
                self.multipliers.push(kept)?;
            }
        }
        Ok(())
    }

    // Solves the leaf's program, with what may be mixed in.
    fn solve(
        &self,
        aim: CellAim,
        bounds: &[Bound],
        offers: &[Offer],
        work: &mut u64,
    ) -> Result<Found, AllocError> {
        let entries = EntrySums {
            sums: self.sums(aim, bounds),
            underlyings: aim.aim.book.underlyings,
            below: 0.0,
        };
        let mut columns = columns_of(aim.aim.alloc, aim.classes, self.cell(), &aim.net.kinks)?;
        add_offers(&mut columns, aim.classes.classes.len(), offers)?;
        let found = solve_columns(aim.aim.alloc, &columns, &entries)?;
        *work = (*work).saturating_add(found.work);
        Ok(found)
    }

    // Takes a bound that was offered, as far as the program wanted it.
    fn take_offer(
        &mut self,
        aim: CellAim,
        bounds: &mut Vec<Bound>,
        offer: Bound,
        share: f64,
    ) -> Result<(), AllocError> {
        let class = offer.class;
        let bound = if share >= 1.0 - NEAR {
            offer
        } else {
            let before = self.bound_of(bounds, class);
            mixed(aim.aim.alloc, aim.classes, before, &offer, share)?
        };
        let place = bounds.len();
        bounds.push(bound)?;
        if let Some(old) = self.bounds.get_mut(class) {
            *old = Some(place);
        }
        Ok(())
    }

    // Takes all bounds that were offered, as far as the program wanted them, so that none is left.
    // Answers whether it wanted one.
    fn take_offers(
        &mut self,
        aim: CellAim,
        bounds: &mut Vec<Bound>,
        looking: &mut Looking,
        found: &Found,
    ) -> Result<bool, AllocError> {
        let first = aim.classes.classes.len();
        let mut is_any = false;
        for _ in 0..looking.offers.len() {
            let Some(offer) = looking.offers.pop() else {
                break;
            };
            let share = share_in(found, first.saturating_add(looking.offers.len()));
            is_any = is_any || share > 0.0;
            if share > NEAR {
                self.take_offer(aim, bounds, offer.bound, share)?;
            }
        }
        Ok(is_any)
    }

    // How much each class is counted above what it pays at a point.
    fn all_overstated(
        &self,
        aim: CellAim,
        bounds: &[Bound],
        point: &[f64; 9],
    ) -> Result<Vec<f64>, AllocError> {
        let mut overs = Vec::new(aim.aim.alloc);
        for place in 0..aim.classes.classes.len() {
            overs.push(self.overstated(aim, bounds, place, point))?;
        }
        Ok(overs)
    }

    // How much a class is counted above what it pays at a point: 0 but for one without a sign.
    fn overstated(&self, aim: CellAim, bounds: &[Bound], place: usize, point: &[f64; 9]) -> f64 {
        let kink = kink_of(aim.net, place);
        if kink <= 0.0 || sign_at(&self.signs, place) != 0 {
            return 0.0;
        }
        let counted = value_at(&self.form_for(aim.classes, bounds, place), point);
        let pays = from_zero(value_at(&class_at(aim.classes, place).form, point));
        from_zero(kink * (counted - pays))
    }

    /// The class that is overstated most at a point, or else the one of greatest kink, so that a leaf
    /// which nothing overstates is split as well.
    pub fn split_class(
        &self,
        aim: CellAim,
        bounds: &[Bound],
        point: &[f64; 9],
    ) -> Result<Option<usize>, AllocError> {
        let overs = self.all_overstated(aim, bounds, point)?;
        match place_of_most(&overs) {
            Some(place) => Ok(Some(place)),
            None => self.greatest_kink(aim),
        }
    }

    // The class without a sign of greatest kink.
    fn greatest_kink(&self, aim: CellAim) -> Result<Option<usize>, AllocError> {
        let mut sizes = Vec::new(aim.aim.alloc);
        for (place, class) in aim.classes.classes.iter().enumerate() {
            let is_free = sign_at(&self.signs, place) == 0 && has_entry_below(&class.entries);
            let size = kink_of(aim.net, place).abs();
            sizes.push(if is_free { size } else { 0.0 })?;
        }
        Ok(place_of_most(&sizes))
    }

    // A chord for a class that is overstated by so much, where it takes a part of that away. Answers
    // how much.
    fn offer(
        &self,
        aim: CellAim,
        bounds: &[Bound],
        place: usize,
        at: Points,
        over: f64,
        looking: &mut Looking,
        work: &mut u64,
    ) -> Result<f64, AllocError> {
        let entries = aim.aim.book.underlyings.saturating_add(1);
        let alloc = aim.aim.alloc;
        let found = least_bound(alloc, aim.classes, self.cell(), place, at.soft, entries)?;
        *work = (*work).saturating_add(found.work);
        let from = self.form_for(aim.classes, bounds, place);
        let change = change_of(kink_of(aim.net, place), &from, &found.bound.form);
        let gain = -value_at(&change, at.point);
        if gain <= over * TAKEN {
            return Ok(0.0);
        }
        let bound = found.bound;
        looking.offers.push(Offer { bound, change })?;
        Ok(gain)
    }

    // Chords for the classes that are overstated most. Answers what they take away together.
    fn offer_all(
        &self,
        aim: CellAim,
        bounds: &[Bound],
        at: Points,
        excess: f64,
        looking: &mut Looking,
        work: &mut u64,
    ) -> Result<f64, AllocError> {
        let mut overs = self.all_overstated(aim, bounds, at.point)?;
        let least = LEAST.max(excess * WORTH);
        let mut gained = 0.0;
        for _ in 0..aim.classes.classes.len() {
            let Some(place) = place_of_most(&overs) else {
                break;
            };
            let over = entry(&overs, place);
            if over < least {
                break;
            }
            set_entry(&mut overs, place, 0.0);
            gained = gained + self.offer(aim, bounds, place, at, over, looking, work)?;
        }
        Ok(gained)
    }

    // Prepares the next program of a look. Answers whether there is to be one.
    fn prepare(
        &mut self,
        aim: CellAim,
        bounds: &[Bound],
        found: &Found,
        took: bool,
        looking: &mut Looking,
        work: &mut u64,
    ) -> Result<bool, AllocError> {
        let excess = Excess::of(aim.aim, found);
        if excess.value <= excess.forgiven(aim.aim) {
            return Ok(looking.checks_again(took));
        }
        if self.signed.is_empty() || looking.is_over(excess) || is_violated(aim, found, excess) {
            return Ok(false);
        }
        let soft = softened(&found.point, &self.last_point);
        self.last_point = Some(found.point);
        let at = Points {
            point: &found.point,
            soft: &soft,
        };
        let gained = self.offer_all(aim, bounds, at, excess.value, looking, work)?;
        Ok(gained >= excess.value * PROMISE)
    }

    // Solves the leaf, with chords at its states as long as they help.
    fn close(
        &mut self,
        aim: CellAim,
        bounds: &mut Vec<Bound>,
        work: &mut u64,
    ) -> Result<Found, AllocError> {
        let mut looking = Looking::new(aim.aim.alloc);
        let mut found = self.solve(aim, bounds, &looking.offers, work)?;
        for _ in 0..MOST_PROGRAMS {
            let took = self.take_offers(aim, bounds, &mut looking, &found)?;
            if !self.prepare(aim, bounds, &found, took, &mut looking, work)? {
                break;
            }
            found = self.solve(aim, bounds, &looking.offers, work)?;
        }
        if looking.checks > MOST_CHECKS {
            found = self.solve(aim, bounds, &[], work)?;
        }
        Ok(found)
    }

    /// Solves the leaf, where its last multipliers do not close it; adds to the list the bounds that
    /// it takes, and to the work what its programs cost. None where it is closed without. The error
    /// is want of memory.
    pub fn look(
        &mut self,
        aim: CellAim,
        bounds: &mut Vec<Bound>,
        work: &mut u64,
    ) -> Result<Option<Found>, AllocError> {
        if self.is_split || self.is_still_closed(aim, bounds) {
            return Ok(None);
        }
        let found = self.close(aim, bounds, work)?;
        self.keep(aim, &found)?;
        Ok(Some(found))
    }
}

// The state of a leaf's program, and the one for its chords.
#[derive(Clone, Copy)]
struct Points<'a> {
    point: &'a [f64; 9],
    soft: &'a [f64; 9],
}

impl Looking {
    fn new(alloc: Global) -> Looking {
        Looking {
            offers: Vec::new(alloc),
            before: None,
            poor: 0,
            rounds: 0,
            checks: 0,
        }
    }

    // Whether a leaf that closed is to be solved once more: where it took a mixture, which was
    // rounded.
    fn checks_again(&mut self, took: bool) -> bool {
        self.before = None;
        self.checks = self.checks.saturating_add(1);
        took && self.checks <= MOST_CHECKS
    }

    // Whether there were rounds enough, or two gained little. Counts this one.
    fn is_over(&mut self, excess: Excess) -> bool {
        if self.rounds >= CHORD_ROUNDS {
            return true;
        }
        self.rounds = self.rounds.saturating_add(1);
        if excess.is_poor_after(self.before) {
            self.poor = self.poor.saturating_add(1);
        }
        self.before = Some(excess);
        self.poor >= 2
    }
}

// Whether more is owed at the state of the program than is forgiven, so that no bound closes it.
fn is_violated(aim: CellAim, found: &Found, excess: Excess) -> bool {
    let master = aim.aim.master;
    let net = net_at(aim.aim.book, &master.fills, master.liability, &found.point);
    net > excess.forgiven(aim.aim)
}

// How much of what has a column at this place the program wanted.
fn share_in(found: &Found, place: usize) -> f64 {
    for multiplier in found.multipliers.iter() {
        if multiplier.place == place {
            return multiplier.value;
        }
    }
    0.0
}

// The columns of offers, behind the classes.
fn add_offers(columns: &mut Vec<Column>, first: usize, offers: &[Offer]) -> Result<(), AllocError> {
    for (i, offer) in offers.iter().enumerate() {
        columns.push(Column {
            place: first.saturating_add(i),
            factor: 1.0,
            form: offer.change,
            bound: 1.0,
        })?;
    }
    Ok(())
}

// Whether an entry is below 0.
fn has_entry_below(entries: &[i64; 9]) -> bool {
    for entry in entries {
        if *entry < 0 {
            return true;
        }
    }
    false
}
