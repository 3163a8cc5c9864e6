//! The whole search for fills with a cover by cells, and what it answers where its caps are met.

use crate::classes::Classes;
use crate::covering::{Covering, cover};
use crate::search::Search;
use crate::tree::{Caps, CellTree};
use crate::written::{CellCover, Room};
use bundle_match::match_each;
use form::Batch;
use near_programs::numbers::two_to;
use near_programs::parts::{Growth, filled_gains, part_of, with_worse_limits};
use near_programs::rounding::{
    FILL_BITS, WEIGHT_BITS, WholeMeasure, gains_of, less_fills, measure_of, premium, rounded_fills,
    spreads_of,
};
use near_programs::starts::closer_measure;
use near_programs::{Book, SMALL, from_zero};
use std::alloc::{AllocError, Global};

// The parts of the surplus that are forgiven, in turn: 2^-10, 2^-14, 2^-18.
const TARGETS: [f64; 3] = [0.0009765625, 0.00006103515625, 0.000003814697265625];
// What short texts may take of the surplus above what a leaf needs: 2^-24.
const UNSEEN: f64 = 5.9604644775390625e-8;
// How often fills are covered: as they are, and made less.
const ATTEMPTS: u32 = 4;
// The most parts of a batch that is too much.
const PARTS: u32 = 12;
// Where the tree as it is misses at most one in so many of the bound, no part is tried.
const MOST_MISSED: i128 = 128;
// The share of its spread by which an order's limit is worse where orders are ranked.
const SPREAD_SHARE: f64 = 0.015625;
// The most that the ranking of orders costs of what parts may cost.
const RANKING_SHARE: u64 = 8;
// Where less than one in so many of what parts may cost is left, no part is tried.
const LAST_SHARE: u64 = 32;

/// How far a search may go, and how long a cover may be. The parts of a batch that is too much may
/// cost as much work again.
#[derive(Clone, Copy)]
pub struct Limits {
    pub caps: Caps,
    pub room: Room,
}

/// The limits that a proposal is made within: more than ten times what the dearest of the books of
/// 256 orders on three underlyings cost that were tried, and a line of 16,777,216 bytes.
pub const LIMITS: Limits = Limits {
    caps: Caps {
        work: 3_200_000_000,
        nodes: 50_000,
    },
    room: Room {
        bytes: 16_000_000,
        nodes: 100_000,
        listed: 1_000_000,
    },
};

/// Fills in units of 2^-40 with their cover, and the surplus in such units.
#[derive(Drop)]
pub struct CellAnswer {
    pub fills: Vec<i128>,
    pub surplus: i128,
    pub cover: CellCover,
}

/// What was found: an answer, and the measure of the least bound, with weights in units of
/// 2^-(40 + time).
#[derive(Drop)]
pub struct CellSolution {
    pub answer: CellAnswer,
    pub measure: WholeMeasure,
    pub time: u32,
}

// A book and its classes.
#[derive(Clone, Copy)]
struct Netted<'a> {
    alloc: Global,
    book: &'a Book,
    classes: &'a Classes,
}

// Keeps the answer that earns more.
fn keep_better(best: &mut Option<CellAnswer>, found: Option<CellAnswer>) {
    if surplus_of(&found) > surplus_of(best) {
        *best = found;
    }
}

// The surplus, and below 0 where there is none.
fn surplus_of(found: &Option<CellAnswer>) -> i128 {
    match found {
        Some(answer) => answer.surplus,
        None => -1,
    }
}

// The answer of fills in units over a tree. None where they do not close, or owe more than they earn.
fn covered(
    netted: Netted,
    tree: &CellTree,
    covering: Covering,
    fills: Vec<i128>,
) -> Result<Option<CellAnswer>, AllocError> {
    let covering = Covering {
        units: &fills,
        ..covering
    };
    let Some(cover) = cover(netted.alloc, netted.book, netted.classes, tree, covering)? else {
        return Ok(None);
    };
    let premium = premium(netted.book, &fills).unwrap_or(-1);
    let surplus = premium.saturating_sub(cover.liability);
    if surplus < 0 {
        return Ok(None);
    }
    Ok(Some(CellAnswer {
        fills,
        surplus,
        cover,
    }))
}

// What a cover is for: at a search's fills, within this part of the surplus.
fn covering_at(book: &Book, search: &Search, target: f64, room: Room) -> Covering<'static> {
    let master = &search.master;
    let surplus = from_zero(master.surplus(book));
    Covering {
        units: &[],
        aim: master.liability + surplus * target + SMALL * 4.0,
        more: surplus * UNSEEN,
        room,
    }
}

// Rounds the fills of a search and covers them, and takes some away until the surplus is not below
// 0.
fn answer_at(
    netted: Netted,
    search: &Search,
    target: f64,
    room: Room,
) -> Result<Option<CellAnswer>, AllocError> {
    let covering = covering_at(netted.book, search, target, room);
    let rounded = rounded_fills(netted.alloc, netted.book, &search.master.fills)?;
    for attempt in 0..ATTEMPTS {
        let fills = less_fills(netted.alloc, netted.book, &rounded, attempt)?;
        let found = covered(netted, &search.tree, covering, fills)?;
        if found.is_some() {
            return Ok(found);
        }
    }
    Ok(None)
}

// Whether a finer target than this part of the surplus is too fine for floats.
fn is_finest(book: &Book, search: &Search, target: f64) -> bool {
    from_zero(search.master.surplus(book)) * target <= SMALL * 32.0
}

// Closes a search within a target. Answers whether it is closed, and keeps what that gives.
fn answer_within(
    netted: Netted,
    search: &mut Search,
    target: f64,
    limits: Limits,
    best: &mut Option<CellAnswer>,
) -> Result<bool, AllocError> {
    let (alloc, book, classes) = (netted.alloc, netted.book, netted.classes);
    if !search.close_within(alloc, book, classes, target, limits.caps)? {
        return Ok(false);
    }
    let found = answer_at(netted, search, target, limits.room)?;
    keep_better(best, found);
    Ok(true)
}

// Closes a search within each target in turn. Answers what the last gave that closed.
fn answer_in_turn(
    netted: Netted,
    search: &mut Search,
    limits: Limits,
) -> Result<Option<CellAnswer>, AllocError> {
    let mut best = None;
    for target in TARGETS {
        if !answer_within(netted, search, target, limits, &mut best)?
            || is_finest(netted.book, search, target)
        {
            break;
        }
    }
    Ok(best)
}

// What answers a part of the book in which these orders may be filled.
fn answer_part(
    netted: Netted,
    search: &mut Search,
    keeps: &[bool],
    limits: Limits,
) -> Result<Option<CellAnswer>, AllocError> {
    let part = part_of(netted.alloc, netted.book, keeps)?;
    let netted = Netted {
        book: &part,
        ..netted
    };
    search.turn_to(netted.alloc, &part, netted.classes)?;
    let mut found = None;
    let _ = answer_within(netted, search, TARGETS[0], limits, &mut found)?;
    Ok(found)
}

// What the fills of the book whose limits are worse gain at its prices, order by order. At those of
// the book itself the orders that hedge others gain nothing, so that these would not be told from
// orders that nothing needs.
fn firm_gains(
    netted: Netted,
    whole: &mut Search,
    measure: &WholeMeasure,
    limits: Limits,
) -> Result<Vec<i128>, AllocError> {
    let (alloc, book) = (netted.alloc, netted.book);
    let spreads = spreads_of(alloc, book, measure)?;
    let worse = with_worse_limits(alloc, book, &spreads, SPREAD_SHARE)?;
    let mut search = whole.for_book(alloc, &worse, netted.classes)?;
    let measure = search.priced(alloc, &worse, TARGETS[0], limits.caps.work / RANKING_SHARE)?;
    whole.count(search.work());
    let gains = gains_of(alloc, book, &measure)?;
    filled_gains(alloc, book, &gains, &search.master.fills)
}

// How parts grow at first: by firm gains, or where nothing is filled then, by those at a measure.
fn first_growth(
    netted: Netted,
    whole: &mut Search,
    measure: &WholeMeasure,
    limits: Limits,
) -> Result<Growth, AllocError> {
    let gains = firm_gains(netted, whole, measure, limits)?;
    let growth = Growth::new(netted.alloc, netted.book, gains)?;
    if !growth.is_over() {
        return Ok(growth);
    }
    let gains = gains_of(netted.alloc, netted.book, measure)?;
    Growth::new(netted.alloc, netted.book, gains)
}

// Solves the next part, and keeps its answer where it earns more.
fn try_part(
    netted: Netted,
    search: &mut Search,
    limits: Limits,
    growth: &mut Growth,
    best: &mut Option<CellAnswer>,
) -> Result<(), AllocError> {
    let keeps = growth.with_next()?;
    let found = answer_part(netted, search, &keeps, limits)?;
    if found.is_none() {
        growth.leave();
        return Ok(());
    }
    let measure = measure_of(netted.alloc, netted.book, &search.master)?;
    growth.take(keeps, gains_of(netted.alloc, netted.book, &measure)?);
    keep_better(best, found);
    Ok(())
}

// Limits of a part, where the search cost so much already and may cost so much in the end: a half of
// what is left.
fn part_limits(limits: Limits, work: u64, end: u64) -> Limits {
    let left = end.saturating_sub(work);
    Limits {
        caps: Caps {
            work: work.saturating_add(left / 2),
            nodes: limits.caps.nodes,
        },
        ..limits
    }
}

// Solves parts of the book: the orders whose fills gain most, and then more and more of those that
// gain most at the prices of the part before. Answers that of the part that earns most.
fn answer_in_parts(
    netted: Netted,
    search: &mut Search,
    measure: &WholeMeasure,
    limits: Limits,
) -> Result<Option<CellAnswer>, AllocError> {
    let end = search.work().saturating_add(limits.caps.work);
    let mut growth = first_growth(netted, search, measure, limits)?;
    let mut best = None;
    for _ in 0..PARTS {
        let work = search.work();
        if growth.is_over() || work >= end.saturating_sub(limits.caps.work / LAST_SHARE) {
            break;
        }
        let part = part_limits(limits, work, end);
        try_part(netted, search, part, &mut growth, &mut best)?;
    }
    Ok(best)
}

// Whether an answer earns so much of the bound of a measure that no part is tried.
fn is_enough(book: &Book, found: &Option<CellAnswer>, measure: &WholeMeasure) -> bool {
    let unit = two_to(
        WEIGHT_BITS
            .saturating_add(book.scales.time)
            .saturating_sub(FILL_BITS),
    );
    let bound = measure.bound.div_euclid(unit.max(1));
    let missed = bound.saturating_sub(surplus_of(found));
    missed.saturating_mul(MOST_MISSED) <= bound
}

// What answers where no target closed: the tree as it is with a liability that each leaf needs, or a
// part of the book, whichever earns more.
fn answer_at_cap(
    netted: Netted,
    search: &mut Search,
    measure: &WholeMeasure,
    limits: Limits,
) -> Result<Option<CellAnswer>, AllocError> {
    let mut best = answer_at(netted, search, TARGETS[0], limits.room)?;
    if is_enough(netted.book, &best, measure) {
        return Ok(best);
    }
    let part = answer_in_parts(netted, search, measure, limits)?;
    keep_better(&mut best, part);
    Ok(best)
}

// The match of each bundle by itself, which a leaf without multipliers covers.
fn matched(netted: Netted, batch: &Batch, room: Room) -> Result<Option<CellAnswer>, AllocError> {
    let mut fills = Vec::new(netted.alloc);
    for fill in match_each(netted.alloc, batch)?.iter() {
        fills.push(i128::from(*fill).saturating_mul(two_to(FILL_BITS)))?;
    }
    let tree = CellTree::new(netted.alloc, netted.classes.classes.len())?;
    let covering = Covering {
        units: &[],
        aim: 0.0,
        more: 0.0,
        room,
    };
    covered(netted, &tree, covering, fills)
}

// The search, and what it found.
fn solve_search(
    netted: Netted,
    search: &mut Search,
    limits: Limits,
) -> Result<Option<(Option<CellAnswer>, WholeMeasure)>, AllocError> {
    let found = answer_in_turn(netted, search, limits)?;
    let Some(measure) = search.take_measure() else {
        return Ok(None);
    };
    let measure = closer_measure(netted.alloc, netted.book, &search.master, measure)?;
    if found.is_some() {
        return Ok(Some((found, measure)));
    }
    let found = answer_at_cap(netted, search, &measure, limits)?;
    Ok(Some((found, measure)))
}

/// Fills of a batch near the greatest surplus with a cover by cells, and a measure, to be judged;
/// never of less surplus than the match of each bundle by itself. None where a number does not fit;
/// the error is want of memory.
pub fn solve(
    alloc: Global,
    batch: &Batch,
    limits: Limits,
) -> Result<Option<CellSolution>, AllocError> {
    let book = Book::new(alloc, batch)?;
    let classes = Classes::new(alloc, &book)?;
    let netted = Netted {
        alloc,
        book: &book,
        classes: &classes,
    };
    let mut search = Search::new(alloc, &book, &classes)?;
    let mut best = matched(netted, batch, limits.room)?;
    let Some((found, measure)) = solve_search(netted, &mut search, limits)? else {
        return Ok(None);
    };
    keep_better(&mut best, found);
    match best {
        Some(answer) => Ok(Some(CellSolution {
            answer,
            measure,
            time: book.scales.time,
        })),
        None => Ok(None),
    }
}
