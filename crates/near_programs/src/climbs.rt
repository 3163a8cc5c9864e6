//! Climbs: bought payoffs made linear at a price, solved, and again, until nothing more is owed.

use crate::book::Book;
use crate::master::{Master, SMALL};
use crate::node::{Question, RAY_TOLERANCE, solve_node};
use crate::numbers::float_of;
use crate::points::{NearState, net_at, reach, state_of};
use crate::rows::{entry, set_entry};
use std::alloc::{AllocError, Global};

// How many steps a climb takes at most.
const STEPS: u32 = 8;
// How many random prices climbs start from.
const RANDOM_STARTS: u32 = 20;

/// A sequence of numbers that look random: xorshift (Marsaglia, Xorshift RNGs, 2003).
#[derive(Clone, Copy)]
pub struct Draws {
    pub seed: u64,
}

impl Draws {
    // A share from 0 to 1.5.
    fn share(&mut self) -> f64 {
        let mut seed = self.seed;
        seed = seed ^ (seed << 13);
        seed = seed ^ (seed >> 7);
        seed = seed ^ (seed << 17);
        self.seed = seed;
        float_of(i128::from((seed >> 11) & 1023)) * 0.00146484375
    }
}

// A state, and how much more is owed there than the liability.
#[derive(Clone, Copy)]
struct Violation {
    state: NearState,
    excess: f64,
}

/// States at which more is owed than the liability, with how much, and what the climbs to them cost.
#[derive(Drop)]
pub struct Violated {
    found: Vec<Violation>,
    pub work: u64,
}

// A sign for each leg: 1 where its option pays at the point.
fn signs_at(alloc: Global, book: &Book, point: &[f64; 9]) -> Result<Vec<i8>, AllocError> {
    let mut signs = Vec::new(alloc);
    for leg in book.legs.iter() {
        signs.push(if reach(&leg.form, point) > 0.0 { 1 } else { -1 })?;
    }
    Ok(signs)
}

// A point, what is owed there past the liability, and what it cost to come there.
#[derive(Clone, Copy)]
struct Reached {
    point: [f64; 9],
    net: f64,
    work: u64,
}

// Makes the bought payoffs linear at a point, and solves.
fn step(
    alloc: Global,
    book: &Book,
    master: &Master,
    from: &[f64; 9],
) -> Result<Reached, AllocError> {
    let signs = signs_at(alloc, book, from)?;
    let question = Question {
        fills: &master.fills,
        signs: &signs,
        holds: false,
        below: 0.0,
    };
    let found = solve_node(alloc, book, question)?;
    let point = found.point;
    let work = found.work;
    let net = net_at(book, &master.fills, master.liability, &point);
    Ok(Reached { point, net, work })
}

// Climbs from a point.
fn climb(
    alloc: Global,
    book: &Book,
    master: &Master,
    from: &[f64; 9],
) -> Result<Reached, AllocError> {
    let mut best = Reached {
        point: *from,
        net: -1e300,
        work: 0,
    };
    for _ in 0..STEPS {
        let mut next = step(alloc, book, master, &best.point)?;
        next.work = next.work.saturating_add(best.work);
        if next.net <= best.net + SMALL {
            best.work = next.work;
            break;
        }
        best = next;
        if best.point[0] == 0.0 {
            break;
        }
    }
    Ok(best)
}

// Raises the prices to those at which the option begins or ends to pay.
fn raise_to_bends(greatest: &mut [f64; 9], form: &[f64; 9]) {
    let strike = form[0].abs();
    for (place, weight) in form.iter().enumerate() {
        let size = weight.abs();
        if size > 0.0 && strike / size > entry(greatest, place) {
            set_entry(greatest, place, strike / size);
        }
    }
}

// The greatest price of an underlying at which an option of the book begins or ends to pay.
fn greatest_bends(book: &Book) -> [f64; 9] {
    let mut greatest = [0.0; 9];
    for leg in book.legs.iter() {
        raise_to_bends(&mut greatest, &leg.form);
    }
    greatest
}

fn random_point(greatest: &[f64; 9], draws: &mut Draws, entries: usize) -> [f64; 9] {
    let mut point = [0.0; 9];
    for place in 0..entries {
        set_entry(&mut point, place, entry(greatest, place) * draws.share());
    }
    point[0] = 1.0;
    point
}

// The place of the greatest excess above 0.
fn place_of_greatest(violations: &[Violation]) -> Option<usize> {
    let mut most = 0.0;
    let mut place = None;
    for (i, violation) in violations.iter().enumerate() {
        if violation.excess > most {
            most = violation.excess;
            place = Some(i);
        }
    }
    place
}

impl Violated {
    /// None yet.
    pub fn new(alloc: Global) -> Violated {
        Violated {
            found: Vec::new(alloc),
            work: 0,
        }
    }

    // Climbs from a point and keeps where it ends, where more is owed than is forgiven.
    fn try_from_point(
        &mut self,
        alloc: Global,
        book: &Book,
        master: &Master,
        from: &[f64; 9],
        forgiven: f64,
    ) -> Result<(), AllocError> {
        let reached = climb(alloc, book, master, from)?;
        self.work = self.work.saturating_add(reached.work);
        let least = if reached.point[0] == 0.0 {
            RAY_TOLERANCE
        } else {
            forgiven
        };
        if reached.net > least {
            self.found.push(Violation {
                state: state_of(&reached.point, book.scales),
                excess: reached.net,
            })?;
        }
        Ok(())
    }

    // Climbs from the tight states of the master program.
    fn climb_from_tight(
        &mut self,
        alloc: Global,
        book: &Book,
        master: &Master,
        forgiven: f64,
    ) -> Result<(), AllocError> {
        for point in master.tight_points(alloc, book)?.iter() {
            self.try_from_point(alloc, book, master, point, forgiven)?;
        }
        Ok(())
    }

    /// Climbs from the tight states of the master program and from random prices. The error is want
    /// of memory.
    pub fn climb_all(
        &mut self,
        alloc: Global,
        book: &Book,
        master: &Master,
        draws: &mut Draws,
        forgiven: f64,
    ) -> Result<(), AllocError> {
        self.climb_from_tight(alloc, book, master, forgiven)?;
        let greatest = greatest_bends(book);
        for _ in 0..RANDOM_STARTS {
            let point = random_point(&greatest, draws, book.underlyings.saturating_add(1));
            self.try_from_point(alloc, book, master, &point, forgiven)?;
        }
        Ok(())
    }

    // The state of greatest excess, which is taken away.
    fn take_greatest(&mut self) -> Option<NearState> {
        let place = place_of_greatest(&self.found)?;
        let greatest = self.found.get_mut(place)?;
        greatest.excess = 0.0;
        Some(greatest.state)
    }

    /// Adds the states of greatest excess to the master program, at most so many. Answers how many
    /// were new. The error is want of memory.
    pub fn add_greatest(
        &mut self,
        book: &Book,
        master: &mut Master,
        most: u32,
    ) -> Result<u32, AllocError> {
        let mut new = 0u32;
        for _ in 0..most {
            let Some(state) = self.take_greatest() else {
                break;
            };
            if master.add_state(book, state)? {
                new = new.saturating_add(1);
            }
        }
        Ok(new)
    }
}
