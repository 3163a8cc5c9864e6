//! The whole solver on one underlying: one program, whose states are those at which an option
//! begins or ends to pay.

use crate::answer::{Solved, answer_of};
use crate::line::line_liability;
use cert_check::Cover;
use form::Batch;
use near_programs::rounding::{WholeMeasure, less_fills, measure_of, premium, rounded_fills};
use near_programs::starts::{closer_measure, first_program};
use near_programs::{Book, Master};
use proposal_check::{Proposal, ProposalCover};
use std::alloc::{AllocError, Global};

// How often fills are covered: as they are, and made less.
const ATTEMPTS: u32 = 4;

// The proposal of these fills. None where no liability covers them, or they owe more than they
// earn.
fn covered(
    alloc: Global,
    book: &Book,
    measure: &WholeMeasure,
    units: &[i128],
) -> Result<Option<Proposal>, AllocError> {
    let Some(liability) = line_liability(book, units) else {
        return Ok(None);
    };
    let surplus = premium(book, units).unwrap_or(-1).saturating_sub(liability);
    if surplus < 0 {
        return Ok(None);
    }
    let solved = Solved {
        underlyings: book.underlyings,
        time: book.scales.time,
        fills: units,
        liability,
        surplus,
        measure,
    };
    answer_of(alloc, &solved, ProposalCover::Checked(Cover::Line))
}

// Rounds the fills of a program, and takes some away until the surplus is not below 0; at last all.
fn rounded(
    alloc: Global,
    book: &Book,
    master: &Master,
    measure: &WholeMeasure,
) -> Result<Option<Proposal>, AllocError> {
    let fills = rounded_fills(alloc, book, &master.fills)?;
    for attempt in 0..ATTEMPTS {
        let units = less_fills(alloc, book, &fills, attempt)?;
        let found = covered(alloc, book, measure, &units)?;
        if found.is_some() {
            return Ok(found);
        }
    }
    let none = vec![in alloc; 0i128; book.orders.len()]?;
    covered(alloc, book, measure, &none)
}

/// A proposal for the batch that is near the greatest surplus, to be judged, with the line as its
/// cover. None where a number does not fit; the error is want of memory.
pub(crate) fn solve_on_line(alloc: Global, batch: &Batch) -> Result<Option<Proposal>, AllocError> {
    let book = Book::new(alloc, batch)?;
    let mut master = first_program(alloc, &book)?;
    master.solve(&book)?;
    let measure = measure_of(alloc, &book, &master)?;
    let measure = closer_measure(alloc, &book, &master, measure)?;
    rounded(alloc, &book, &master, &measure)
}
