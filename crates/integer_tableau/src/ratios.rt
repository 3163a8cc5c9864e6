//! The row that leaves: no division is made, since the denominators fall away.
ghost use Rattle.std.specs.Prelude.{◌≡◌, IfSome, ◌<◌, ◌*ℤ◌, pos};
ghost use Rattle.std.specs.Ordering.{int_cmp};
ghost use Rattle.std.specs.Option.{option_map};
ghost use Rattle.simplex_run.specs.Choice.{lesser as lesser_of};
ghost use Rattle.fraction_tableau.specs.Candidates.{better_of};
ghost use Rattle.integer_tableau.specs.Choices.{as_ratio, entry_of, right_side_of};

use crate::products::compare_products;
use std::cmp::Ordering;

/// The ratio of a row: its right side, and the size of its number in the column that enters. The
/// numbers are of 64 bits, or of 128 where the row is wide.
#[derive(Clone, Copy)]
pub enum RowRatio {
    Short { right_side: i64, entry: u64 },
    Wide { right_side: i128, entry: u128 },
}

/// A row that limits the entering variable: its place, its basic variable, and its ratio.
#[derive(Clone, Copy)]
pub struct Candidate {
    pub place: usize,
    pub basic: usize,
    pub ratio: RowRatio,
}

/// Both numbers of the ratio in 128 bits.
fn widened(ratio: RowRatio) -> (i128, u128)
    ensures right_side { result.0 ≡ right_side_of ratio }
    ensures entry { result.1 ≡ entry_of ratio }
{
    match ratio {
        RowRatio::Short { right_side, entry } => (right_side as i128, entry as u128),
        RowRatio::Wide { right_side, entry } => (right_side, entry),
    }
}

/// The product, which fits 128 bits.
fn cross_product(right_side: i64, entry: u64) -> i128
    ensures { result ≡ right_side *ℤ pos entry }
{
    right_side as i128 * entry as i128
}

/// How the two ratios compare, whose entries are above 0: by cross products, which two words hold.
#[inline(never)]
fn compare_wide(one: RowRatio, other: RowRatio) -> Ordering
    requires { (0 < entry_of one) × (0 < entry_of other) }
    ensures { result ≡ int_cmp (right_side_of one *ℤ pos (entry_of other))
        (right_side_of other *ℤ pos (entry_of one)) }
{
    let (left, below_left) = widened(one);
    let (right, below_right) = widened(other);
    let (size_left, size_right) = (left.unsigned_abs(), right.unsigned_abs());
    match (left < 0, right < 0) {
        (false, false) => compare_products(size_left, below_right, size_right, below_left),
        (true, true) => compare_products(size_right, below_left, size_left, below_right),
        (true, false) => Ordering::Less,
        (false, true) => Ordering::Greater,
    }
}

/// The same: in one word where both rows are short.
fn compare(one: RowRatio, other: RowRatio) -> Ordering
    requires { (0 < entry_of one) × (0 < entry_of other) }
    ensures { result ≡ int_cmp (right_side_of one *ℤ pos (entry_of other))
        (right_side_of other *ℤ pos (entry_of one)) }
{
    match (one, other) {
        (
            RowRatio::Short { right_side, entry },
            RowRatio::Short {
                right_side: other_side,
                entry: other_entry,
            },
        ) => {
            let left = cross_product(right_side, other_entry);
            let right = cross_product(other_side, entry);
            left.cmp(&right)
        }
        _ => compare_wide(one, other),
    }
}

/// The one of less ratio; of equal ones that of the smaller basic variable.
fn lesser(one: Candidate, other: Candidate) -> Candidate
    requires { (0 < entry_of one.ratio) × (0 < entry_of other.ratio) }
    ensures ratio { as_ratio result ≡ lesser_of (as_ratio one) (as_ratio other) }
    ensures above { 0 < entry_of result.ratio }
{
    match compare(one.ratio, other.ratio) {
        Ordering::Less => one,
        Ordering::Equal => { if one.basic < other.basic { one } else { other } }
        Ordering::Greater => other,
    }
}

/// The better of the best so far and the next.
pub fn better(best: Option<Candidate>, next: Candidate) -> Candidate
    requires best { IfSome best (λ q. 0 < entry_of q.ratio) }
    requires next { 0 < entry_of next.ratio }
    ensures ratio { as_ratio result ≡ better_of (option_map as_ratio best) (as_ratio next) }
    ensures above { 0 < entry_of result.ratio }
{
    match best {
        None => next,
        Some(best) => lesser(best, next),
    }
}
