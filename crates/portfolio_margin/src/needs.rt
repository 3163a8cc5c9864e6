//! What the margins of one account demand of its balance.
ghost use Rattle.std.specs.Prelude.{◌≡◌, ◌≤◌, ◌+◌, ◌^◌, ℕ, List, neg_ℤ, pos, ◌≤ℤ◌, ◌+ℤ◌};
ghost use Rattle.arithmetic.specs.Sums.{positive_part, total};
ghost use Rattle.frac.specs.Range.{limit as largest};
ghost use Rattle.frac.specs.Value.{fraction_of};
ghost use Rattle.portfolio_margin.specs.Laws.{AreCovered, Settled, gain_in};
ghost use Rattle.portfolio_margin.specs.Need.{ceil_of, first_word, need_of, part_of, sum_need, word_of};
ghost use Rattle.portfolio_margin.specs.declared.needs.Needed.TheVariants.{Amount};

use crate::least_margin::LeastMargin;
use exact_num::Exact;
use frac::Frac128;

// The largest amount.
const LARGEST: u128 = i128::MAX as u128;

/// What margins demand of the balance of their account.
#[derive(Clone, Copy, PartialEq, Eq, Debug)]
pub enum Needed {
    /// So much, in ticks, whatever the prices at which their markets are settled.
    Amount(u128),
    /// The first margin that is not least has no bound.
    Unbounded,
    /// A step of its run did not fit.
    Wide,
    /// Its run wanted one unit more than its limit.
    Budget,
    /// All are least, and their sum is above 2^127 - 1.
    Sum,
}

// The liability rounded up and the number of positions, or 0 where that is below 0: the gain of
// each position is rounded down.
fn amount_of(liability: &Frac128, positions: u32) -> u128
    ensures value { result ≡ positive_part (ceil_of (fraction_of liability.now).numerator
        (fraction_of liability.now).denominator +ℤ pos positions) }
    ensures fits { result ≤ largest + 2 ^ 32 }
{
    let (numerator, denominator) = liability.parts();
    let size = numerator.unsigned_abs();
    let divisor = denominator.unsigned_abs();
    if numerator < 0 {
        u128::from(positions).saturating_sub(size / divisor)
    } else {
        size.div_ceil(divisor) + u128::from(positions)
    }
}

// What one margin demands, where it is least.
fn part_of(margin: &LeastMargin, positions: u32) -> u128
    ensures value { result ≡ part_of margin.now positions }
    ensures fits { result ≤ largest + 2 ^ 32 }
{
    match margin {
        LeastMargin::Least { liability, .. } => amount_of(liability, positions),
        _ => 0,
    }
}

// The answer of a margin that is not least.
fn word_of(margin: &LeastMargin) -> Option<Needed>
    ensures { result ≡ word_of margin.now }
{
    match margin {
        LeastMargin::Least { .. } => None,
        LeastMargin::Unbounded { .. } => Some(Needed::Unbounded),
        LeastMargin::Wide { .. } => Some(Needed::Wide),
        LeastMargin::Budget => Some(Needed::Budget),
    }
}

// The answer of the first margin that is not least.
fn first_word(margins: &[(LeastMargin, u32)]) -> Option<Needed>
    ensures { result ≡ first_word margins.now }
{
    for (margin, _positions) in margins.iter() {
        if let Some(word) = word_of(margin) {
            return Some(word);
        }
    }
    None
}

// The sum of what they demand, where it fits.
fn sum_of(margins: &[(LeastMargin, u32)]) -> Needed
    ensures { result ≡ sum_need margins.now }
{
    let mut total: u128 = 0;
    for (margin, positions) in margins.iter() {
        let part = part_of(margin, *positions);
        if part > LARGEST - total {
            return Needed::Sum;
        }
        total += part;
    }
    Needed::Amount(total)
}

/// What the margins of one account demand of its balance, each given with its number of positions:
/// the sum of the liabilities, each rounded up and with a tick for each position, and none of these
/// below 0. An amount covers what the positions lose where each market is settled at any prices.
/// Takes no memory.
pub fn need(margins: &[(LeastMargin, u32)]) -> Needed
    ensures need { result ≡ need_of margins.now }
    ensures covers { (amount : ℕ) (markets : List Settled) → result ≡ Amount amount
        → AreCovered margins.now markets → neg_ℤ (pos amount) ≤ℤ total gain_in markets }
{
    match first_word(margins) {
        Some(word) => word,
        None => sum_of(margins),
    }
}
