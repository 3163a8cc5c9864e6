//! Laws over the definition of a step: each is the contract of a function that does nothing.

ghost use Rattle.exchange_core.specs.Covered.{StepIsCovered, StepIsMarked, StepIsOptimal};
ghost use Rattle.exchange_core.specs.ExchangeState.{empty_exchange};
ghost use Rattle.exchange_core.specs.Kept.{IsKept};
ghost use Rattle.exchange_core.specs.Laws.{ClearsKeep, StepKeeps};
ghost use Rattle.exchange_core.specs.Worked.{BasketIsPaid, ButterflyIsPaid, ButterflyIsSettled, ReserveIsKept, RefusalsInOrder};

/// From each state that an exchange may be in, a reply that clears a batch tells fills that cover
/// its surplus, which is not below 0.
pub fn step_is_covered()
    ensures { StepIsCovered }
{}

/// From each such state, a batch that is marked optimal has the greatest surplus, and the measure
/// of its outcome proves it.
pub fn step_is_optimal()
    ensures { StepIsOptimal }
{}

/// From each such state, the mark of a batch that is cleared and its units are those of the end of
/// its run: so it is missing only where the run stops at a number that does not fit, or for want of
/// a unit beyond the budget.
pub fn step_is_marked()
    ensures { StepIsMarked }
{}

/// What an exchange keeps between two commands, the empty exchange has.
pub fn empty_is_kept()
    ensures { IsKept empty_exchange }
{}

/// And it is kept by each step: the house open; each live order of an open account, within the
/// limits, and in a market on as many underlyings as its options, which is not settled; and each
/// position of an open account, in such a market, with a fill above 0 that counts at most 1,000,000
/// options within the limits.
pub fn step_keeps()
    ensures { StepKeeps }
{}

/// And by each batch that is cleared, whatever found its fills, each from 0 to the quantity of its
/// order.
pub fn clears_keep()
    ensures { ClearsKeep }
{}

/// What is reserved for a live buy is not paid out, and is free again once the order is cancelled:
/// worked rows.
pub fn reserve_is_kept()
    ensures { ReserveIsKept }
{}

/// Of several refusals that a command meets, the first in order is told: worked rows.
pub fn refusals_in_order()
    ensures { RefusalsInOrder }
{}

/// A batch whose orders are filled in parts, from the orders to the balances: the buyer pays 6,
/// each seller gets 2, and 2 stay with the house.
pub fn butterfly_is_paid()
    ensures { ButterflyIsPaid }
{}

/// The same batch settled at 11, when the house has 3; and its market is settled for good: worked
/// rows.
pub fn butterfly_is_settled()
    ensures { ButterflyIsSettled }
{}

/// A batch on two underlyings, from the orders to the balances: a call on the sum is bought at 6,
/// calls on each price are sold at 3 and 2 and cover it, and 1 stays with the house. It takes 11
/// units of work: with 10 nothing is filled.
pub fn basket_is_paid()
    ensures { BasketIsPaid }
{}
