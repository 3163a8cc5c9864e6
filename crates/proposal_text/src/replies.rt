//! The replies that `serve` has beside those of a run: to lines of proposals and phases, to a clear
//! whose outcome was proposed, and of what accounts need, of prices and margins, and of what would
//! be filled.
ghost use Rattle.std.specs.Prelude.{◌≡◌, ◌≢◌};
ghost use Rattle.cert_check.specs.declared.outcome.FailedCondition.TheVariants as no;
ghost use Rattle.proposal_check.specs.declared.covers.BoundFailure.TheVariants as unproved;
ghost use Rattle.proposal_text.specs.Pieces.{failed_as};

use crate::margins::ToldMargin;
use crate::needs::Need;
use crate::prices::QuotedPrice;
use cert_check::FailedCondition;
use form::Batch;
use frac::Frac128;
use lists::List;
use proposal_check::{BoundFailure, Proposal};
use reply_print::Reply;
use settlement::Position;

/// The positions of an account in a market, in the order in which they were added, which contracts
/// see as their list.
pub type Positions = List<Position>;

/// Why the reference run of a batch stopped.
#[derive(Clone, Copy, Debug, PartialEq, Eq)]
pub enum StopReason {
    /// A step of it did not fit.
    Wide,
    /// It wanted one unit more than its budget.
    Budget,
}

/// The outcome of a batch that was cleared as proposals had it: the fills, claim and cover of one
/// of them, the measure of one and its bound, and why the reference run stopped and after how many
/// units.
#[derive(Debug, Drop)]
pub struct BoundedOutcome {
    pub proposal: Proposal,
    pub bound: Frac128,
    pub run: StopReason,
    pub units: u32,
}

/// The first condition that a proposal fails, or that a step of its judgement does not fit.
#[derive(Clone, Copy, Debug, PartialEq, Eq)]
pub enum FailureKind {
    /// There is not one fill for each order, or the cover or a state is not one on the batch's
    /// underlyings.
    BatchShape,
    /// A fill is below 0 or above its order's quantity.
    Fill,
    /// The premium less the liability is not the surplus, the surplus is below 0, or the liability
    /// is not enough.
    Cover,
    /// A weight is below 0, or the weights times their states' first entries do not sum to 1.
    Measure,
    /// A step of the judgement does not fit 128 bits.
    Wide,
}

/// What an account has and needs, and whether it is secured.
#[derive(Clone, Copy, Debug, PartialEq, Eq)]
pub struct AccountNeed {
    pub account: u32,
    pub balance: i128,
    pub need: Need,
    pub secured: bool,
}

/// What a clear would do with one order more at the end of a market's live ones: how much of that
/// order it would fill, its surplus, and why its run would stop, if it would not be the best.
#[derive(Clone, Copy, Debug, PartialEq, Eq)]
pub struct Trial {
    pub fill: Frac128,
    pub surplus: Frac128,
    pub stopped: Option<StopReason>,
}

/// Why a line is refused to whoever sent it.
#[derive(Clone, Copy, Debug, PartialEq, Eq)]
pub enum Bar {
    /// The line is not for this session.
    NotAllowed,
    /// The line is no question.
    NotAsked,
    /// The session has as much as one may have.
    OverQuota,
}

/// What `serve` answers that a run does not.
#[derive(Debug, Drop)]
pub enum ProposalReply {
    /// The live orders of a market, by rising number.
    Book {
        market: u32,
        batch: Batch,
    },
    /// The positions of an account in a market, in the order in which they were added.
    Positions {
        account: u32,
        market: u32,
        positions: Positions,
    },
    /// The proposal is judged a bound: its surplus and bound, and the greatest surplus and least
    /// bound of what is kept after it.
    Proposed {
        market: u32,
        surplus: Frac128,
        bound: Frac128,
        best_surplus: Frac128,
        least_bound: Frac128,
    },
    /// The batch of this number was cleared as proposals had it.
    Bounded {
        number: u32,
        market: u32,
        batch: Batch,
        outcome: BoundedOutcome,
    },
    /// The orders of the proposal are not the live orders of the market.
    Stale,
    /// The proposal is judged no bound.
    Unproved {
        failed: FailureKind,
    },
    /// The market is closed from here on, with so many live orders.
    Closed {
        market: u32,
        orders: u32,
    },
    /// The market is open again.
    Reopened {
        market: u32,
    },
    /// The market is closed, so that it is not closed again, and no order comes or goes in it.
    MarketIsClosed,
    /// The market is not closed, so that it is not opened again.
    MarketIsOpen,
    /// The account is secured from here on, and needs so many ticks.
    Secured {
        account: u32,
        need: u128,
    },
    /// What the account has and needs.
    Needs(AccountNeed),
    /// The line would leave the account less than it needs.
    Uncovered {
        need: Need,
    },
    /// The prices at which one further buy, and one further sell, of an option would raise the
    /// greatest surplus of a market.
    Quoted {
        market: u32,
        bid: QuotedPrice,
        ask: QuotedPrice,
    },
    /// The prices at which a further buy, and a further sell, of so many of an option would.
    Priced {
        market: u32,
        quantity: u32,
        ask: QuotedPrice,
        bid: QuotedPrice,
    },
    /// The margin of an account in a market.
    Margin {
        account: u32,
        market: u32,
        margin: ToldMargin,
    },
    /// What a clear of the market would do with one order more.
    Tried {
        market: u32,
        trial: Trial,
    },
    /// The line is refused to whoever sent it.
    Barred(Bar),
}

/// What a line is answered: as by a run, or what is told beside one.
#[derive(Debug, Drop)]
pub enum ServedReply {
    /// What a line of a run is answered.
    Plain(Reply),
    /// What is told beside a run.
    Told(ProposalReply),
}

/// What a proposal fails that is judged no bound, which is never the bound itself.
pub fn failed_as(reason: BoundFailure) -> FailureKind
    requires { reason ≢ unproved.No no.Bound }
    ensures { result ≡ failed_as reason }
{
    match reason {
        BoundFailure::No(FailedCondition::BatchShape) => FailureKind::BatchShape,
        BoundFailure::No(FailedCondition::Fill) => FailureKind::Fill,
        BoundFailure::No(FailedCondition::Cover) => FailureKind::Cover,
        BoundFailure::No(FailedCondition::Measure | FailedCondition::Bound) => FailureKind::Measure,
        BoundFailure::Wide(_) => FailureKind::Wide,
    }
}
