//! Laws over the answers to lines that sessions say: each is the contract of a function that does
//! nothing.
ghost use Rattle.member_lines.specs.Asked.{OthersMayNotAsk};
ghost use Rattle.member_lines.specs.Laws.{AllowedAsServed, BodiesTellOnce, LinesMoveByRule, LiveOrdersStayFew, OthersAreRefused, OwnersAreKept, QuotasAreKept, RefusalsAreTold};
ghost use Rattle.member_lines.specs.Runs.{RunsBy};

use crate::asking::AsksRequests;
use crate::requests::AnswersRequests;

/// A line that the rule refuses is told so, and changes nothing.
pub fn refusals_are_told<A: AnswersRequests>()
    ensures { RefusalsAreTold A.exchange_in A.said_step A.with_opened }
{}

/// The answers to the lines that the rule lets through are those of what has no rule, but secures
/// the accounts that members open, to the same lines, with one that it refuses in place of each of
/// the others; and so is what is left.
pub fn allowed_as_served<A: AnswersRequests>()
    ensures { AllowedAsServed A.exchange_in A.said_step A.with_opened }
{}

/// Whatever is said, an account that has an owner keeps it.
pub fn owners_are_kept<A: AnswersRequests>()
    ensures { RunsBy A.exchange_in A.said_step A.with_opened A.sound
        → OwnersAreKept A.exchange_in A.said_step A.with_opened A.sound }
{}

/// Whatever is said, a session that is not the operator's opens at most 16 accounts and places at
/// most 50,000 orders.
pub fn quotas_are_kept<A: AnswersRequests>()
    ensures { RunsBy A.exchange_in A.said_step A.with_opened A.sound
        → QuotasAreKept A.exchange_in A.said_step A.with_opened A.sound }
{}

/// Whatever is said, the accounts of a session that is not the operator's have at most 64 live
/// orders in a market.
pub fn live_orders_stay_few<A: AnswersRequests>()
    ensures { RunsBy A.exchange_in A.said_step A.with_opened A.sound
        → LiveOrdersStayFew A.exchange_in A.said_step A.with_opened A.sound }
{}

/// Whatever is said, what an account has changes by its owner's lines alone, and by the operator's
/// deposits, clears and settlements.
pub fn lines_move_by_rule<A: AnswersRequests>()
    ensures { RunsBy A.exchange_in A.said_step A.with_opened A.sound
        → LinesMoveByRule A.exchange_in A.said_step A.with_opened A.sound }
{}

/// Of an account its owner is told, and the operator, and no other.
pub fn others_are_refused<A: AnswersRequests>()
    ensures { OthersAreRefused A.exchange_in A.said_step A.with_opened }
{}

/// So it is where it is asked between lines.
pub fn others_may_not_ask<A: AsksRequests>()
    ensures { OthersMayNotAsk A.said_asks }
{}

/// Where what is inside ends its lines, each message takes effect once, in its session's order.
pub fn bodies_tell_once<A: AnswersRequests>()
    ensures { BodiesTellOnce A.exchange_in A.said_step A.with_opened }
{}
