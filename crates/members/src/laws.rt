//! Laws over the rule: each is the contract of a function that does nothing.

ghost use Rattle.members.specs.Laws.{LiveOrdersAreFew, MovesAreByRule, OthersAreToldNothing, OwnersStay, QuotasHold, RefusedChangesNothing};
ghost use Rattle.members.specs.Worked.{QuotaByHand, RuleByHand};

/// Whatever is said, an account that has an owner keeps it.
pub fn owners_stay()
    ensures { OwnersStay }
{}

/// A line that the rule does not allow to its session, or that goes beyond its part of what all
/// share, changes neither exchange nor owners.
pub fn refused_changes_nothing()
    ensures { RefusedChangesNothing }
{}

/// Whatever is said, a session that is not the operator's opens at most 16 accounts and places at
/// most 50,000 orders.
pub fn quotas_hold()
    ensures { QuotasHold }
{}

/// Whatever is said, the accounts of a session that is not the operator's have at most 64 live
/// orders in a market.
pub fn live_orders_are_few()
    ensures { LiveOrdersAreFew }
{}

/// Of an account its owner is told, and the operator, and no other, whether it is a message or a
/// question.
pub fn others_are_told_nothing()
    ensures { OthersAreToldNothing }
{}

/// Whatever is said, an order of an account is placed or cancelled, and its balance lowered by a
/// withdrawal, only by its owner's session, by the line that names it; an order stays in its market;
/// deposits, markets, clears and settlements come from the operator's sessions alone, and these move
/// what accounts have that have an order or a position there. A clear's positions and premiums are of
/// the same fills of the market's live orders, none above its order's quantity.
pub fn moves_are_by_rule()
    ensures { MovesAreByRule }
{}

/// Two members and a market: worked rows of the rule.
pub fn rule_by_hand()
    ensures { RuleByHand }
{}

/// The seventeenth account, and the sixty-fifth live order: worked rows of the quota.
pub fn quota_by_hand()
    ensures { QuotaByHand }
{}
