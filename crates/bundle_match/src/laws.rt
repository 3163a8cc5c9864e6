//! Laws over the definition of the match: each is the contract of a function that does nothing.

ghost use Rattle.bundle_match.specs.Laws.{AuctionGoesOn, MatchIsTheAuction, MatchIsWithin, MatchIsBalanced, MatchOwesNothing, MatchEarns, MatchCovers, MatchHasPrices, MatchIsTheBest};
ghost use Rattle.bundle_match.specs.Worked.{BatchesByHand};

/// An auction makes the next trade of its two queues and goes on with what that leaves of them, and
/// ends where there is no next trade: the bound on the number of trades in its definition cuts none
/// off.
pub fn auction_goes_on()
    ensures { AuctionGoesOn }
{}

/// Each order is filled, order by order, by the auction of the two queues of its own bundle.
pub fn match_is_the_auction()
    ensures { MatchIsTheAuction }
{}

/// No order is filled past its quantity.
pub fn match_is_within()
    ensures { MatchIsWithin }
{}

/// Of each bundle as much is bought as sold.
pub fn match_is_balanced()
    ensures { MatchIsBalanced }
{}

/// So nothing is owed at any settlement, nor where prices grow without end.
pub fn match_owes_nothing()
    ensures { MatchOwesNothing }
{}

/// Buyers pay no less than sellers get.
pub fn match_earns()
    ensures { MatchEarns }
{}

/// The match covers its premium at every settlement.
pub fn match_covers()
    ensures { MatchCovers }
{}

/// Each bundle has one price, in ticks, that parts its orders: those with a better limit are filled
/// whole, and those with a worse one are not filled. A buy's limit is better above the price, a
/// sell's below it.
pub fn match_has_prices()
    ensures { MatchHasPrices }
{}

/// No fills that balance each bundle by itself, fractions of orders included, earn more than the
/// match.
///
/// Source: weak duality of the double auction. Balanced fills earn what their orders gain at the
/// prices of [`match_has_prices`], and no fills gain more there than the match.
pub fn match_is_the_best()
    ensures { MatchIsTheBest }
{}

/// Batches that were matched by hand come out so.
pub fn batches_by_hand()
    ensures { BatchesByHand }
{}
