//! Laws over the definition of phases: each is the contract of a function that does nothing.

ghost use Rattle.auction_phases.specs.Laws.{ClosedMarketStandsStill, EndsAreTold};
ghost use Rattle.auction_phases.specs.Worked.{PhasesByHand};

/// From when a market is closed until it is cleared, settled or opened again it is closed, and its
/// live orders stay as they are, whatever is asked, refused or not.
pub fn closed_market_stands_still()
    ensures { ClosedMarketStandsStill }
{}

/// Which market a command clears or settles is told by its reply as before it.
pub fn ends_are_told()
    ensures { EndsAreTold }
{}

/// A market that is closed, cleared, settled and opened again: worked rows.
pub fn phases_by_hand()
    ensures { PhasesByHand }
{}
