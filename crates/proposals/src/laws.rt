//! What the best halves keep: the contracts of functions that do nothing.

ghost use Rattle.proposals.specs.Laws.{OffersLoseNothing, OffersStayProved};

/// For the same orders no proposal lowers the surplus that is kept or raises the bound.
pub fn offers_lose_nothing()
    ensures { OffersLoseNothing }
{}

/// Where the halves that are kept prove their bound for the batch, and the proposal its own, so do
/// those kept after it.
pub fn offers_stay_proved()
    ensures { OffersStayProved }
{}
