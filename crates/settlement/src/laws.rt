//! Laws of premiums and payouts: each is the contract of a function that does nothing.

ghost use Rattle.settlement.specs.Payout.{GainsAreRoundedDown};
ghost use Rattle.settlement.specs.Premium.{PremiumsAreRounded, WholePremiumsAreProducts};
ghost use Rattle.settlement.specs.Worked.{PayoutsByHand, PremiumsByHand};

/// A buyer's premium is the least whole number of ticks that is not below fill times price, and a
/// seller's the greatest that is not above it.
pub fn premiums_are_rounded()
    ensures { PremiumsAreRounded }
{}

/// The premium of a whole fill is fill times price, on both sides.
#[tactic(auto, using(crate::proofs::Quotients::whole_premiums_are_products))]
pub fn whole_premiums_are_products()
    ensures { WholePremiumsAreProducts }
{}

/// The premiums of a batch that fills a butterfly, and their rounding on the other side.
pub fn premiums_by_hand()
    ensures { PremiumsByHand }
{}

/// The gain of a position is the greatest whole number of ticks that is not above fill times
/// payoff, or for a sell its negative.
pub fn gains_are_rounded_down()
    ensures { GainsAreRoundedDown }
{}

/// The gains of that batch as it is settled, and of a part of a bundle whose only leg counts -1.
pub fn payouts_by_hand()
    ensures { PayoutsByHand }
{}
