//! Laws over the definitions: each is the contract of a function that does nothing.
ghost use Rattle.account_need.specs.Laws.{BoundsCover, EnoughIsAboveTrue, GreatestBounds, GreatestIsReached, LineNeedIsEnough, NeedIsAboveTrue, PayingSecures, RoundedOwesMore};
ghost use Rattle.account_need.specs.Moves.{CancelsKeep, ClearsKeep, MoreIsSecured, MovesKeepSecured, SecuredCanPay, SettlementsKeep};
ghost use Rattle.account_need.specs.Worked.{NeedsByHand, SumsByHand};
ghost use Rattle.account_need.specs.WorkedAccounts.{BasketsByHand, RulesByHand};

/// What is owed of the rounded sums is at least what the positions owe.
pub fn rounded_owes_more()
    ensures { RoundedOwesMore }
{}

/// On one underlying no state of the box is exposed to more than the greatest exposure.
pub fn greatest_bounds()
    ensures { GreatestBounds }
{}

/// And some fills of the live orders reach it at some state of the box.
pub fn greatest_is_reached()
    ensures { GreatestIsReached }
{}

/// The need of a market on one underlying is enough for it.
pub fn line_need_is_enough()
    ensures { LineNeedIsEnough }
{}

/// An amount that is enough is at least the true need.
pub fn enough_is_above_true()
    ensures { EnoughIsAboveTrue }
{}

/// A balance that is enough stays so in a clear, whatever part of each live order it fills.
pub fn clears_keep()
    ensures { ClearsKeep }
{}

/// And in a settlement, at whatever prices within the limits.
pub fn settlements_keep()
    ensures { SettlementsKeep }
{}

/// And where live orders are cancelled or lapse.
pub fn cancels_keep()
    ensures { CancelsKeep }
{}

/// So an account that is secured stays so.
pub fn moves_keep_secured()
    ensures { MovesKeepSecured }
{}

/// Its balance is not below 0.
pub fn secured_can_pay()
    ensures { SecuredCanPay }
{}

/// And it is secured with any balance above.
pub fn more_is_secured()
    ensures { MoreIsSecured }
{}

/// The bound that is found for a market covers its exposure, on one underlying and on several.
pub fn bounds_cover()
    ensures { BoundsCover }
{}

/// So a balance that can pay the need of an account secures it.
pub fn paying_secures()
    ensures { PayingSecures }
{}

/// And the need is at least the true needs of all markets together.
pub fn need_is_above_true()
    ensures { NeedIsAboveTrue }
{}

/// The definitions compute needs and sums that are worked by hand.
pub fn needs_by_hand()
    ensures needs { NeedsByHand }
    ensures sums { SumsByHand }
{}

/// And what accounts may do, on one underlying and on several.
pub fn accounts_by_hand()
    ensures rules { RulesByHand }
    ensures baskets { BasketsByHand }
{}
