//! Laws over the definition of secured accounts: each is the contract of a function that does
//! nothing.

ghost use Rattle.secured_accounts.specs.Laws.{SecuredCanPay, SecuredStaySafe, ToldIsEnough, TradersCanPay};
ghost use Rattle.secured_accounts.specs.Money.{BalancesAddUp, MoneyIsKept};
ghost use Rattle.secured_accounts.specs.Worked.{OffersByHand, RulesByHand};

/// A balance that can pay the need that is told of an account is at or above its true need.
pub fn told_is_enough()
    ensures { ToldIsEnough }
{}

/// The balance of a secured account stays at or above its true need, whatever is asked and whatever
/// is cleared or settled.
pub fn secured_stay_safe()
    ensures { SecuredStaySafe }
{}

/// So it is never below 0.
pub fn secured_can_pay()
    ensures { SecuredCanPay }
{}

/// Where all traders are secured, whoever owes can pay.
pub fn traders_can_pay()
    ensures { TradersCanPay }
{}

/// Each premium and payoff moves from one open account to another, whatever comes, and nothing else
/// moves but what is deposited and withdrawn.
pub fn money_is_kept()
    ensures { MoneyIsKept }
{}

/// So all balances, the house's too, sum to what was deposited less what was withdrawn.
pub fn balances_add_up()
    ensures { BalancesAddUp }
{}

/// What is kept from a small exchange, and what is not: worked rows.
pub fn rules_by_hand()
    ensures offers { OffersByHand }
    ensures rules { RulesByHand }
{}
