//! Laws over the definitions: each is the contract of a function that does nothing.
ghost use Rattle.secured_lines.specs.Asked.{OutputsTellAsked};
ghost use Rattle.secured_lines.specs.ClosedBest.{BestOfClosedIsUsed, ClosedBatchesStay};
ghost use Rattle.secured_lines.specs.Laws.{SecuredCanPay, SecuredStaySafe, SecuredStaySecured, ServedStaySafe, TradersCanPay};
ghost use Rattle.secured_lines.specs.Promises.{AnswersAreAlike, ClosedMarketsStandStill, OutputsTellSecured, WithoutSecured};

/// The balance of a secured account stays at or above its true need, whatever lines come, refused
/// or not.
pub fn secured_stay_safe()
    ensures { SecuredStaySafe }
{}

/// So it is from the first line on.
pub fn served_stay_safe()
    ensures { ServedStaySafe }
{}

/// An account that is secured stays secured.
pub fn secured_stay_secured()
    ensures { SecuredStaySecured }
{}

/// So from the line on that secured it its balance is never below 0.
pub fn secured_can_pay()
    ensures { SecuredCanPay }
{}

/// Where the open accounts of all traders are secured, the balance of none is below 0.
pub fn traders_can_pay()
    ensures { TradersCanPay }
{}

/// What is written for an input is the text of the answers to its lines, each of which keeps what
/// is promised where proposals are taken.
pub fn outputs_tell_secured()
    ensures { OutputsTellSecured }
{}

/// From when a market is closed until it is cleared, settled or opened again it is closed, and its
/// live orders stay as they are, whatever lines come.
pub fn closed_markets_stand_still()
    ensures { ClosedMarketsStandStill }
{}

/// So a closed market that is there has the same batch until then.
pub fn closed_batches_stay()
    ensures { ClosedBatchesStay }
{}

/// So its next clear tells at least the surplus of each proposal that was taken since it was closed,
/// and at most its bound.
pub fn best_of_closed_is_used()
    ensures { BestOfClosedIsUsed }
{}

/// Where no line secures an account or asks what one needs, what is written is what an exchange
/// writes that has no secured accounts.
pub fn without_secured()
    ensures { WithoutSecured }
{}

/// Where no line secures an account, each line but those that ask what one needs is answered as
/// where no account can be secured.
pub fn answers_are_alike()
    ensures { AnswersAreAlike }
{}

/// What is written for an input between whose lines some ask is the texts of its lines, and those of
/// the lines that ask nothing are what is written for the input without the others: asking changes
/// nothing.
pub fn outputs_tell_asked()
    ensures { OutputsTellAsked }
{}
