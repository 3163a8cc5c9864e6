//! Laws over the definitions: each is the contract of a function that does nothing.
ghost use Rattle.option_quotes.specs.Laws.{ImpliedPricesAreThresholds, ProbesAreFew, QuotesAreThresholds};

/// A quote has at most 43 probes, the batch itself among them.
pub fn probes_are_few()
    ensures { ProbesAreFew }
{}

/// The price of a quote is the one from which on a further order raises the greatest surplus of the
/// batch. Where it tells none, no price raises it, or a clear of the batch, or of the batch with
/// the order, is not marked optimal.
pub fn quotes_are_thresholds()
    ensures { QuotesAreThresholds }
{}

/// The price of a side that is implied is that price too. Where it tells none, no price raises the
/// surplus, or a clear of the batch with the order is not marked optimal, or more than 60 of them
/// are wanted.
pub fn implied_prices_are_thresholds()
    ensures { ImpliedPricesAreThresholds }
{}
