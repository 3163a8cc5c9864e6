//! Laws of whole runs of the exchange: each is the contract of a function that does nothing.

ghost use Rattle.exchange_lines.specs.GainLaws.{MovesGain, RunsGain};
ghost use Rattle.exchange_lines.specs.WorkedGains.{ButterflyGains};

/// Whatever commands come to an empty exchange: where a market of a cleared batch is settled later,
/// the house has gained of the batch, in whole ticks, at least the surplus that the batch's reply
/// tells, and the house's entries for the batch sum to it.
pub fn runs_gain()
    ensures { RunsGain }
{}

/// Whatever lines come to an empty exchange, and batches that are cleared among them with outcomes
/// from elsewhere that cover their surplus: the house gains of each batch at least the surplus that
/// its reply tells.
pub fn moves_gain()
    ensures { MovesGain }
{}

/// A batch whose orders are filled in parts leaves 2 to the house as it is cleared and 1 as it is
/// settled, and told 6/7: worked.
pub fn butterfly_gains()
    ensures { ButterflyGains }
{}
