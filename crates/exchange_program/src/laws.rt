//! Laws over what the program does: each is the contract of a function that does nothing.
ghost use Rattle.exchange_program.specs.Requests.{LimitsAreAsStated};

/// `run`, `quotes`, `guarded` and `sessions` read at most 16,777,216 bytes, `check` and `audit` at
/// most 268,435,456, and a demo none. An exchange has at most 10,000 accounts, 64 markets and
/// 2,000,000 batches.
pub fn limits_are_as_stated()
    ensures { LimitsAreAsStated }
{}
