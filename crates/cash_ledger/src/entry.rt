/// Why an account gained or paid an amount.
#[derive(Clone, Copy, Debug, PartialEq, Eq)]
pub enum Cause {
    Deposit,
    Withdraw,
    /// The premium of a fill in the batch of this number.
    Premium { batch: u32 },
    /// The payoff of a fill in the batch of this number.
    Payoff { batch: u32 },
}

/// An amount, in ticks, that an account gained, or paid where it is below 0.
#[derive(Clone, Copy, Debug, PartialEq, Eq)]
pub struct Entry {
    pub account: u32,
    pub amount: i128,
    pub cause: Cause,
}
