ghost use Rattle.std.specs.Prelude.{◌≡◌};
ghost use Rattle.exchange_core.specs.Refusal.{field_of, number_of};

/// Why a command line is refused. A refused command changes nothing.
#[derive(Clone, Copy, Debug, PartialEq, Eq)]
pub enum Refusal {
    /// The line is no command.
    Syntax,
    /// The account is not open.
    NoAccount,
    /// The account is open already.
    AccountExists,
    /// There is no such market.
    NoMarket,
    /// There is such a market already.
    MarketExists,
    /// The market is settled.
    Settled,
    /// The option has another number of weights than the market has underlyings.
    WeightCount,
    /// The number of this field of the line is out of its range.
    Range { field: u8 },
    /// The account's balance less its reserve is below the amount.
    Funds,
    /// The market has as many live orders as it may have.
    BookFull,
    /// No live order has the number.
    NoOrder,
    /// The order is another account's.
    NotOwner,
    /// There are as many accounts, markets, orders or batches as there may be.
    TooMany,
}

impl Refusal {
    /// The number of the refusal in a reply line.
    pub fn number(self) -> u32
        ensures { result ≡ number_of self }
    {
        match self {
            Refusal::Syntax => 1,
            Refusal::NoAccount => 2,
            Refusal::AccountExists => 3,
            Refusal::NoMarket => 4,
            Refusal::MarketExists => 5,
            Refusal::Settled => 6,
            Refusal::WeightCount => 7,
            Refusal::Range { field: _ } => 8,
            Refusal::Funds => 9,
            Refusal::BookFull => 10,
            Refusal::NoOrder => 11,
            Refusal::NotOwner => 12,
            Refusal::TooMany => 13,
        }
    }

    /// The field that is told in the reply line: 0 but where a number is out of its range.
    pub fn field(self) -> u8
        ensures { result ≡ field_of self }
    {
        match self {
            Refusal::Range { field } => field,
            _ => 0,
        }
    }
}
