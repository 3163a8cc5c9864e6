//! Why a need is no number.

/// The word that stands in place of a need.
#[derive(Clone, Copy, Debug, PartialEq, Eq)]
pub enum NoNeed {
    /// In the first market without a bound the account has more than 256 sums and live orders.
    Positions,
    /// What may be owed there has no bound.
    Unbounded,
    /// A step of a run did not fit.
    Wide,
    /// The runs wanted more than 200 units.
    Budget,
    /// A sum is above 2^127 - 1.
    Sum,
}
