//! Prices of the box of one underlying.
ghost use Rattle.std.specs.Prelude.{◌≤◌};

/// The price `s / t`.
#[derive(Clone, Copy, Debug, PartialEq, Eq)]
pub(crate) struct Price {
    pub(crate) t: u64,
    pub(crate) s: u64,
    ghost some: { 1 ≤ t },
    ghost few: { t ≤ 1000 },
    ghost low: { s ≤ 1000000000 },
}
