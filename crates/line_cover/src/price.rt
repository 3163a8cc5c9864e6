//! Prices as fractions, and their states.

ghost use Rattle.std.specs.Prelude.{◌≡◌, ◌<◌, ◌+◌, ◌∷◌, []};
ghost use Rattle.form.specs.States.{vector_of};
ghost use Rattle.line_cover.specs.Breakpoints.{is_below};

use form::State;

/// The settlement at the price `s / t`, or the ray where t is 0.
pub fn price_state(t: u64, s: u64) -> State
    requires { 0 < t + s }
    ensures count { result.count ≡ 2 }
    ensures entries { vector_of result ≡ t ∷ s ∷ [] }
{
    State {
        count: 2,
        entries: [t.into(), s.into(), 0, 0, 0, 0, 0, 0, 0],
    }
}

/// The price `s / t` of the underlying, a fraction of whole prices, at which a payoff bends.
#[derive(Clone, Copy, Debug, PartialEq, Eq)]
pub struct Price {
    pub t: u64,
    pub s: u64,
    ghost scale: { 0 < t },
}

impl Price {
    /// The settlement at this price.
    pub fn state(&self) -> State
        ensures count { result.count ≡ 2 }
        ensures entries { vector_of result ≡ self.now.t ∷ self.now.s ∷ [] }
    {
        price_state(self.t, self.s)
    }

    /// Whether the price is below the other.
    pub fn is_below(&self, other: &Self) -> bool
        ensures { result
            ≡ is_below (self.now.t ∷ self.now.s ∷ []) (other.now.t ∷ other.now.s ∷ []) }
    {
        u128::from(self.s) * u128::from(other.t) < u128::from(other.s) * u128::from(self.t)
    }
}
