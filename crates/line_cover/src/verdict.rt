//! The check of a line.

ghost use Rattle.std.specs.Prelude.{◌≡◌, ◌≤ℤ◌, All, length, map, pos, zip};
ghost use Rattle.frac.specs.Range.{limit};
ghost use Rattle.frac.specs.Value.{fraction_of};
ghost use Rattle.clearing_model.specs.Certificate.{LineCloses};
ghost use Rattle.form.specs.Limits.{HasItsForms};
ghost use Rattle.line_cover.specs.Laws.{IsEnoughOnLine};
ghost use Rattle.line_cover.specs.Line.{line_holds};
ghost use Rattle.line_cover.specs.Verdict.{line_verdict};
ghost use Rattle.line_cover.specs.declared.verdict.LineVerdict.TheVariants.{Fails, Holds};

use crate::filled::Filled;
use exact_num::Wide;
use form::Batch;
use frac::Frac128;

/// Whether a line holds.
#[derive(Clone, Copy, Debug, PartialEq, Eq)]
pub enum LineVerdict {
    /// The liability is enough at each state of the line.
    Holds,
    /// At one of them it is not.
    Fails,
    /// A step does not fit, and at no state before it the line failed.
    Wide(Wide),
}

/// Whether the net payoff of the fills is at most the liability at every price. It is enough to
/// look at the price 0, at each price above 0 where a payoff bends, and at the slope beyond the
/// last, since the net is linear between them. `Holds` exactly where the net less `liability * t`
/// is at most 0 at these states, `Fails` exactly where not, unless a step does not fit before; then
/// `Wide` has the first such step. So the two decide whether the fills and the liability have a
/// line cover. Where no fill is below 0, `Holds` shows that the liability is enough at every
/// settlement, and that nothing is owed where the price grows without end. The batch is on one
/// underlying, and there are as many fills as orders. Takes no memory. (Wang et al., EC 2021.)
pub fn holds_on_line(batch: &Batch, fills: &[Frac128], liability: &Frac128) -> LineVerdict
    requires forms { HasItsForms batch.now }
    requires one { batch.now.underlyings ≡ 1 }
    requires fills { length fills.now ≡ length batch.now.orders }
    ensures steps { let filled = zip batch.now.orders (map fraction_of fills.now) in
        result
        ≡ line_verdict (line_holds limit filled batch.now.orders (fraction_of liability.now)) }
    ensures closes { result ≡ Holds
        → LineCloses batch.now.orders (map fraction_of fills.now) (fraction_of liability.now) }
    ensures enough { let parts = map fraction_of fills.now in
        All (λ fill. pos 0 ≤ℤ fill.numerator) parts → result ≡ Holds
        → IsEnoughOnLine batch.now.orders parts (fraction_of liability.now) }
    ensures does_not_close { result ≡ Fails
        → LineCloses batch.now.orders (map fraction_of fills.now) (fraction_of liability.now) → ⊥ }
{
    let filled = Filled {
        orders: batch.orders.as_slice(),
        fills,
        liability,
    };
    match filled.line_holds() {
        Ok(true) => LineVerdict::Holds,
        Ok(false) => LineVerdict::Fails,
        Err(wide) => LineVerdict::Wide(wide),
    }
}
