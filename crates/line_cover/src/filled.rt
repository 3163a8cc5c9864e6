// Fills and a liability, as they are tested at the states of a line.
ghost use Rattle.std.specs.Prelude.{◌≡◌, All, Ok, length, map, true, zip};
ghost use Rattle.std.specs.List.{filter_map, list_any};
ghost use Rattle.exact_num.specs.Steps.{all_of};
ghost use Rattle.frac.specs.Range.{limit};
ghost use Rattle.frac.specs.Value.{fraction_of};
ghost use Rattle.form.specs.Payoff.{IsOnCount, bundle_legs, first_option, option_of};
ghost use Rattle.form.specs.States.{vector_of};
ghost use Rattle.line_cover.specs.Line.{bends_alike, breakpoint_of, breakpoint_of_leg};
ghost use Rattle.line_cover.specs.Line.{breakpoints_of};
ghost use Rattle.line_cover.specs.Line.{holds_at_break, holds_for, line_holds};

use crate::breakpoint::{bends_alike, breakpoint};
use crate::net::excess;
use crate::price::price_state;
use exact_num::{Exact, Wide};
use form::{Bundle, Form, Order, State};
use frac::Frac128;

// The fills of orders on one underlying, and the liability that should be enough for them.
#[derive(Drop)]
pub(crate) struct Filled<'a> {
    pub(crate) orders: &'a [Order],
    pub(crate) fills: &'a [Frac128],
    pub(crate) liability: &'a Frac128,
    ghost count: { length fills.now ≡ length orders.now },
    ghost forms: { All (λ o. IsOnCount 2 o.bundle) orders.now },
}

impl Filled<'_> {
    // Whether the line holds at each of its states.
    pub(crate) fn line_holds(&self) -> Result<bool, Wide>
        ensures { let filled = zip self.now.orders.now (map fraction_of self.now.fills.now) in
            result
            ≡ line_holds limit filled self.now.orders.now (fraction_of self.now.liability.now) }
    {
        if !self.holds_at(&price_state(1, 0))? {
            return Ok(false);
        }
        if !self.holds_at_breaks()? {
            return Ok(false);
        }
        self.holds_at(&price_state(0, 1))
    }

    // Whether it holds at the breakpoint of each leg.
    fn holds_at_breaks(&self) -> Result<bool, Wide>
        ensures { result
            ≡ all_of (holds_for self.now.orders.now self.now.fills.now self.now.liability.now)
            (breakpoints_of self.now.orders.now) }
    {
        for i in 0..self.orders.len() {
            let (earlier, order) = (&self.orders[..i], &self.orders[i]);
            if !self.holds_at_legs(earlier, &order.bundle)? {
                return Ok(false);
            }
        }
        Ok(true)
    }

    // Whether it holds at the breakpoint of each leg of the bundle, as it does at those of earlier
    // orders.
    fn holds_at_legs(&self, earlier: &[Order], bundle: &Bundle) -> Result<bool, Wide>
        requires earlier { all_of (holds_for self.now.orders.now self.now.fills.now self.now.liability.now)
            (breakpoints_of earlier.now) ≡ Ok true }
        requires bundle { IsOnCount 2 bundle.now }
        ensures { result
            ≡ all_of (holds_for self.now.orders.now self.now.fills.now self.now.liability.now)
            (filter_map breakpoint_of_leg (bundle_legs bundle.now)) }
    {
        for leg in bundle.as_slice() {
            if !self.holds_at_break(earlier, &leg.form)? {
                return Ok(false);
            }
        }
        Ok(true)
    }

    // Whether it holds where the option bends, if it does. Where an earlier order bends there too,
    // it is known to hold.
    fn holds_at_break(&self, earlier: &[Order], form: &Form) -> Result<bool, Wide>
        requires earlier { all_of (holds_for self.now.orders.now self.now.fills.now self.now.liability.now)
            (breakpoints_of earlier.now) ≡ Ok true }
        requires form { form.now.count ≡ 2 }
        ensures { let filled = zip self.now.orders.now (map fraction_of self.now.fills.now) in
            result
            ≡ holds_at_break limit filled (fraction_of self.now.liability.now)
            (breakpoint_of (option_of form.now)) }
    {
        if is_seen(earlier, form) {
            return Ok(true);
        }
        match breakpoint(form) {
            Some(price) => self.holds_at(&price.state()),
            None => Ok(true),
        }
    }

    // Whether the net is at most the liability times t at the state.
    fn holds_at(&self, state: &State) -> Result<bool, Wide>
        requires { state.now.count ≡ 2 }
        ensures { result
            ≡ holds_for self.now.orders.now self.now.fills.now self.now.liability.now
            (vector_of state.now) }
    {
        let excess = excess(self.orders, self.fills, self.liability, state)?;
        Ok(excess.sign() <= 0)
    }
}

// Whether the first leg of an order bends where the option does, as their entries show.
fn is_seen(earlier: &[Order], form: &Form) -> bool
    ensures { let option = option_of form.now in
        result ≡ list_any (λ order. bends_alike (first_option order.bundle) option) earlier.now }
{
    earlier.iter().any(|order| bends_alike(order, form))
}
