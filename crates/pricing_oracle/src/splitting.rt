//! The leg at which a node splits.
ghost use Rattle.std.specs.Prelude.{◌≡◌, ◌≤◌, ◌<◌, get_or, int_lt, length, map, pos, IfSome};
ghost use Rattle.form.specs.Payoff.{option_of};
ghost use Rattle.sign_tree.specs.Read.{sign_of};
ghost use Rattle.master_program.specs.Roles.{can_split, entries, has_above, has_below, split_place};
ghost use Rattle.master_program.specs.NodeSteps.{counted_node};
ghost use Rattle.pricing_oracle.specs.Nodes.{MayBeAsked, legs_asked, node_leg, role_leg_as};

use crate::legs::{NodeLeg, SearchQuestion, entry, first_of, legs_of};
use exact_num::Exact;
use form::Form;

// Whether entry i is above 0.
fn is_above(form: &Form, i: usize) -> bool
    requires { i < 9 }
    ensures { result ≡ int_lt (pos 0) (get_or (option_of form.now) i (pos 0)) }
{
    entry(form, i) > 0
}

// Whether it is below 0.
fn is_below(form: &Form, i: usize) -> bool
    requires { i < 9 }
    ensures { result ≡ int_lt (get_or (option_of form.now) i (pos 0)) (pos 0) }
{
    entry(form, i) < 0
}

// Whether one of the entries 0 to n is above 0.
fn has_above(form: &Form, n: usize) -> bool
    requires { n ≤ 8 }
    ensures { result ≡ has_above (entries n (option_of form.now)) }
{
    for i in 0..n + 1 {
        if is_above(form, i) {
            return true;
        }
    }
    false
}

// Whether one of them is below 0.
fn has_below(form: &Form, n: usize) -> bool
    requires { n ≤ 8 }
    ensures { result ≡ has_below (entries n (option_of form.now)) }
{
    for i in 0..n + 1 {
        if is_below(form, i) {
            return true;
        }
    }
    false
}

// Whether a node can split at the leg: a free one with an entry above 0 and one below.
fn can_split<N: Exact>(leg: NodeLeg<N>, n: usize) -> bool
    requires { n ≤ 8 }
    ensures { result ≡ can_split n (node_leg (role_leg_as N.fraction leg.entry)) }
{
    leg.role.is_free() && has_above(leg.leg.form, n) && has_below(leg.leg.form, n)
}

/// The place, counted from 0, of the first leg at which a node can split.
pub fn split_place<N: Exact>(asked: SearchQuestion<N>, signs: &[i8]) -> Option<usize>
    requires asked { MayBeAsked asked }
    requires signs { length signs.now ≤ 1024 }
    ensures place { result ≡ split_place asked.entry.underlyings
        (counted_node (legs_asked N.fraction asked.entry) (map sign_of signs.now)) }
    ensures inside { IfSome result (λ place. place < length signs.now) }
{
    let mut place = 0;
    let mut left = legs_of(asked, signs);
    while let Some((leg, after)) = first_of(left) {
        if can_split(leg, asked.underlyings) {
            return Some(place);
        }
        place += 1;
        left = after;
    }
    None
}
