//! The legs of a node, each with what it does there.
ghost use Rattle.std.specs.Prelude.{◌≡◌, ◌<◌, ◌∷◌, ◌&&◌, [], get_or, map, MatchOption, pos, true};
ghost use Rattle.exact_num.specs.Tests.{is_above_zero};
ghost use Rattle.form.specs.Payoff.{option_of};
ghost use Rattle.clearing_model.specs.Legs.{Long as ModelLong};
ghost use Rattle.master_program.specs.Roles.{is_positive, role_of};
ghost use Rattle.sign_tree.specs.Left.{IsAtLeg, exposure_as};
ghost use Rattle.sign_tree.specs.Read.{sign_of};
ghost use Rattle.pricing_oracle.specs.Nodes.{MayBeAsked, in_roles, legs_asked, role_as, role_leg_as, roles_left};

use exact_num::Exact;
use form::{Form, Order};
use sign_tree::{BatchLeg, Exposure, LegsLeft, first_leg};
use std::alloc::AllocError;

/// What a search asks: whether the liability is enough for the fills of the orders at each state.
#[derive(Copy)]
pub struct SearchQuestion<'a, N> {
    pub underlyings: usize,
    pub orders: &'a [Order],
    pub fills: &'a [N],
    pub liability: &'a N,
}

// Not derived: the whole is copied in one step, where a derived clone goes field by field.
impl<N: Copy> Clone for SearchQuestion<'_, N> {
    fn clone(&self) -> Result<Self, AllocError> {
        Ok(*self)
    }
}

/// What a leg does in the program of a node: a leg that is not filled is idle, a short leg covers,
/// and a long leg is free without a sign, above with plus and below with minus.
#[derive(Clone, Copy)]
pub enum Role {
    Idle,
    Covering,
    Free,
    Above,
    Below,
}

impl Role {
    ghost use Rattle.pricing_oracle.specs.Nodes.{role_as, is_covering, is_free, is_signed};

    /// Whether a leg covers.
    pub fn is_covering(self) -> bool
        ensures { result ≡ is_covering (role_as self) }
    {
        matches!(self, Role::Covering)
    }

    /// Whether a filled long leg has a sign.
    pub fn is_signed(self) -> bool
        ensures { result ≡ is_signed (role_as self) }
    {
        matches!(self, Role::Above | Role::Below)
    }

    /// Whether a filled long leg has no sign.
    pub fn is_free(self) -> bool
        ensures { result ≡ is_free (role_as self) }
    {
        matches!(self, Role::Free)
    }
}

/// A leg with its role.
#[derive(Clone, Copy)]
pub struct NodeLeg<'a, N> {
    pub role: Role,
    pub leg: BatchLeg<'a, N>,
}

/// The legs of a node that are still to come, and their signs: 0 for none, and else above 0 or
/// below.
#[derive(Copy)]
pub struct NodeLegsLeft<'a, N> {
    pub legs: LegsLeft<'a, N>,
    pub signs: &'a [i8],
}

// Not derived, as that of a question.
impl<N: Copy> Clone for NodeLegsLeft<'_, N> {
    fn clone(&self) -> Result<Self, AllocError> {
        Ok(*self)
    }
}

// Whether a leg with this fill and this size of its count is filled.
fn is_filled<N: Exact>(fill: N, size: u16) -> bool
    ensures { result ≡ is_above_zero (N.fraction fill) && is_positive size }
{
    fill.sign() > 0 && size > 0
}

// The role of a filled long leg.
fn long_role(sign: i8) -> Role
    ensures { role_as result ≡ role_of true ModelLong (sign_of sign) }
{
    if sign == 0 {
        Role::Free
    } else if sign > 0 {
        Role::Above
    } else {
        Role::Below
    }
}

// The role of a leg with a sign.
fn role_for(is_filled: bool, exposure: Exposure, sign: i8) -> Role
    ensures { role_as result ≡ role_of is_filled (exposure_as exposure) (sign_of sign) }
{
    if !is_filled {
        return Role::Idle;
    }
    match exposure {
        Exposure::Short => Role::Covering,
        Exposure::Long => long_role(sign),
    }
}

/// What an option has at entry i, which is 0 behind its last one.
pub fn entry(form: &Form, i: usize) -> i64
    requires { i < 9 }
    ensures { result ≡ get_or (option_of form.now) i (pos 0) }
{
    form.entries[i]
}

/// All legs of a node with these signs.
pub fn legs_of<'a, N: Exact>(asked: SearchQuestion<'a, N>, signs: &'a [i8]) -> NodeLegsLeft<'a, N>
    requires { MayBeAsked asked }
    ensures legs { roles_left N.fraction result
        ≡ in_roles (legs_asked N.fraction asked.entry) (map sign_of signs.now) }
    ensures at_leg { IsAtLeg result.legs }
{
    NodeLegsLeft {
        legs: LegsLeft {
            orders: asked.orders,
            fills: asked.fills,
            next: 0,
        },
        signs,
    }
}

/// The first leg, where there is one, and those after it.
pub fn first_of<'a, N: Exact>(
    left: NodeLegsLeft<'a, N>,
) -> Option<(NodeLeg<'a, N>, NodeLegsLeft<'a, N>)>
    requires { IsAtLeg left.legs }
    ensures { MatchOption result (roles_left N.fraction left.entry ≡ [])
        (λ p. (roles_left N.fraction left.entry
        ≡ role_leg_as N.fraction p.0 ∷ roles_left N.fraction p.1) × IsAtLeg p.1.legs) }
{
    let (sign, signs) = left.signs.split_first()?;
    let (leg, legs) = first_leg(left.legs)?;
    let role = role_for(is_filled(leg.fill, leg.size), leg.exposure, *sign);
    let first = NodeLeg { role, leg };
    Some((first, NodeLegsLeft { legs, signs }))
}
