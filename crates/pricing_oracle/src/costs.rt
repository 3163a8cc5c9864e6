//! The costs of the program of a node.
ghost use Rattle.std.specs.Prelude.{◌≡◌, ◌≤◌, ◌<◌, ◌+◌, suc, length, map, unsigned_abs, [], OnOk, vec_capacity, vec_len};
ghost use Rattle.exact_num.specs.Fits.{meaning};
ghost use Rattle.master_program.specs.Master.{map_steps};
ghost use Rattle.sign_tree.specs.Left.{leg_as};
ghost use Rattle.sign_tree.specs.Read.{sign_of};
ghost use Rattle.master_program.specs.Roles.{values};
ghost use Rattle.master_program.specs.NodeSteps.{add_all_earned, add_earned, cover_cost_steps, covering_legs, leg_fill_steps, state_cost_steps};
ghost use Rattle.simplex_run.specs.Places.{fraction_zero};
ghost use Rattle.pricing_oracle.specs.Filled.{HasFilled};
ghost use Rattle.pricing_oracle.specs.Programs.{costs_steps};
ghost use Rattle.pricing_oracle.specs.Nodes.{MayBeAsked, add_earned_by, legs_asked, role_leg_as};

use crate::legs::{NodeLeg, Role, SearchQuestion, entry, first_of, legs_of};
use exact_num::{Exact, Wide, plus_product};
use lists::push_within;
use sign_tree::BatchLeg;

// The fill of a leg: that of its order times the size of its count.
#[tactic(auto, unfolding(master_program::specs::NodeSteps::leg_fill_steps))]
fn leg_fill<N: Exact>(leg: BatchLeg<N>) -> Result<N, Wide>
    ensures { meaning N.fraction result
        ≡ leg_fill_steps (unsigned_abs N.LIMIT) (leg_as N.fraction leg.entry) }
{
    if leg.size == 1 {
        return Ok(leg.fill);
    }
    let size = N::from_whole(i128::from(leg.size))?;
    leg.fill.mul(size)
}

// The total and the leg's fill times the whole number x.
#[tactic(auto, unfolding(master_program::specs::NodeSteps::add_earned))]
fn add_earned<N: Exact>(total: N, leg: BatchLeg<N>, x: i64) -> Result<N, Wide>
    ensures { meaning N.fraction result
        ≡ add_earned (unsigned_abs N.LIMIT) (N.fraction total) (leg_as N.fraction leg.entry) x }
{
    let fill: N = leg_fill(leg)?;
    let entry = N::from_whole(i128::from(x))?;
    plus_product(total, fill, entry)
}

// The total and what a leg earns at entry i.
#[tactic(auto, unfolding(master_program::specs::NodeSteps::add_by_role))]
fn add_leg<N: Exact>(total: N, leg: NodeLeg<N>, i: usize) -> Result<N, Wide>
    requires { i < 9 }
    ensures { meaning N.fraction result
        ≡ add_earned_by (unsigned_abs N.LIMIT) i (N.fraction total)
        (role_leg_as N.fraction leg.entry) }
{
    let x = entry(leg.leg.form, i);
    match leg.role {
        Role::Free => add_earned(total, leg.leg, x.max(0)),
        Role::Above => add_earned(total, leg.leg, x),
        Role::Below => Ok(total),
        Role::Covering => Ok(total),
        Role::Idle => Ok(total),
    }
}

// What all legs earn at entry i.
fn earned_at<N: Exact>(asked: SearchQuestion<N>, signs: &[i8], i: usize) -> Result<N, Wide>
    requires asked { MayBeAsked asked }
    requires entry { i < 9 }
    ensures { meaning N.fraction result
        ≡ add_all_earned (unsigned_abs N.LIMIT) fraction_zero i
        (legs_asked N.fraction asked.entry) (map sign_of signs.now) }
{
    let mut total = N::zero();
    let mut left = legs_of(asked, signs);
    while let Some((leg, after)) = first_of(left) {
        total = add_leg(total, leg, i)?;
        left = after;
    }
    Ok(total)
}

// The cost of entry i of the state: what all legs earn there, and at entry 0 less the liability.
#[tactic(auto, unfolding(master_program::specs::NodeSteps::state_cost_steps))]
fn state_cost<N: Exact>(asked: SearchQuestion<N>, signs: &[i8], i: usize) -> Result<N, Wide>
    requires asked { MayBeAsked asked }
    requires entry { i < 9 }
    ensures { meaning N.fraction result
        ≡ state_cost_steps (unsigned_abs N.LIMIT) (legs_asked N.fraction asked.entry)
        (N.fraction asked.entry.liability.now) (map sign_of signs.now) i }
{
    let earned: N = earned_at(asked, signs, i)?;
    if i == 0 {
        earned.sub(*asked.liability)
    } else {
        Ok(earned)
    }
}

// Adds the costs of the state's entries.
fn add_state_costs<N: Exact>(
    row: &mut Vec<N>,
    asked: SearchQuestion<N>,
    signs: &[i8],
) -> Result<(), Wide>
    requires asked { MayBeAsked asked }
    requires room { vec_len row.old + (asked.underlyings + 1) ≤ vec_capacity row.old }
    ensures added { HasFilled (map N.fraction row.old.items)
        (map_steps (state_cost_steps (unsigned_abs N.LIMIT) (legs_asked N.fraction asked.entry)
        (N.fraction asked.entry.liability.now) (map sign_of signs.now))
        (values (λ i. i) (suc asked.entry.underlyings)))
        result (map N.fraction row.new.items) }
    ensures len { OnOk result
        (vec_len row.new ≡ vec_len row.old + (asked.entry.underlyings + 1)) }
    ensures capacity { vec_capacity row.old ≤ vec_capacity row.new }
{
    for i in 0..asked.underlyings + 1 {
        push_within(row, state_cost(asked, signs, i)?);
    }
    Ok(())
}

// What the variable of a covering leg costs: the leg's fill.
#[tactic(auto, unfolding(master_program::specs::NodeSteps::cover_cost_steps))]
fn cover_cost<N: Exact>(leg: BatchLeg<N>) -> Result<N, Wide>
    ensures { meaning N.fraction result
        ≡ cover_cost_steps (unsigned_abs N.LIMIT) (leg_as N.fraction leg.entry) }
{
    let fill: N = leg_fill(leg)?;
    Ok(fill.neg())
}

// Adds the costs of the covering legs' variables.
fn add_cover_costs<N: Exact>(
    row: &mut Vec<N>,
    asked: SearchQuestion<N>,
    signs: &[i8],
) -> Result<(), Wide>
    requires asked { MayBeAsked asked }
    requires room { vec_len row.old + length signs.now ≤ vec_capacity row.old }
    ensures added { HasFilled (map N.fraction row.old.items)
        (map_steps (cover_cost_steps (unsigned_abs N.LIMIT))
        (covering_legs (legs_asked N.fraction asked.entry) (map sign_of signs.now)))
        result (map N.fraction row.new.items) }
    ensures capacity { vec_capacity row.old ≤ vec_capacity row.new }
{
    let mut left = legs_of(asked, signs);
    while let Some((leg, after)) = first_of(left) {
        if leg.role.is_covering() {
            push_within(row, cover_cost(leg.leg)?);
        }
        left = after;
    }
    Ok(())
}

/// Writes the costs of the program of a node: those of the state's entries, and of the covering
/// legs' variables.
pub fn write_costs<N: Exact>(
    row: &mut Vec<N>,
    asked: SearchQuestion<N>,
    signs: &[i8],
) -> Result<(), Wide>
    requires asked { MayBeAsked asked }
    requires room { asked.underlyings + 1 + length signs.now ≤ vec_capacity row.old }
    ensures written { HasFilled []
        (costs_steps (unsigned_abs N.LIMIT) asked.entry.underlyings
        (legs_asked N.fraction asked.entry) (N.fraction asked.entry.liability.now)
        (map sign_of signs.now))
        result (map N.fraction row.new.items) }
    ensures capacity { vec_capacity row.old ≤ vec_capacity row.new }
{
    row.clear();
    add_state_costs(row, asked, signs)?;
    add_cover_costs(row, asked, signs)
}
