//! The proposal of nothing.

ghost use Rattle.std.specs.Prelude.{◌≡◌, ◌≤◌, IfOk, length, map, pos, replicate};
ghost use Rattle.exact_num.specs.Fraction.{whole};
ghost use Rattle.frac.specs.Value.{fraction_of};
ghost use Rattle.form.specs.Limits.{IsWithinLimits};
ghost use Rattle.cert_check.specs.Points.{point_of};
ghost use Rattle.proposals.specs.Judged.{IsBareCover, IsJudgedBound, ProposesNothing, zero_prices};

use cert_check::{Claim, Cover, Fills, Measure, Points, Weighted};
use exact_num::Exact;
use form::{Batch, Order};
use frac::Frac128;
use proposal_check::{Proposal, ProposalCover};
use settlement::payouts::settlement_at;
use sign_tree::{Multipliers, Node, Nodes, SignTree};
use std::alloc::{AllocError, Global};

/// The proposal that fills no order of the batch: nothing is owed and nothing earned, the cover is
/// the line or one leaf without multipliers, and the measure has all its weight where all prices
/// are 0. It is judged a bound. The batch is within the limits of the exchange. The error is want
/// of memory.
pub fn nothing(alloc: Global, batch: &Batch) -> Result<Proposal, AllocError>
    requires within { IsWithinLimits batch.now }
    ensures nothing { IfOk result (ProposesNothing batch.now) }
    ensures judged { IfOk result (IsJudgedBound batch.now) }
{
    without_fills(alloc, batch)
}

// The proposal of nothing.
fn without_fills(alloc: Global, batch: &Batch) -> Result<Proposal, AllocError>
    requires { IsWithinLimits batch.now }
    ensures { IfOk result (ProposesNothing batch.now) }
{
    let zero = Frac128::zero();
    Ok(Proposal {
        fills: Fills::from_vec(no_fills(alloc, batch.orders.as_slice())?),
        claim: Claim {
            liability: zero,
            surplus: zero,
        },
        cover: ProposalCover::Checked(bare_cover(alloc, batch.underlyings)?),
        measure: Measure {
            points: Points::from_vec(zero_prices(alloc, batch.underlyings)?),
        },
    })
}

// A fill of 0 for each order.
fn no_fills(alloc: Global, orders: &[Order]) -> Result<Vec<Frac128>, AllocError>
    ensures { IfOk result (λ fills.
        map fraction_of fills.items ≡ replicate (length orders.now) (whole (pos 0))) }
{
    vec![in alloc; Frac128::zero(); orders.len()]
}

// The line on one underlying, and on several one leaf without multipliers.
fn bare_cover(alloc: Global, underlyings: u8) -> Result<Cover, AllocError>
    requires { 1 ≤ underlyings }
    ensures { IfOk result (IsBareCover underlyings) }
{
    if underlyings == 1 {
        return Ok(Cover::Line);
    }
    let nodes = vec![in alloc; Node::Leaf { count: 0 }]?;
    Ok(Cover::Tree(SignTree {
        nodes: Nodes::from_vec(nodes),
        multipliers: Multipliers::from_vec(Vec::new(alloc)),
    }))
}

// All the weight at the settlement where all prices are 0.
fn zero_prices(alloc: Global, underlyings: u8) -> Result<Vec<Weighted>, AllocError>
    requires { (1 ≤ underlyings) × (underlyings ≤ 8) }
    ensures { IfOk result (λ points. map point_of points.items ≡ zero_prices underlyings) }
{
    let prices = [0; 8];
    let point = Weighted {
        state: settlement_at(&prices[..usize::from(underlyings)]),
        weight: Frac128::one(),
    };
    Ok(vec![in alloc; point]?)
}
