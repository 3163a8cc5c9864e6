//! Whether a reply is within its ranges.
ghost use Rattle.std.specs.Prelude.{IsTrue, ◌≡◌, ◌≤◌, ◌*◌, ◌==◌, length, map, nat_le, unsigned_abs};
ghost use Rattle.std.specs.List.{AllByRecursion, list_all, sum};
ghost use Rattle.form.specs.Bundles.{count_sizes};
ghost use Rattle.form.specs.Payoff.{option_of};
ghost use Rattle.reply_print.specs.OutcomePieces.{count_of as count_is};
ghost use Rattle.reply_print.specs.Within.{IsCoverWithin, IsPointWithin, IsWithin, leaves_of};
ghost use Rattle.reply_guess.specs.Options.{has_limits as limits_kept, is_zero};
ghost use Rattle.reply_guess.specs.Ranges as tests;

use cert_check::{Cover, Mark, Measure, Outcome, Weighted};
use form::{
    Batch, Bundle, Leg, MAX_BUDGET, MAX_OPTIONS, MAX_ORDER, MAX_ORDERS, MAX_PRICE, MAX_QUANTITY,
    MAX_STRIKE, MAX_UNDERLYINGS, MAX_WEIGHT, Order, Side,
};
use limits::{
    MAX_ACCOUNT, MAX_BATCHES, MAX_FIELD, MAX_GAIN, MAX_LAPSED, MAX_LINES, MAX_MARKET, MAX_PLACE,
    MAX_REFUSAL, MIN_FIELD,
};
use reply_print::Reply;
use settlement::PaidOut;
use sign_tree::{Multiplier, Node};

fn is_from_to(low: u64, high: u64, n: u64) -> bool
    ensures { result ≡ tests.is_from_to low high n }
{
    low <= n && n <= high
}

fn is_small(z: i128) -> bool
    ensures { result ≡ tests.is_small z }
{
    z.unsigned_abs() < 1 << 127
}

fn are_small(weights: &[i64]) -> bool
    ensures { result ≡ list_all (λ w. nat_le (unsigned_abs w) MAX_WEIGHT) weights.now }
{
    weights
        .iter()
        .all(|weight| weight.unsigned_abs() <= u64::from(MAX_WEIGHT))
}

fn are_zero(weights: &[i64]) -> bool
    ensures { result ≡ list_all is_zero weights.now }
{
    weights.iter().all(|weight| weight.unsigned_abs() == 0)
}

/// Whether a call or a put within the limits has this option, and some weight is not 0.
pub fn has_limits(entries: &[i64]) -> bool
    ensures { result ≡ limits_kept entries.now }
{
    match entries {
        [] => false,
        [strike, weights @ ..] => {
            strike.unsigned_abs() <= MAX_STRIKE && are_small(weights) && !are_zero(weights)
        }
    }
}

// The sum of the sizes of the counts of at most four legs.
fn sizes(legs: &[Leg]) -> u64
    requires { length legs.now ≤ 4 }
    ensures sum { result ≡ sum (map (λ leg. unsigned_abs leg.count) legs.now) }
    ensures bound { result ≤ 131072 }
{
    let mut sum = 0u64;
    for leg in legs {
        sum += u64::from(leg.count.unsigned_abs());
    }
    sum
}

/// Whether an order may have so many of a bundle.
pub fn has_few_options(bundle: &Bundle, quantity: u32) -> bool
    ensures { result ≡ nat_le (quantity * count_sizes bundle.now) MAX_OPTIONS }
{
    u64::from(quantity) * sizes(bundle.as_slice()) <= u64::from(MAX_OPTIONS)
}

fn has_option(leg: &Leg) -> bool
    ensures { result ≡ limits_kept (option_of leg.now.form) }
{
    has_limits(&leg.form.entries[..leg.form.count as usize])
}

fn have_options(legs: &[Leg]) -> bool
    ensures { result ≡ tests.has_options legs.now }
{
    legs.iter().all(has_option)
}

fn has_numbers(order: &Order) -> bool
    ensures { result ≡ tests.has_numbers order.now }
{
    is_from_to(1, MAX_ORDER, order.id)
        && is_from_to(1, MAX_ACCOUNT, u64::from(order.account))
        && order.price <= MAX_PRICE
        && is_from_to(1, u64::from(MAX_QUANTITY), u64::from(order.quantity))
}

fn is_order(order: &Order) -> bool
    ensures { result ≡ tests.is_order order.now }
{
    has_numbers(order)
        && have_options(order.bundle.as_slice())
        && has_few_options(&order.bundle, order.quantity)
}

fn are_orders(orders: &[Order]) -> bool
    ensures { result ≡ list_all tests.is_order orders.now }
{
    orders.iter().all(|order| is_order(order))
}

fn is_batch(batch: &Batch) -> bool
    ensures { result ≡ tests.is_batch batch.now }
{
    is_from_to(1, u64::from(MAX_UNDERLYINGS), u64::from(batch.underlyings))
        && batch.orders.as_slice().len() <= MAX_ORDERS
        && are_orders(batch.orders.as_slice())
}

fn is_place(place: u32) -> bool
    ensures { result ≡ tests.is_place place }
{
    is_from_to(1, MAX_PLACE, u64::from(place))
}

fn is_node(node: &Node) -> bool
    ensures { result ≡ tests.is_node node.now }
{
    match node {
        Node::Split { place } => is_place(*place),
        Node::Leaf { .. } => true,
    }
}

fn are_nodes(nodes: &[Node]) -> bool
    ensures { result ≡ list_all tests.is_node nodes.now }
{
    nodes.iter().all(|node| is_node(node))
}

fn are_multipliers(multipliers: &[Multiplier]) -> bool
    ensures { result ≡ list_all tests.is_multiplier multipliers.now }
{
    multipliers
        .iter()
        .all(|multiplier| is_place(multiplier.place))
}

// How many multipliers a node takes.
fn count_of(node: &Node) -> usize
    ensures { result ≡ count_is node.now }
{
    match node {
        Node::Split { .. } => 0,
        Node::Leaf { count } => *count as usize,
    }
}

// Whether the nodes take so many multipliers.
fn have_leaves(nodes: &[Node], count: usize) -> bool
    ensures { result ≡ (leaves_of nodes.now == count) }
{
    let mut left = count;
    for node in nodes {
        let own = count_of(node);
        if own > left {
            return false;
        }
        left -= own;
    }
    left == 0
}

fn is_tree(nodes: &[Node], multipliers: &[Multiplier]) -> bool
    ensures { result ≡ tests.is_tree nodes.now multipliers.now }
{
    are_nodes(nodes) && are_multipliers(multipliers) && have_leaves(nodes, multipliers.len())
}

fn is_cover(cover: &Cover) -> bool
    ensures { result ≡ tests.is_cover cover.now }
{
    match cover {
        Cover::Line => true,
        Cover::Tree(tree) => is_tree(tree.nodes.as_slice(), tree.multipliers.as_slice()),
    }
}

fn are_entries(entries: &[i128]) -> bool
    ensures { result ≡ list_all tests.is_small entries.now }
{
    entries.iter().all(|entry| is_small(*entry))
}

fn is_point(point: &Weighted) -> bool
    ensures { result ≡ tests.is_point point.now }
{
    are_entries(&point.state.entries[..point.state.count as usize])
}

fn are_points(points: &[Weighted]) -> bool
    ensures { result ≡ list_all tests.is_point points.now }
{
    points.iter().all(|point| is_point(point))
}

fn is_certificate(cover: &Cover, measure: &Measure) -> bool
    ensures { result ≡ tests.is_certificate cover.now measure.now }
{
    is_cover(cover) && are_points(measure.points.as_slice())
}

/// Yes only where a cover and a measure are within their ranges. Takes no memory.
pub fn is_certificate_within(cover: &Cover, measure: &Measure) -> bool
    ensures { IsTrue result →
        IsCoverWithin cover.now × AllByRecursion IsPointWithin measure.now.points }
{
    is_certificate(cover, measure)
}

fn is_mark(mark: &Mark) -> bool
    ensures { result ≡ tests.is_mark mark.now }
{
    match mark {
        Mark::Optimal { cover, measure } => is_certificate(cover, measure),
        Mark::Wide(_) => false,
        Mark::Budget => true,
    }
}

fn is_outcome(outcome: &Outcome) -> bool
    ensures { result ≡ tests.is_outcome outcome.now }
{
    outcome.units <= MAX_BUDGET && is_mark(&outcome.mark)
}

fn has_its_side(side: Side, amount: u64) -> bool
    ensures { result ≡ tests.has_its_side side amount }
{
    match side {
        Side::Buy => true,
        Side::Sell => 1 <= amount,
    }
}

fn is_paid(paid: &PaidOut) -> bool
    ensures { result ≡ tests.is_paid paid.now }
{
    is_from_to(1, MAX_BATCHES, u64::from(paid.batch))
        && is_from_to(1, MAX_ORDER, paid.order)
        && is_from_to(1, MAX_ACCOUNT, u64::from(paid.account))
        && paid.amount <= MAX_GAIN
        && has_its_side(paid.side, paid.amount)
}

fn are_paid(payouts: &[PaidOut]) -> bool
    ensures { result ≡ list_all tests.is_paid payouts.now }
{
    payouts.iter().all(|paid| is_paid(paid))
}

fn is_account(account: u32) -> bool
    ensures { result ≡ tests.is_from_to 1 MAX_ACCOUNT account }
{
    is_from_to(1, MAX_ACCOUNT, u64::from(account))
}

fn is_market(market: u32) -> bool
    ensures { result ≡ tests.is_from_to 1 MAX_MARKET market }
{
    is_from_to(1, MAX_MARKET, u64::from(market))
}

// Whether a refusal has its field, or none.
fn is_field(field: u8, is_range: bool) -> bool
    ensures { result ≡ tests.is_field field is_range }
{
    if is_range {
        is_from_to(MIN_FIELD, MAX_FIELD, u64::from(field))
    } else {
        field == 0
    }
}

fn is_cleared(number: u32, market: u32, batch: &Batch, outcome: &Outcome) -> bool
    ensures { result ≡ tests.is_cleared number market batch.now outcome.now }
{
    is_from_to(1, MAX_BATCHES, u64::from(number))
        && is_market(market)
        && is_batch(batch)
        && is_outcome(outcome)
}

fn is_balance(account: u32, balance: i128, reserved: i128) -> bool
    ensures { result ≡ tests.is_balance account balance reserved }
{
    u64::from(account) <= MAX_ACCOUNT && is_small(balance) && is_small(reserved) && 0 <= reserved
}

fn is_reply(reply: &Reply) -> bool
    ensures { result ≡ tests.is_reply reply.now }
{
    match reply {
        Reply::Opened { account } => is_account(*account),
        Reply::Deposited { account, balance } => is_account(*account) && is_small(*balance),
        Reply::Withdrawn { account, balance } => is_account(*account) && is_small(*balance),
        Reply::Listed {
            market,
            underlyings,
        } => {
            is_market(*market) && is_from_to(1, u64::from(MAX_UNDERLYINGS), u64::from(*underlyings))
        }
        Reply::Placed { order } => is_from_to(1, MAX_ORDER, *order),
        Reply::Cancelled { order } => is_from_to(1, MAX_ORDER, *order),
        Reply::Cleared {
            number,
            market,
            batch,
            outcome,
        } => is_cleared(*number, *market, batch, outcome),
        Reply::Settled {
            market,
            lapsed,
            payouts,
        } => {
            is_market(*market) && u64::from(*lapsed) <= MAX_LAPSED && are_paid(payouts.as_slice())
        }
        Reply::Balance {
            account,
            balance,
            reserved,
        } => is_balance(*account, *balance, *reserved),
        Reply::Refused { number, field } => {
            is_from_to(1, MAX_REFUSAL, u64::from(*number)) && is_field(*field, *number == 8)
        }
    }
}

/// Yes only where a line and its reply are within their ranges. Takes no memory.
pub fn is_within(line: u32, reply: &Reply) -> bool
    ensures { IsTrue result → IsWithin line reply.now }
{
    is_from_to(1, MAX_LINES, u64::from(line)) && is_reply(reply)
}
