// The queues of the buys and the sells of one bundle.
ghost use Rattle.std.specs.Prelude.{◌≡◌, IfOk};
ghost use Rattle.std.specs.Ordering.{is_lt};
ghost use Rattle.form.specs.Vector.{is_same_bundle};
ghost use Rattle.form.specs.Payoff.{bundle_of};
ghost use Rattle.bundle_match.specs.Queue.{stands_before, offers_from, queue_of};

use form::{Order, Side, is_same_bundle};
use std::alloc::{AllocError, Global};
use std::cmp::Ordering;
use std::collections::VecDeque;

// An order in a queue: its place in the batch, its number, its limit price, and what is left of
// its quantity.
#[derive(Clone, Copy, Debug)]
pub(crate) struct Offer {
    pub place: usize,
    pub number: u64,
    pub price: u64,
    pub left: u64,
}

impl Offer {
    ghost use Rattle.std.specs.Prelude.{◌≡◌};
    ghost use Rattle.bundle_match.specs.Queue.{offer_of};

    // The order at a place of the batch, of which nothing is filled.
    fn of(place: usize, order: &Order) -> Self
        ensures { result ≡ offer_of place order.now }
    {
        Offer {
            place,
            number: order.id,
            price: order.price,
            left: u64::from(order.quantity),
        }
    }
}

// Whether two orders are for the same bundle.
#[tactic(auto, unfolding(form::specs::Payoff::bundle_of))]
pub(crate) fn is_for_same_bundle(order: &Order, other: &Order) -> bool
    ensures { result ≡ is_same_bundle (bundle_of order.now) (bundle_of other.now) }
{
    is_same_bundle(&order.bundle, &other.bundle)
}

// The better price comes first: a buy's higher one, a sell's lower one. At one price the smaller
// number comes first.
fn compare(side: Side, offer: &Offer, other: &Offer) -> Ordering
    ensures { is_lt result ≡ stands_before side offer.now other.now }
{
    let by_price = match side {
        Side::Buy => other.price.cmp(&offer.price),
        Side::Sell => offer.price.cmp(&other.price),
    };
    by_price.then(offer.number.cmp(&other.number))
}

// The offers on a side for the bundle of an order, in the order of the batch.
fn offers(
    alloc: Global,
    orders: &[Order],
    other: &Order,
    side: Side,
) -> Result<Vec<Offer>, AllocError>
    ensures { IfOk result (λ v. v.items ≡ offers_from side (bundle_of other.now) 0 orders.now) }
{
    let mut offers = Vec::new(alloc);
    for (place, order) in orders.iter().enumerate() {
        if order.side == side && is_for_same_bundle(order, other) {
            offers.push(Offer::of(place, order))?;
        }
    }
    Ok(offers)
}

// The queue on a side for the bundle of an order.
pub(crate) fn queue(
    alloc: Global,
    orders: &[Order],
    other: &Order,
    side: Side,
) -> Result<VecDeque<Offer>, AllocError>
    ensures { IfOk result (λ v. v.items ≡ queue_of side (bundle_of other.now) orders.now) }
{
    let mut offers = offers(alloc, orders, other, side)?;
    offers.sort_by(|offer, other| compare(side, offer, other))?;
    Ok(VecDeque::from(offers))
}
