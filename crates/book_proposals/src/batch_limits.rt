// Whether orders that are read are the live orders of a market.
ghost use Rattle.std.specs.Prelude.{◌↔◌, ◌+◌, ◌≡◌, IsTrue};
ghost use Rattle.form.specs.Limits.{IsWithinLimits};
ghost use Rattle.cert_check.specs.Shape.{forms_have};
ghost use Rattle.proposal_text.specs.Within.{AreRising};
ghost use Rattle.reply_print.specs.Within.{IsBatchWithin};

use form::{Batch, Order};

// Whether orders whose numbers rise, and are within their ranges, are on the batch's underlyings.
pub(crate) fn is_within_limits(batch: &Batch) -> bool
    requires ranges { IsBatchWithin batch.now }
    requires rise { AreRising batch.now.orders }
    ensures { IsTrue result ↔ IsWithinLimits batch.now }
{
    are_on(batch.underlyings, batch.orders.as_slice())
}

// Whether each leg of each order is on so many underlyings.
fn are_on(underlyings: u8, orders: &[Order]) -> bool
    ensures { result ≡ forms_have (underlyings + 1) orders.now }
{
    orders.iter().all(|order| order.bundle.is_on(underlyings))
}
