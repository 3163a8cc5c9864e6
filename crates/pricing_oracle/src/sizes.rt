//! The sizes of a room for searches.
ghost use Rattle.std.specs.Prelude.{◌≡◌, ◌≤◌, length};
ghost use Rattle.form.specs.declared.limits.TheConstants.{MAX_ORDERS};
ghost use Rattle.pricing_oracle.specs.Sizes.{sizes_for};

use form::Batch;
use sign_tree::leg_count;

/// How many underlyings and legs a search may be over, and with how many units.
#[derive(Clone, Copy)]
pub struct SearchSizes {
    pub underlyings: usize,
    pub legs: usize,
    pub units: u32,
}

impl SearchSizes {
    /// Those of a search over the batch with so many units.
    pub fn of(batch: &Batch, units: u32) -> SearchSizes
        requires { length batch.now.orders ≤ MAX_ORDERS }
        ensures sizes { result ≡ sizes_for batch.now units }
        ensures few { result.legs ≤ 1024 }
    {
        SearchSizes {
            underlyings: batch.underlyings as usize,
            legs: leg_count(batch.orders.as_slice()),
            units,
        }
    }
}
