//! Whether the liability is enough, as the mark shows.

ghost use Rattle.std.specs.Prelude.{◌≡◌, length};
ghost use Rattle.frac.specs.Range.{limit};
ghost use Rattle.form.specs.Limits.{HasItsForms};
ghost use Rattle.cert_check.specs.Cover.{batch_marked};
ghost use Rattle.cert_check.specs.Shape.{IsMarkOn};
ghost use Rattle.cert_check.specs.Tests.{AreSigns};

use crate::balance::fallback_holds;
use crate::checks::cover_holds;
use crate::outcome::Mark;
use exact_num::Wide;
use form::Batch;
use frac::Frac128;

// Whether the cover shows that the liability is enough, or without a mark nothing is owed.
pub(crate) fn mark_covers(
    batch: &Batch,
    fills: &[Frac128],
    liability: &Frac128,
    mark: &Mark,
    signs: &mut [i8],
) -> Result<bool, Wide>
    requires forms { HasItsForms batch.now }
    requires fills { length fills.now ≡ length batch.now.orders }
    requires signs { AreSigns batch.now.orders (length signs.old) }
    requires mark { IsMarkOn batch.now.underlyings mark.now }
    ensures { result ≡ batch_marked limit batch.now fills.now liability.now mark.now }
{
    match mark {
        Mark::Optimal { cover, .. } => cover_holds(batch, fills, liability, cover, signs),
        Mark::Wide(_) | Mark::Budget => fallback_holds(batch.orders.as_slice(), fills, liability),
    }
}
