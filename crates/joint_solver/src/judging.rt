// The sums of the verdict, which come last in a run.
ghost use Rattle.std.specs.Prelude.{◌≤◌, length, vec_capacity};
ghost use Rattle.form.specs.Limits.{IsWithinLimits};
ghost use Rattle.cert_check.specs.Tests.{AreSigns};
ghost use Rattle.constraint_generation.specs.Answers.{IsJointOf, IsJudgedAnswer, as_stopped};

use cert_check::Claim;
use constraint_generation::{Solution, tests_hold, write_widened};
use exact_num::Exact;
use form::Batch;
use frac::Frac128;
use simplex::RunStop;

/// The sums of the verdict on a solution in any numbers, with a list that has room for its fills in
/// 128 bits.
pub(crate) fn judge_widened<N: Exact>(
    batch: &Batch,
    joint: Solution<N>,
    unit: u32,
    mut fills: Vec<Frac128>,
    signs: &mut [i8],
) -> Result<Solution<N>, RunStop>
    requires limits { IsWithinLimits batch.now }
    requires joint { IsJointOf batch.now joint }
    requires room { length batch.now.orders ≤ vec_capacity fills }
    requires signs { AreSigns batch.now.orders (length signs.old) }
    ensures { IsJudgedAnswer N.fraction batch.now joint (as_stopped result) unit }
{
    write_widened(&mut fills, &joint.fills);
    let claim = Claim {
        liability: Frac128::of(joint.liability),
        surplus: Frac128::of(joint.surplus),
    };
    match tests_hold(batch, &fills, &claim, &joint.cover, &joint.measure, signs) {
        Ok(_) => Ok(joint),
        Err(wide) => Err(RunStop::Wide { unit, wide }),
    }
}
