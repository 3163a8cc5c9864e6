//! The sums of the verdict, which come last in a run.
ghost use Rattle.std.specs.Prelude.{◌≡◌, ◌≤◌, map, length, vec_capacity, vec_len};
ghost use Rattle.form.specs.Limits.{HasItsForms};
ghost use Rattle.frac.specs.Value.{fraction_of};
ghost use Rattle.cert_check.specs.Points.{IsOnStates};
ghost use Rattle.cert_check.specs.Conditions.{IsCoverOn};
ghost use Rattle.cert_check.specs.Tests.{HasSigns};
ghost use Rattle.master_program.specs.Verdict.{sums_on};
ghost use Rattle.constraint_generation.specs.Answers.{IsJointOf, claimed_in, reading_in};

use crate::solution::Solution;
use cert_check::{Claim, Cover, Measure, bound_holds, cover_holds, measure_holds, surplus_holds};
use exact_num::{Exact, Wide};
use form::Batch;
use frac::Frac128;
use lists::push_within;

/// Writes the numbers in 128 bits. It takes no memory.
pub fn write_widened<N: Exact>(wide: &mut Vec<Frac128>, numbers: &[N])
    requires { length numbers.now ≤ vec_capacity wide.old }
    ensures { map fraction_of wide.new.items ≡ map N.fraction numbers.now }
{
    wide.clear();
    for number in numbers {
        push_within(wide, Frac128::of(*number));
    }
}

/// The solution with its numbers in 128 bits, its fills in a list that has room for them. It takes
/// no memory.
pub fn widened<N: Exact>(joint: Solution<N>, mut fills: Vec<Frac128>) -> Solution<Frac128>
    requires { vec_len joint.fills ≤ vec_capacity fills }
    ensures reading { reading_in fraction_of result ≡ reading_in N.fraction joint }
    ensures cover { result.cover ≡ joint.cover }
    ensures joint { (batch : Batch) → IsJointOf batch joint → IsJointOf batch result }
{
    write_widened(&mut fills, &joint.fills);
    Solution {
        fills,
        liability: Frac128::of(joint.liability),
        surplus: Frac128::of(joint.surplus),
        cover: joint.cover,
        measure: joint.measure,
    }
}

/// The tests of the verdict one after another, with a sign for each leg to work in: surplus, cover,
/// measure and bound. `Wide` comes at the first step that does not fit. It takes no memory.
pub fn tests_hold(
    batch: &Batch,
    fills: &[Frac128],
    claim: &Claim,
    cover: &Cover,
    measure: &Measure,
    signs: &mut [i8],
) -> Result<bool, Wide>
    requires forms { HasItsForms batch.now }
    requires fills { length fills.now ≡ length batch.now.orders }
    requires cover { IsCoverOn batch.now.underlyings cover.now }
    requires states { IsOnStates batch.now.underlyings measure.now }
    requires signs { HasSigns cover.now batch.now.orders (length signs.old) }
    ensures { result ≡ sums_on batch.now
        (claimed_in (map fraction_of fills.now) claim.now measure.now) cover.now }
{
    if !surplus_holds(batch.orders.as_slice(), fills, claim)? {
        return Ok(false);
    }
    if !cover_holds(batch, fills, &claim.liability, cover, signs)? {
        return Ok(false);
    }
    if !measure_holds(measure)? {
        return Ok(false);
    }
    bound_holds(batch, measure, &claim.surplus)
}
