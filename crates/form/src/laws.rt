//! Laws of the model: each is the contract of a function that does nothing.

ghost use Rattle.form.specs.OneOption.{OneOptionPays};
ghost use Rattle.form.specs.Payoff.{BundlesAreLegs, FormsAreOptions};
ghost use Rattle.form.specs.Primitive.{PrimitiveVectorsArePrimitive};
ghost use Rattle.form.specs.Steps.{BundlePayoffsAreExact, PayoffsAreExact};
ghost use Rattle.form.specs.Worked.{StatesByHand};

/// Bundles of the same legs in the same order are equal.
pub fn bundles_are_legs()
    ensures { BundlesAreLegs }
{}

/// Forms of the same option are equal.
pub fn forms_are_options()
    ensures { FormsAreOptions }
{}

/// Where each step of a payoff fits, it is what the option pays.
pub fn payoffs_are_exact()
    ensures { PayoffsAreExact }
{}

/// And likewise for bundles.
pub fn bundle_payoffs_are_exact()
    ensures { BundlePayoffsAreExact }
{}

/// A bundle of one option that counts once pays what the option pays, and does not fit where that
/// does not.
pub fn one_option_pays()
    ensures { OneOptionPays }
{}

/// The primitive vector of a state is a state of the same direction whose entries have no common
/// divisor above 1.
pub fn primitive_vectors_are_primitive()
    ensures { PrimitiveVectorsArePrimitive }
{}

/// Payoffs and primitive vectors that are worked by hand, and some that do not fit 128 bits.
pub fn states_by_hand()
    ensures { StatesByHand }
{}
