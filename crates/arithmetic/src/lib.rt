//! Lemmas of whole numbers: products for `omega`, a ring by computation, the greatest common
//! divisor, and sums over lists. No types and no code: what others use are its definitions and
//! proofs.
#![tactic(auto)]

ghost use Rattle.arithmetic.specs.Laws.{GcdIsGreatest, PositivePartIsLeast};

/// The greatest common divisor of the definitions divides both numbers, and each number that
/// divides both divides it.
pub fn gcd_is_greatest()
    ensures { GcdIsGreatest }
{}

/// The positive part of a whole number is the least natural number that is not below it.
pub fn positive_part_is_least()
    ensures { PositivePartIsLeast }
{}
