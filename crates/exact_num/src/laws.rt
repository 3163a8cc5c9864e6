//! Laws of the definitions, each of them the contract of a function that does nothing. A type of
//! exact numbers has them by its clauses, so generic code may use them of any.
ghost use Rattle.exact_num.specs.CommonDenominator.{EachIsItsAmount};
ghost use Rattle.exact_num.specs.Laws.{SumsAreExact, DifferencesAreExact, ProductsAreExact, QuotientsAreExact, ZeroAlwaysFits, OneAlwaysFits, IsOrder};
ghost use Rattle.exact_num.specs.Worked.{OperatorsAtTheLimit};

/// A sum that fits is the exact sum, in lowest terms and within the limit.
pub fn sums_are_exact()
    ensures { SumsAreExact }
{}

/// A difference that fits is the exact difference, in lowest terms and within the limit.
pub fn differences_are_exact()
    ensures { DifferencesAreExact }
{}

/// A product that fits is the exact product, in lowest terms and within the limit.
pub fn products_are_exact()
    ensures { ProductsAreExact }
{}

/// A quotient that fits gives the dividend when it is multiplied by the divisor. It is in lowest
/// terms and within the limit.
pub fn quotients_are_exact()
    ensures { QuotientsAreExact }
{}

/// An operation with an operand 0 always fits.
pub fn zero_always_fits()
    ensures { ZeroAlwaysFits }
{}

/// A product with 1, a quotient by 1, and a difference and a quotient of equal numbers always fit.
pub fn one_always_fits()
    ensures { OneAlwaysFits }
{}

/// The order is total, equality is that of the values, and the sign of a difference is the order
/// of its operands.
pub fn order_is_of_values()
    ensures { IsOrder }
{}

/// Sums, products, a quotient and a whole number that just fit 128 bits, or just do not.
pub fn operators_at_the_limit()
    ensures { OperatorsAtTheLimit }
{}

/// Fractions over the product of their denominators are exact.
pub fn each_is_its_amount()
    ensures { EachIsItsAmount }
{}
