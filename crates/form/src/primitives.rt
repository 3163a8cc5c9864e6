//! Primitive states: those whose entries have no common divisor above 1.

ghost use Rattle.std.specs.Prelude.{◌≡◌, ◌≤◌, ◌≤ℤ◌, map, pos, unsigned_abs, IfOk};
ghost use Rattle.exact_num.specs.Fraction.{whole};
ghost use Rattle.exact_num.specs.Fits.{meaning, mul_of};
ghost use Rattle.form.specs.Primitive.{IsDirection, IsPrimitiveDirection, common_divisor};
ghost use Rattle.form.specs.Primitive.{common_multiple_of, multiple_with, multiples_of};
ghost use Rattle.form.specs.Primitive.{primitive_of, primitive_vector};
ghost use Rattle.form.specs.States.{vector_of};

use crate::states::State;
use exact_num::{Exact, Wide, gcd};

/// The state of the same direction whose entries have no common divisor above 1, for 2 to 9 entries
/// none of which is below 0 and not all of which are 0. `Wide` comes exactly where the least common
/// multiple of the denominators, or an entry times it, does not fit the type of the entries. Takes
/// no memory.
pub fn primitive<N: Exact>(entries: &[N]) -> Result<State, Wide>
    requires { IsDirection (map N.fraction entries.now) }
    ensures steps { meaning vector_of result
        ≡ primitive_of (unsigned_abs N.LIMIT) (map N.fraction entries.now) }
    ensures direction { IfOk result (λ state.
        IsPrimitiveDirection (map N.fraction entries.now) (vector_of state)) }
{
    let multiple = common_multiple(entries)?;
    let state = multiples(entries, multiple)?;
    Ok(lowest(&state))
}

/// The least common multiple of the denominators.
fn common_multiple<N: Exact>(entries: &[N]) -> Result<N, Wide>
    ensures multiple { meaning N.fraction result
        ≡ common_multiple_of (unsigned_abs N.LIMIT) (map N.fraction entries.now) }
    ensures positive { IfOk result (λ d. pos 1 ≤ℤ (N.fraction d).numerator) }
{
    let mut multiple = N::one();
    for entry in entries {
        multiple = with_denominator(multiple, *entry)?;
    }
    Ok(multiple)
}

/// The least common multiple of a whole number and the denominator of the entry.
fn with_denominator<N: Exact>(multiple: N, entry: N) -> Result<N, Wide>
    requires { pos 1 ≤ℤ (N.fraction multiple).numerator }
    ensures { meaning N.fraction result
        ≡ multiple_with (unsigned_abs N.LIMIT) (N.fraction multiple) (N.fraction entry) }
{
    let number = multiple.parts().0.unsigned_abs();
    let denominator = entry.parts().1;
    let rest = number / gcd(number, denominator.unsigned_abs());
    product_of_wholes(rest as i128, denominator)
}

/// The product of two whole numbers within the limit.
fn product_of_wholes<N: Exact>(a: i128, b: i128) -> Result<N, Wide>
    requires left { unsigned_abs a ≤ unsigned_abs N.LIMIT }
    requires right { unsigned_abs b ≤ unsigned_abs N.LIMIT }
    ensures { meaning N.fraction result ≡ mul_of (unsigned_abs N.LIMIT) (whole a) (whole b) }
{
    let left = N::from_whole(a)?;
    let right = N::from_whole(b)?;
    left.mul(right)
}

/// The state whose entries are these times their common multiple.
fn multiples<N: Exact>(entries: &[N], multiple: N) -> Result<State, Wide>
    requires direction { IsDirection (map N.fraction entries.now) }
    requires positive { pos 1 ≤ℤ (N.fraction multiple).numerator }
    ensures { meaning vector_of result
        ≡ multiples_of (unsigned_abs N.LIMIT) (N.fraction multiple) (map N.fraction entries.now) }
{
    let mut numerators = [0; 9];
    for (i, entry) in entries.iter().enumerate() {
        numerators[i] = entry.mul(multiple)?.parts().0;
    }
    Ok(State {
        count: entries.len() as u8,
        entries: numerators,
    })
}

/// The state of the same direction whose entries have no common divisor above 1.
fn lowest(state: &State) -> State
    ensures { vector_of result ≡ primitive_vector (vector_of state.now) }
{
    let divisor = divisor_of(state);
    let mut entries = [0; 9];
    for (i, entry) in state.entries.iter().enumerate() {
        entries[i] = (entry.unsigned_abs() / divisor) as i128;
    }
    State {
        count: state.count,
        entries,
    }
}

/// The greatest number that divides each entry.
fn divisor_of(state: &State) -> u128
    ensures { result ≡ common_divisor (vector_of state.now) }
{
    let mut divisor = 0;
    for i in 0..state.count as usize {
        divisor = gcd(divisor, state.entries[i].unsigned_abs());
    }
    divisor
}
