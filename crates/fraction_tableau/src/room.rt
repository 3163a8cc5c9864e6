//! Numbers that are written in place.
ghost use Rattle.std.specs.Prelude.{◌≡◌, ◌≤◌, map, vec_capacity, vec_len};
ghost use Rattle.exact_num.specs.Fraction.{negated};
ghost use Rattle.simplex_run.specs.Places.{numbers as numbers_from};

use exact_num::Exact;
use lists::push_within;

/// Makes the vector 0, 1 and so on, `count` numbers.
pub fn write_numbers(numbers: &mut Vec<usize>, count: usize)
    requires { count ≤ vec_capacity numbers.old }
    ensures items { numbers.new.items ≡ numbers_from 0 count }
    ensures len { vec_len numbers.new ≡ count }
    ensures capacity { vec_capacity numbers.old ≤ vec_capacity numbers.new }
{
    numbers.clear();
    for i in 0..count {
        push_within(numbers, i);
    }
}

/// Pivots the sign of each number.
pub fn turn_signs<N: Exact>(numbers: &mut [N])
    ensures { map N.fraction numbers.new ≡ map negated (map N.fraction numbers.old) }
{
    for number in numbers.iter_mut() {
        *number = number.neg();
    }
}
