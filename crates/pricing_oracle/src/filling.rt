//! Rows that are written into room.
ghost use Rattle.std.specs.Prelude.{◌≡◌, ◌≤◌, length, map, take, vec_capacity};
ghost use Rattle.simplex.specs.Spaces.{IsFound, x_of};

use exact_num::Exact;
use lists::push_within;
use simplex::Space;

/// Writes the values of the first variables at the optimum that the last run found.
pub fn write_values<N: Exact>(row: &mut Vec<N>, space: &Space<N>, count: usize)
    requires found { IsFound space.now.contents }
    requires count { count ≤ length (x_of space.now.contents) }
    requires room { count ≤ vec_capacity row.old }
    ensures written { map N.fraction row.new.items ≡ take count (x_of space.now.contents) }
    ensures capacity { vec_capacity row.old ≤ vec_capacity row.new }
{
    row.clear();
    for j in 0..count {
        push_within(row, space.x(j));
    }
}
