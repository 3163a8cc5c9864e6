//! The program of a node, given to a space row by row.
ghost use Rattle.std.specs.Prelude.{◌≡◌, ◌≤◌, ◌+◌, Ok, length, map, pos, replicate, unsigned_abs, vec_capacity};
ghost use Rattle.exact_num.specs.Fits.{after};
ghost use Rattle.exact_num.specs.Fraction.{whole};
ghost use Rattle.fraction_tableau.specs.Programs.{with_row};
ghost use Rattle.sign_tree.specs.Read.{sign_of};
ghost use Rattle.simplex.specs.Spaces.{given, program_given};
ghost use Rattle.master_program.specs.Node.{covers_of, minus_units, signed_of, size_row};
ghost use Rattle.master_program.specs.NodeSteps.{counted_node, cover_rows_steps, node_steps, signed_rows_steps};
ghost use Rattle.simplex_run.specs.Places.{fraction_zero};
ghost use Rattle.pricing_oracle.specs.Filled.{HasMade};
ghost use Rattle.pricing_oracle.specs.Nodes.{MayBeAsked, legs_asked};
ghost use Rattle.pricing_oracle.specs.Programs.{HasGiven, HasSameSize, IsOpen};

use crate::costs::write_costs;
use crate::legs::{SearchQuestion, first_of, legs_of};
use crate::rows::{cover_count, write_cover_row, write_signed_row, write_size_row};
use exact_num::{Exact, Wide};
use simplex::Space;

// Gives the row of the state's size: its entries sum to at most 1.
fn give_size_row<N: Exact>(space: &mut Space<N>, row: &mut Vec<N>, n: usize, covers: usize)
    requires n { n ≤ 8 }
    requires covers { covers ≤ 1024 }
    requires program { IsOpen space.old (n + 1 + covers) 1 }
    requires row { n + 1 + covers ≤ vec_capacity row.old }
    ensures given { space.new.contents ≡ given
        (with_row (program_given space.old.contents) (map whole (size_row n covers))
        (whole (pos 1))) }
    ensures size { HasSameSize space.old space.new }
    ensures capacity { vec_capacity row.old ≤ vec_capacity row.new }
{
    write_size_row(row, n, covers);
    space.row(row.as_slice(), N::one());
}

// Gives the rows of the covering legs.
fn give_cover_rows<N: Exact>(
    space: &mut Space<N>,
    row: &mut Vec<N>,
    asked: SearchQuestion<N>,
    signs: &[i8],
    covers: usize,
) -> Result<(), Wide>
    requires asked { MayBeAsked asked }
    requires signs { length signs.now ≤ 1024 }
    requires covers { covers ≡ length (covers_of
        (counted_node (legs_asked N.fraction asked) (map sign_of signs.now))) }
    requires program { IsOpen space.old (asked.underlyings + 1 + covers) covers }
    requires row { asked.underlyings + 1 + covers ≤ vec_capacity row.old }
    ensures given { HasGiven space.old covers
        (cover_rows_steps (unsigned_abs N.LIMIT) asked.entry.underlyings (covers_of
        (counted_node (legs_asked N.fraction asked.entry) (map sign_of signs.now)))
        (minus_units covers))
        result space.new }
    ensures size { HasSameSize space.old space.new }
    ensures capacity { vec_capacity row.old ≤ vec_capacity row.new }
{
    let mut place = 0;
    let mut left = legs_of(asked, signs);
    while let Some((leg, after)) = first_of(left) {
        if leg.role.is_covering() {
            write_cover_row(row, leg.leg.form, asked.underlyings, place, covers)?;
            space.row(row.as_slice(), N::zero());
            place += 1;
        }
        left = after;
    }
    Ok(())
}

// Gives the rows of the signed legs.
fn give_signed_rows<N: Exact>(
    space: &mut Space<N>,
    row: &mut Vec<N>,
    asked: SearchQuestion<N>,
    signs: &[i8],
    covers: usize,
) -> Result<(), Wide>
    requires asked { MayBeAsked asked }
    requires signs { length signs.now ≤ 1024 }
    requires program { IsOpen space.old (asked.underlyings + 1 + covers)
        (length (signed_of asked.underlyings
        (counted_node (legs_asked N.fraction asked) (map sign_of signs.now)))) }
    requires row { asked.underlyings + 1 + covers ≤ vec_capacity row.old }
    ensures given { HasGiven space.old (length (signed_of asked.entry.underlyings
        (counted_node (legs_asked N.fraction asked.entry) (map sign_of signs.now))))
        (signed_rows_steps (unsigned_abs N.LIMIT) asked.entry.underlyings
        (replicate covers fraction_zero)
        (counted_node (legs_asked N.fraction asked.entry) (map sign_of signs.now)))
        result space.new }
    ensures size { HasSameSize space.old space.new }
    ensures capacity { vec_capacity row.old ≤ vec_capacity row.new }
{
    let mut left = legs_of(asked, signs);
    while let Some((leg, after)) = first_of(left) {
        if leg.role.is_signed() {
            write_signed_row(row, leg.role, leg.leg.form, asked.underlyings, covers)?;
            space.row(row.as_slice(), N::zero());
        }
        left = after;
    }
    Ok(())
}

/// Gives the program of the node with these signs: its costs, and then its rows.
pub fn give_program<N: Exact>(
    space: &mut Space<N>,
    row: &mut Vec<N>,
    asked: SearchQuestion<N>,
    signs: &[i8],
) -> Result<(), Wide>
    requires asked { MayBeAsked asked }
    requires signs { length signs.now ≤ 1024 }
    requires rows { 1 + length signs.now ≤ space.old.rows }
    requires columns { asked.underlyings + 1 + length signs.now ≤ space.old.columns }
    requires row { asked.underlyings + 1 + length signs.now ≤ vec_capacity row.old }
    ensures given { HasMade (λ _. space.new.contents)
        (after (node_steps (unsigned_abs N.LIMIT) asked.entry.underlyings
        (legs_asked N.fraction asked.entry) (N.fraction asked.entry.liability.now)
        (map sign_of signs.now)) (λ p. Ok (given p)))
        result }
    ensures size { HasSameSize space.old space.new }
    ensures capacity { vec_capacity row.old ≤ vec_capacity row.new }
{
    write_costs(row, asked, signs)?;
    let covers = cover_count(asked, signs);
    space.begin(row.as_slice());
    give_size_row(space, row, asked.underlyings, covers);
    give_cover_rows(space, row, asked, signs, covers)?;
    give_signed_rows(space, row, asked, signs, covers)
}
