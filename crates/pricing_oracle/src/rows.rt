//! The rows of the program of a node.
ghost use Rattle.std.specs.Prelude.{◌≡◌, ◌≤◌, ◌<◌, ◌+◌, ◌-◌, ◌++◌, [], Ok, OnOk, get_or, length, map, pos, replicate, unsigned_abs, vec_capacity, vec_len};
ghost use Rattle.exact_num.specs.Fits.{after, meaning, whole_of};
ghost use Rattle.exact_num.specs.Fraction.{whole};
ghost use Rattle.form.specs.Payoff.{option_of};
ghost use Rattle.master_program.specs.Master.{map_steps};
ghost use Rattle.sign_tree.specs.Read.{sign_of};
ghost use Rattle.master_program.specs.Node.{covers_of, size_row};
ghost use Rattle.master_program.specs.Roles.{entries};
ghost use Rattle.master_program.specs.NodeSteps.{counted_node, negated_of};
ghost use Rattle.simplex_run.specs.Places.{fraction_zero};
ghost use Rattle.pricing_oracle.specs.Filled.{HasFilled};
ghost use Rattle.pricing_oracle.specs.Nodes.{MayBeAsked, legs_asked, role_as};
ghost use Rattle.pricing_oracle.specs.Programs.{signed_entries, unit_at};

use crate::legs::{Role, SearchQuestion, entry, first_of, legs_of};
use exact_num::{Exact, Wide};
use form::Form;
use lists::push_within;

// What an option has at entry i.
fn entry_of<N: Exact>(form: &Form, i: usize) -> Result<N, Wide>
    requires { i < 9 }
    ensures { meaning N.fraction result
        ≡ whole_of (unsigned_abs N.LIMIT) (get_or (option_of form.now) i (pos 0)) }
{
    N::from_whole(i128::from(entry(form, i)))
}

// The same with a minus.
#[tactic(auto, unfolding(master_program::specs::NodeSteps::negated_of))]
fn negated_of<N: Exact>(form: &Form, i: usize) -> Result<N, Wide>
    requires { i < 9 }
    ensures { meaning N.fraction result
        ≡ negated_of (unsigned_abs N.LIMIT) (get_or (option_of form.now) i (pos 0)) }
{
    let entry: N = entry_of(form, i)?;
    Ok(entry.neg())
}

// Adds the entries 0 to n of an option.
fn add_entries<N: Exact>(row: &mut Vec<N>, form: &Form, n: usize) -> Result<(), Wide>
    requires n { n ≤ 8 }
    requires room { vec_len row.old + (n + 1) ≤ vec_capacity row.old }
    ensures added { HasFilled (map N.fraction row.old.items)
        (map_steps (whole_of (unsigned_abs N.LIMIT)) (entries n (option_of form.now)))
        result (map N.fraction row.new.items) }
    ensures len { OnOk result (vec_len row.new ≡ vec_len row.old + (n + 1)) }
    ensures capacity { vec_capacity row.old ≤ vec_capacity row.new }
{
    for i in 0..n + 1 {
        push_within(row, entry_of(form, i)?);
    }
    Ok(())
}

// The same with a minus.
fn add_negated<N: Exact>(row: &mut Vec<N>, form: &Form, n: usize) -> Result<(), Wide>
    requires n { n ≤ 8 }
    requires room { vec_len row.old + (n + 1) ≤ vec_capacity row.old }
    ensures added { HasFilled (map N.fraction row.old.items)
        (map_steps (negated_of (unsigned_abs N.LIMIT)) (entries n (option_of form.now)))
        result (map N.fraction row.new.items) }
    ensures len { OnOk result (vec_len row.new ≡ vec_len row.old + (n + 1)) }
    ensures capacity { vec_capacity row.old ≤ vec_capacity row.new }
{
    for i in 0..n + 1 {
        push_within(row, negated_of(form, i)?);
    }
    Ok(())
}

// Adds `count` times 1.
fn push_ones<N: Exact>(row: &mut Vec<N>, count: usize)
    requires { vec_len row.old + count ≤ vec_capacity row.old }
    ensures added { map N.fraction row.new.items
        ≡ map N.fraction row.old.items ++ replicate count (whole (pos 1)) }
    ensures len { vec_len row.new ≡ vec_len row.old + count }
    ensures capacity { vec_capacity row.old ≤ vec_capacity row.new }
{
    for _i in 0..count {
        push_within(row, N::one());
    }
}

// Adds `count` zeros.
fn push_zeros<N: Exact>(row: &mut Vec<N>, count: usize)
    requires { vec_len row.old + count ≤ vec_capacity row.old }
    ensures added { map N.fraction row.new.items
        ≡ map N.fraction row.old.items ++ replicate count fraction_zero }
    ensures len { vec_len row.new ≡ vec_len row.old + count }
    ensures capacity { vec_capacity row.old ≤ vec_capacity row.new }
{
    for _i in 0..count {
        push_within(row, N::zero());
    }
}

/// Writes the row of a state's size: 1 for each of its entries, and 0 for the variables of the
/// covering legs.
pub fn write_size_row<N: Exact>(row: &mut Vec<N>, n: usize, covers: usize)
    requires n { n ≤ 8 }
    requires room { n + 1 + covers ≤ vec_capacity row.old }
    ensures written { map N.fraction row.new.items ≡ map whole (size_row n covers) }
    ensures capacity { vec_capacity row.old ≤ vec_capacity row.new }
{
    row.clear();
    push_ones(row, n + 1);
    push_zeros(row, covers);
}

/// Writes the row of a covering leg: its option, and -1 at its own place among the covering legs.
pub fn write_cover_row<N: Exact>(
    row: &mut Vec<N>,
    form: &Form,
    n: usize,
    place: usize,
    covers: usize,
) -> Result<(), Wide>
    requires n { n ≤ 8 }
    requires place { place < covers }
    requires room { n + 1 + covers ≤ vec_capacity row.old }
    ensures written { HasFilled [] (after
        (map_steps (whole_of (unsigned_abs N.LIMIT)) (entries n (option_of form.now)))
        (λ xs. Ok (xs ++ map whole (unit_at place (covers - place - 1)))))
        result (map N.fraction row.new.items) }
    ensures capacity { vec_capacity row.old ≤ vec_capacity row.new }
{
    row.clear();
    add_entries(row, form, n)?;
    push_zeros(row, place);
    push_within(row, N::one().neg());
    push_zeros(row, covers - place - 1);
    Ok(())
}

/// Writes the row of a signed leg: its option, with a minus above.
pub fn write_signed_row<N: Exact>(
    row: &mut Vec<N>,
    role: Role,
    form: &Form,
    n: usize,
    covers: usize,
) -> Result<(), Wide>
    requires n { n ≤ 8 }
    requires room { n + 1 + covers ≤ vec_capacity row.old }
    ensures written { HasFilled [] (after
        (signed_entries (unsigned_abs N.LIMIT) (role_as role) (entries n (option_of form.now)))
        (λ xs. Ok (xs ++ replicate covers fraction_zero)))
        result (map N.fraction row.new.items) }
    ensures capacity { vec_capacity row.old ≤ vec_capacity row.new }
{
    row.clear();
    match role {
        Role::Above => add_negated(row, form, n)?,
        _ => add_entries(row, form, n)?,
    }
    push_zeros(row, covers);
    Ok(())
}

/// How many legs of a node cover.
pub fn cover_count<N: Exact>(asked: SearchQuestion<N>, signs: &[i8]) -> usize
    requires asked { MayBeAsked asked }
    requires signs { length signs.now ≤ 1024 }
    ensures count { result ≡ length (covers_of
        (counted_node (legs_asked N.fraction asked.entry) (map sign_of signs.now))) }
    ensures few { result ≤ length signs.now }
{
    let mut count = 0;
    let mut left = legs_of(asked, signs);
    while let Some((leg, after)) = first_of(left) {
        if leg.role.is_covering() {
            count += 1;
        }
        left = after;
    }
    count
}
