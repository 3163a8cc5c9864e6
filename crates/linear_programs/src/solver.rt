//! The solver.
ghost use Rattle.std.specs.Prelude.{◌≡◌, ◌-◌, ◌<◌, Err, IfOk, length, map, unsigned_abs, vec_len};
ghost use Rattle.simplex_run.specs.Choose.{bases_of};
ghost use Rattle.simplex_run.specs.Run.{run as run_of};
ghost use Rattle.linear_programs.specs.Answers.{HoldsOf, IsAnswer, solved_contents};
ghost use Rattle.linear_programs.specs.Programs.{IsProper, as_program};
ghost use Rattle.simplex.specs.Spaces.{given, IsFound, IsRising, x_of, y_of, reduced_of, direction_of};

use crate::program::Program;
use crate::solved::Solved;
use exact_num::Exact;
use simplex::fill::zeros;
use simplex::{Budget, SolveStop, Space};
use std::alloc::{AllocError, Global};

/// A space in which the program is given.
fn space_for<N: Exact>(alloc: Global, program: &Program<N>) -> Result<Space<N>, AllocError>
    requires { IsProper N.fraction program.now }
    ensures { IfOk result (λ space. space.contents ≡ given (as_program N.fraction program.now)) }
{
    let mut space = Space::with_room(alloc, program.m, program.n)?;
    space.start(program.c.as_slice());
    let mut left = program.a.as_slice();
    for i in 0..program.m {
        let (coefficients, others) = left.split_at(program.n);
        space.row(coefficients, program.b[i]);
        left = others;
    }
    Ok(space)
}

/// Writes the values of the variables into `x`.
fn write_solution<N: Exact>(space: &Space<N>, x: &mut [N])
    requires found { IsFound space.now.contents }
    requires width { length x.old ≡ length (x_of space.now.contents) }
    ensures { map N.fraction x.new ≡ x_of space.now.contents }
{
    for j in 0..x.len() {
        x[j] = space.x(j);
    }
}

/// Writes the dual values of the rows into `y`.
fn write_dual<N: Exact>(space: &Space<N>, y: &mut [N])
    requires found { IsFound space.now.contents }
    requires width { length y.old ≡ length (y_of space.now.contents) }
    ensures { map N.fraction y.new ≡ y_of space.now.contents }
{
    for i in 0..y.len() {
        y[i] = space.y(i);
    }
}

/// Writes the reduced costs of the variables into `reduced`.
fn write_reduced<N: Exact>(space: &Space<N>, reduced: &mut [N])
    requires found { IsFound space.now.contents }
    requires width { length reduced.old ≡ length (reduced_of space.now.contents) }
    ensures { map N.fraction reduced.new ≡ reduced_of space.now.contents }
{
    for j in 0..reduced.len() {
        reduced[j] = space.reduced(j);
    }
}

/// Writes the direction into `d`.
fn write_direction<N: Exact>(space: &Space<N>, d: &mut [N])
    requires { length d.old ≡ length (direction_of space.now.contents) }
    ensures { map N.fraction d.new ≡ direction_of space.now.contents }
{
    for j in 0..d.len() {
        d[j] = space.direction(j);
    }
}

/// The optimum that a run found, in place of the entries of `x`, `y` and `reduced`.
fn optimum<N: Exact>(
    space: &Space<N>,
    mut x: Vec<N>,
    mut y: Vec<N>,
    mut reduced: Vec<N>,
) -> Solved<N>
    requires found { IsFound space.now.contents }
    requires x { vec_len x ≡ length (x_of space.now.contents) }
    requires y { vec_len y ≡ length (y_of space.now.contents) }
    requires reduced { vec_len reduced ≡ length (reduced_of space.now.contents) }
    ensures { solved_contents N.fraction result ≡ space.now.contents }
{
    write_solution(space, x.as_mut_slice());
    write_dual(space, y.as_mut_slice());
    write_reduced(space, reduced.as_mut_slice());
    let value = space.value();
    Solved::Optimal {
        x,
        y,
        reduced,
        value,
    }
}

/// The direction that a run ended with, in place of the entries of `x`.
fn without_limit<N: Exact>(space: &Space<N>, mut x: Vec<N>) -> Solved<N>
    requires rising { IsRising space.now.contents }
    requires x { vec_len x ≡ length (direction_of space.now.contents) }
    ensures { solved_contents N.fraction result ≡ space.now.contents }
{
    write_direction(space, x.as_mut_slice());
    Solved::Unbounded { direction: x }
}

/// Maximises `c · x` under `A x <= b` and `x >= 0` by the simplex method with Bland's rule
/// (Chvatal, Linear Programming, chapters 2 and 3), a unit of the budget a pivot.
///
/// `Wide` comes at the first step of the run that does not fit, `Budget` where the run wants one
/// unit more than the budget has; units that were spent stay spent. `Memory` comes before the first
/// pivot. With as many units left as there are ways to choose `m` of `m + n` variables, `Budget`
/// never comes.
pub fn solve<N: Exact>(
    alloc: Global,
    program: &Program<N>,
    budget: &mut Budget,
) -> Result<Solved<N>, SolveStop>
    requires { IsProper N.fraction program.now }
    ensures run { IsAnswer N.fraction
        (run_of (unsigned_abs N.LIMIT) (as_program N.fraction program.now)
        (budget.old.limit - budget.old.spent) budget.old.spent)
        result budget.new.spent }
    ensures holds { HoldsOf N.fraction (as_program N.fraction program.now) result }
    ensures enough { result ≡ Err SolveStop.Budget
        → budget.old.limit - budget.old.spent < bases_of (as_program N.fraction program.now) }
    ensures memory { result ≡ Err SolveStop.Memory → budget.new.spent ≡ budget.old.spent }
    ensures limit { budget.new.limit ≡ budget.old.limit }
{
    let x = zeros(alloc, program.n)?;
    let y = zeros(alloc, program.m)?;
    let reduced = zeros(alloc, program.n)?;
    let mut space = space_for(alloc, program)?;
    if space.run(budget)? {
        Ok(optimum(&space, x, y, reduced))
    } else {
        Ok(without_limit(&space, x))
    }
}
