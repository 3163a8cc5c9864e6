//! Each case, from the text of its program to the text of its end.
ghost use Rattle.std.specs.Prelude.{◌≡◌, ◌*◌, ◌≤◌, IsTrue, true, vec_len};
ghost use Rattle.exact_num.specs.Fraction.{IsNotBelowZero};
ghost use Rattle.frac.specs.Narrow.{narrow_fraction};
ghost use Rattle.frac.specs.Value.{fraction_of};
ghost use Rattle.fraction_tableau.specs.declared.limits.TheConstants.{MAX_SIDE};

use crate::printing::{print_number, print_wide};
use crate::program_table::CASES;
use crate::reading::{number, numbers, pair};
use crate::signs::is_none_below_zero;
use exact_num::{Exact, Operator, Wide};
use frac::{Frac64, Frac128};
use fraction_tableau::MAX_SIDE;
use linear_programs::{Program, Solved, choices, solve};
use simplex::{Budget, RunStop, SolveStop, Space};
use std::alloc::{AllocError, Global};
use std::test::Fail;

fn print_numbers(text: &mut String, numbers: &[Frac128]) -> Result<(), AllocError> {
    for x in numbers {
        print_number(text, x.parts())?;
    }
    Ok(())
}

fn print_end(
    text: &mut String,
    end: &Result<Solved<Frac128>, SolveStop>,
) -> Result<(), AllocError> {
    match end {
        Ok(
            Solved::Optimal {
                x,
                y,
                reduced,
                value,
            },
        ) => {
            text.push_str(" optimal")?;
            for numbers in [x, y, reduced] {
                print_numbers(text, numbers)?;
                text.push_str(" |")?;
            }
            print_number(text, value.parts())
        }
        Ok(Solved::Unbounded { direction }) => {
            text.push_str(" unbounded")?;
            print_numbers(text, direction)
        }
        Err(SolveStop::Wide { unit: _, wide }) => print_wide(text, wide),
        Err(SolveStop::Budget) => text.push_str(" budget"),
        Err(SolveStop::Memory) => text.push_str(" memory"),
    }
}

// Whether a program has as many numbers as its sizes say, which are small.
fn has_its_sizes(program: &Program<Frac128>) -> bool
    ensures coefficients { IsTrue result → vec_len program.now.a ≡ program.now.m * program.now.n }
    ensures right_sides { IsTrue result → vec_len program.now.b ≡ program.now.m }
    ensures costs { IsTrue result → vec_len program.now.c ≡ program.now.n }
    ensures variables { IsTrue result → program.now.n ≤ MAX_SIDE }
    ensures rows { IsTrue result → program.now.m ≤ MAX_SIDE }
{
    let (n, m) = (program.n, program.m);
    if n > 1000 || m > 1000 {
        return false;
    }
    program.a.len() == m * n && program.b.len() == m && program.c.len() == n
}

// The units that were spent, and the end.
fn end_text(
    alloc: Global,
    spent: u32,
    end: &Result<Solved<Frac128>, SolveStop>,
) -> Result<String, AllocError> {
    let mut text = format!(in alloc; "{spent}")?;
    print_end(&mut text, end)?;
    Ok(text)
}

// Solves a program, and prints the units spent and the end; nothing where it is none.
fn solution_text(
    alloc: Global,
    units: u32,
    program: &Program<Frac128>,
) -> Result<String, AllocError> {
    if !has_its_sizes(program) || !is_none_below_zero(&program.b) {
        return Ok(String::new(alloc));
    }
    let mut budget = Budget::new(units);
    let end = solve(alloc, program, &mut budget);
    end_text(alloc, budget.spent, &end)
}

// The units, the variables and the rows of a text.
fn sizes(text: &str) -> (u32, usize, usize) {
    let (units, rest) = pair(text);
    let (n, m) = pair(rest);
    (
        units.parse().unwrap_or(0),
        n.parse().unwrap_or(0),
        m.parse().unwrap_or(0),
    )
}

// How the program of a text ends: its sizes, coefficients, right sides and costs stand apart by
// bars.
fn end_of(alloc: Global, text: &str) -> Result<String, AllocError> {
    let (start, rest) = text.split_once('|').unwrap_or((text, ""));
    let (units, n, m) = sizes(start);
    let (a, rest) = rest.split_once('|').unwrap_or((rest, ""));
    let (b, c) = rest.split_once('|').unwrap_or((rest, ""));
    let a = numbers(alloc, a)?;
    let b = numbers(alloc, b)?;
    let c = numbers(alloc, c)?;
    solution_text(alloc, units, &Program { n, m, a, b, c })
}

// Whether the program of a case, behind its name, ends as the case says.
fn ends_so(alloc: Global, case: &str) -> Result<bool, AllocError> {
    let (input, end) = case.split_once("\n= ").unwrap_or((case, ""));
    let (_, program) = input.split_once('\n').unwrap_or((input, ""));
    Ok(end_of(alloc, program)?.as_str() == end.trim())
}

#[test]
fn each_case_ends_as_it_says(rt: HostRuntime) -> Result<(), Fail> {
    for case in CASES.split("== ").skip(1) {
        assert!(rt; ends_so(rt.alloc(), case)?, "{case}");
    }
    Ok(())
}

// The ways to choose the basic variables, of so many variables and rows as a program may have.
fn counted(variables: u32, rows: u32) -> Option<u64> {
    if variables > MAX_SIDE || rows > MAX_SIDE {
        return None;
    }
    choices(variables, rows)
}

fn are_counted() -> bool {
    counted(3, 5) == Some(56)
        && counted(6, 10) == Some(8008)
        && counted(0, 7) == Some(1)
        && counted(7, 0) == Some(1)
        && counted(33, 33) == Some(7219428434016265740)
        && counted(34, 33).is_none()
        && counted(MAX_SIDE, MAX_SIDE).is_none()
}

#[test]
fn the_ways_to_choose_are_counted(rt: HostRuntime) {
    assert!(rt; are_counted());
}

// The value of max x + y under x <= 1 and y <= 1, where the run ends with an optimum.
fn value_of_both(space: &mut Space<Frac128>, budget: &mut Budget) -> Option<Frac128>
    requires { (2 ≤ space.old.rows) × (2 ≤ space.old.columns) }
    ensures { (space.new.rows ≡ space.old.rows) × (space.new.columns ≡ space.old.columns) }
{
    let zero = Frac128::zero();
    let one = Frac128::one();
    space.begin(&[one, one]);
    space.row(&[one, zero], one);
    space.row(&[zero, one], one);
    let found = space.run(budget);
    if found == Ok(true) {
        Some(space.value())
    } else {
        None
    }
}

// Runs max x under a x <= b.
fn run_row(
    space: &mut Space<Frac128>,
    a: Frac128,
    b: Frac128,
    budget: &mut Budget,
) -> Result<bool, RunStop>
    requires room { (1 ≤ space.old.rows) × (1 ≤ space.old.columns) }
    requires right_side { IsNotBelowZero (fraction_of b) }
    ensures { (space.new.rows ≡ space.old.rows) × (space.new.columns ≡ space.old.columns) }
{
    space.begin(&[Frac128::one()]);
    space.row(&[a], b);
    space.run(budget)
}

// Whether a space serves three programs one after another, the last without a unit left.
fn serves_three(space: &mut Space<Frac128>) -> bool
    requires { (2 ≤ space.old.rows) × (2 ≤ space.old.columns) }
{
    let one = Frac128::one();
    let mut budget = Budget::new(3);
    let value = value_of_both(space, &mut budget);
    let first = value == Frac128::from_whole(2).ok() && budget.spent == 2;
    let rising = run_row(space, one.neg(), Frac128::zero(), &mut budget);
    let second = rising == Ok(false) && budget.spent == 3;
    let stopped = run_row(space, one, one, &mut budget);
    first && second && stopped == Err(RunStop::Budget)
}

#[test]
fn a_space_serves_one_program_after_another(rt: HostRuntime) -> Result<(), Fail> {
    let mut space: Space<Frac128> = Space::new(rt.alloc(), 2, 2)?;
    assert!(rt; serves_three(&mut space));
    Ok(())
}

// Whether the number may be a right side.
fn is_right_side(number: Frac64) -> bool
    ensures { result ≡ true → IsNotBelowZero (narrow_fraction number) }
{
    number.sign() >= 0
}

// Whether max a x under a x <= a ends at its optimum after a turn, over narrow numbers.
fn ends_after_a_turn(alloc: Global, whole: i128) -> Result<bool, AllocError> {
    let Ok(a) = Frac64::from_whole(whole) else {
        return Ok(false);
    };
    if !is_right_side(a) {
        return Ok(false);
    }
    let mut space: Space<Frac64> = Space::new(alloc, 1, 1)?;
    let mut budget = Budget::new(20000);
    space.begin(&[a]);
    space.row(&[a], a);
    let end = space.run(&mut budget);
    Ok(end == Ok(true) && budget.spent == 1)
}

// 2^31 - 1 is the bound of the rows of whole numbers behind narrow ones.
#[test]
fn narrow_rows_touch_their_bound(rt: HostRuntime) -> Result<(), Fail> {
    assert!(rt; ends_after_a_turn(rt.alloc(), 2147483647)?);
    assert!(rt;
        ends_after_a_turn(rt.alloc(), 2147483648)?,
        "beyond the bound"
    );
    Ok(())
}

// Runs max x under a x <= 1 and x <= b, over narrow numbers.
fn run_narrow(
    space: &mut Space<Frac64>,
    a: Frac64,
    b: Frac64,
    budget: &mut Budget,
) -> Result<bool, RunStop>
    requires room { (2 ≤ space.old.rows) × (1 ≤ space.old.columns) }
    requires right_side { IsNotBelowZero (narrow_fraction b) }
{
    let one = Frac64::one();
    space.begin(&[one]);
    space.row(&[a], one);
    space.row(&[one], b);
    space.run(budget)
}

// Whether max x under 2^62 x <= 1 and x <= 1 / (2^62 - 1) stops: the step from one ratio to the
// other leaves 63 bits.
fn stops_at_the_limit(alloc: Global) -> Result<bool, AllocError> {
    let Ok(great) = Frac64::from_whole(4611686018427387904) else {
        return Ok(false);
    };
    let Ok(part) = number::<Frac64>((1, 4611686018427387903)) else {
        return Ok(false);
    };
    if !is_right_side(part) {
        return Ok(false);
    }
    let mut space: Space<Frac64> = Space::new(alloc, 2, 1)?;
    let stopped = run_narrow(&mut space, great, part, &mut Budget::new(20000));
    let wide = Wide {
        operator: Operator::Add,
        left: (1, 4611686018427387903),
        right: (-1, 4611686018427387904),
    };
    Ok(stopped == Err(RunStop::Wide { unit: 1, wide }))
}

#[test]
fn narrow_numbers_stop_at_their_limit(rt: HostRuntime) -> Result<(), Fail> {
    assert!(rt; stops_at_the_limit(rt.alloc())?);
    Ok(())
}
