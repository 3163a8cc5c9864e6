//! Fractions, each operation through the bound `Exact`: from the text of what is asked to that of
//! the answer.
ghost use Rattle.std.specs.Prelude.{◌<◌, ◌*◌, ◌^◌};
ghost use Rattle.std.specs.Int.{div_ceil};

use crate::printing::value_text;
use crate::reading::{Parts, number, pair, parts, quotient, whole};
use exact_num::{Exact, Operator, Wide};
use frac::{Frac64, Frac128, gcd, mul_div_ceil, mul_div_floor, widen};
use std::alloc::{AllocError, Global};
use std::cmp::Ordering;

#[derive(Clone, Copy)]
enum Operation {
    Add,
    Sub,
    Mul,
    Div,
}

fn operation_of(word: &str) -> Option<Operation> {
    match word {
        "add" => Some(Operation::Add),
        "sub" => Some(Operation::Sub),
        "mul" => Some(Operation::Mul),
        "div" => Some(Operation::Div),
        _ => None,
    }
}

// Two fractions.
fn operands(text: &str) -> (Parts, Parts) {
    let (left, right) = pair(text);
    (parts(left), parts(right))
}

fn result<N: Exact>(operation: Operation, x: N, y: N) -> Result<N, Wide> {
    match operation {
        Operation::Add => x.add(y),
        Operation::Sub => x.sub(y),
        Operation::Mul => x.mul(y),
        Operation::Div => quotient(x, y),
    }
}

fn value<N: Exact>(operation: Operation, left: Parts, right: Parts) -> Result<Parts, Wide> {
    let x = number::<N>(left)?;
    let y = number::<N>(right)?;
    Ok(result(operation, x, y)?.parts())
}

// What an operation that does not fit answers: a difference is the sum with the negated number.
fn refusal(operation: Operation, left: Parts, right: Parts) -> Wide {
    let (operator, right) = match operation {
        Operation::Add => (Operator::Add, right),
        Operation::Sub => (Operator::Add, (right.0.wrapping_neg(), right.1)),
        Operation::Mul => (Operator::Mul, right),
        Operation::Div => (Operator::Div, right),
    };
    Wide {
        operator,
        left,
        right,
    }
}

// The refusal of a whole number.
fn whole_refusal(number: i128) -> Wide {
    Wide {
        operator: Operator::Whole,
        left: (number, 1),
        right: (0, 1),
    }
}

// The text of a value, or `wide` where it is refused so.
fn text_of(alloc: Global, value: Result<Parts, Wide>, refusal: Wide) -> Result<String, AllocError> {
    if value == Err(refusal) {
        String::from_str(alloc, "wide")
    } else {
        value_text(alloc, value)
    }
}

/// The text of the value of an operation.
pub fn operation_text<N: Exact>(alloc: Global, text: &str) -> Result<String, AllocError> {
    let (word, rest) = pair(text);
    let (left, right) = operands(rest);
    let Some(operation) = operation_of(word) else {
        return String::from_str(alloc, "no operation");
    };
    let value = value::<N>(operation, left, right);
    text_of(alloc, value, refusal(operation, left, right))
}

/// The text of a whole number that is taken in 64 bits and widened.
pub fn narrow_text(alloc: Global, text: &str) -> Result<String, AllocError> {
    let number = whole(text.trim());
    let value = match Frac64::from_whole(number) {
        Ok(value) => Ok(widen(value).parts()),
        Err(wide) => Err(wide),
    };
    text_of(alloc, value, whole_refusal(number))
}

// How two fractions compare, and whether they are equal.
fn order(left: Parts, right: Parts) -> Result<(Ordering, bool), Wide> {
    let x = number::<Frac128>(left)?;
    let y = number::<Frac128>(right)?;
    Ok((x.cmp(&y), x == y))
}

fn order_word(order: Result<(Ordering, bool), Wide>) -> &'static str {
    match order {
        Ok((Ordering::Less, false)) => "less",
        Ok((Ordering::Equal, true)) => "equal",
        Ok((Ordering::Greater, false)) => "greater",
        _ => "no order",
    }
}

/// The order of two fractions, in a word.
pub fn order_text(alloc: Global, text: &str) -> Result<String, AllocError> {
    let (left, right) = operands(text);
    String::from_str(alloc, order_word(order(left, right)))
}

/// The text of the greatest common divisor of two numbers.
pub fn divisor_text(alloc: Global, text: &str) -> Result<String, AllocError> {
    let (a, b) = pair(text);
    let divisor = gcd(whole(a).unsigned_abs(), whole(b).unsigned_abs());
    format!(in alloc; "{divisor}")
}

// Whether numbers are at their limits as they must be, and negated, and told apart by their signs.
fn are_limits_kept() -> bool {
    let least = Frac128::from_whole(i128::MIN);
    let third = number::<Frac64>((-1, 3)).map(|value| widen(value).parts());
    least == Err(whole_refusal(i128::MIN))
        && third == Ok((-1, 3))
        && Frac128::one().neg().parts() == (-1, 1)
        && Frac128::zero().sign() == 0
}

#[test]
fn limits_are_kept(rt: HostRuntime) {
    assert!(rt; are_limits_kept());
}

// Whether n * h / d is this rounded down, and that rounded up.
fn is_share(n: u128, d: u128, h: u128, down: u128, up: u128) -> bool
    requires divisor { 0 < d }
    requires small { (d < 2 ^ 127) × (n < 2 ^ 127) × (h < 2 ^ 127) }
    requires share_fits { div_ceil (n * h) d < 2 ^ 127 }
{
    mul_div_floor(n, d, h) == down && mul_div_ceil(n, d, h) == up
}

fn are_small_shares() -> bool {
    let limit = i128::MAX as u128;
    is_share(2, 7, 6, 1, 2)
        && is_share(limit, limit, limit, limit, limit)
        && is_share(20916588, 13, 0, 0, 0)
        && is_share(1, 27121918706360824150078081, 35766184, 0, 1)
}

fn are_great_shares() -> bool {
    let n = 3394746841122696500925038;
    let d = 163443479907133649193291597906228439743;
    let less = is_share(n, d, 1, 0, 1);
    let n = 8701760095084138039891754;
    let down = 136855357837347410623069838;
    let long = is_share(n, 1864154436, 29318151686, down, down + 1);
    let n = 62197991169405796551822816171003;
    let d = 2420949416347811126078267830651;
    let h = 576316145898323182700398466799715475;
    let down = 14806466550402321247895530121525437711;
    less && long && is_share(n, d, h, down, down + 1)
}

#[test]
fn shares(rt: HostRuntime) {
    assert!(rt; are_small_shares());
    assert!(rt; are_great_shares());
}
