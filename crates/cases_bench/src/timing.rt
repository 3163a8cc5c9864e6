//! The time of an operation over all pairs of operands.
use crate::operands;
use exact_num::{Exact, gcd};
use std::cmp::Ordering;
use std::io;
use std::time::{Clock, Instant};

const ROUNDS: u64 = 200;

/// What is timed.
#[derive(Clone, Copy, Debug)]
pub enum Operation {
    Add,
    Mul,
    Div,
    Compare,
    Gcd,
    /// An entry of a table less a factor times the entry of the pivot row.
    Eliminate,
}

/// All of them, in the order in which they are printed.
pub const OPERATIONS: [Operation; 6] = [
    Operation::Add,
    Operation::Mul,
    Operation::Div,
    Operation::Compare,
    Operation::Gcd,
    Operation::Eliminate,
];

// Whether the operation fits, or another bit of its answer: so that no call is left out.
fn is_done<N: Exact>(operation: Operation, x: N, y: N, z: N) -> bool {
    match operation {
        Operation::Add => x.add(y).is_ok(),
        Operation::Mul => x.mul(y).is_ok(),
        Operation::Div => y.sign() != 0 && x.div(y).is_ok(),
        Operation::Compare => x.cmp(&y) == Ordering::Less,
        Operation::Gcd => {
            let (a, b) = x.parts();
            gcd(a.unsigned_abs(), b.unsigned_abs()) > 1
        }
        Operation::Eliminate => z.less_product(x, y).is_ok(),
    }
}

/// Nanoseconds per call over all pairs, the least of several rounds.
pub fn nanos_per_call<N: Exact>(
    clock: &impl Clock,
    operation: Operation,
    left: &[N],
    right: &[N],
) -> io::Result<u128> {
    let mut least = u128::MAX;
    for _ in 0..ROUNDS {
        let start = Instant::now(clock)?;
        let done = calls_done(operation, left, right);
        let nanos = start.elapsed(clock)?.as_nanos();
        if done <= left.len() {
            least = least.min(nanos);
        }
    }
    Ok(least / operands::COUNT as u128)
}

// How many pairs answer so: the count keeps the calls from being left out.
fn calls_done<N: Exact>(operation: Operation, left: &[N], right: &[N]) -> usize {
    let mut done: usize = 0;
    for (x, y) in left.iter().zip(right) {
        if is_done(operation, *x, *y, *x) {
            done = done.wrapping_add(1);
        }
    }
    done
}
