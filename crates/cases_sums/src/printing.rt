//! Numbers and misfits as texts. The only error is want of memory.

use crate::reading::Parts;
use exact_num::{Operator, Wide};
use std::alloc::{AllocError, Global};

/// Appends a fraction, after a space.
pub fn print_number(text: &mut String, (above, below): Parts) -> Result<(), AllocError> {
    if below == 1 {
        write!(text, " {above}")
    } else {
        write!(text, " {above}/{below}")
    }
}

/// Appends an operation that did not fit, and its operands, each after a space.
pub fn print_wide(text: &mut String, wide: &Wide) -> Result<(), AllocError> {
    let name = name_of(wide.operator);
    write!(text, " {name}")?;
    print_number(text, wide.left)?;
    print_number(text, wide.right)
}

fn name_of(operator: Operator) -> &'static str {
    match operator {
        Operator::Add => "add",
        Operator::Mul => "mul",
        Operator::Div => "div",
        Operator::Whole => "whole",
    }
}

// Appends a value, or the operation that did not fit.
fn print_value(text: &mut String, value: Result<Parts, Wide>) -> Result<(), AllocError> {
    match value {
        Ok(parts) => print_number(text, parts),
        Err(wide) => print_wide(text, &wide),
    }
}

/// The text of a value, or of the operation that did not fit.
pub fn value_text(alloc: Global, value: Result<Parts, Wide>) -> Result<String, AllocError> {
    let mut text = String::new(alloc);
    print_value(&mut text, value)?;
    Ok(text)
}
