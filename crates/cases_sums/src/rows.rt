//! Tables of cases: a row for each, with what is asked before `=` and the answer behind it.

use crate::fraction_table::FRACTIONS;
use crate::fractions::{divisor_text, narrow_text, operation_text, order_text};
use crate::payoff_table::PAYOFFS;
use crate::payoffs::{bundle_text, payoff_text, premium_text, primitive_text};
use frac::{Frac64, Frac128};
use std::alloc::{AllocError, Global};
use std::test::Fail;

// The answer to what a row of this kind asks for, as text.
fn answer(alloc: Global, kind: &str, text: &str) -> Result<String, AllocError> {
    match kind {
        "operation" => operation_text::<Frac128>(alloc, text),
        "narrow operation" => operation_text::<Frac64>(alloc, text),
        "narrow number" => narrow_text(alloc, text),
        "order" => order_text(alloc, text),
        "divisor" => divisor_text(alloc, text),
        "payoff" => payoff_text(alloc, text),
        "bundle" => bundle_text(alloc, text),
        "primitive" => primitive_text(alloc, text),
        "premium" => premium_text(alloc, text),
        _ => String::from_str(alloc, "no kind"),
    }
}

// Whether a row is answered as it says.
fn is_answered(alloc: Global, kind: &str, row: &str) -> Result<bool, AllocError> {
    let (text, wanted) = row.split_once('=').unwrap_or((row, ""));
    Ok(answer(alloc, kind, text)?.as_str().trim() == wanted.trim())
}

// The first row of a table that is not answered as it says; nothing where each is.
fn first_fault(alloc: Global, table: &'static str) -> Result<&'static str, AllocError> {
    let (kind, rows) = table.split_once('\n').unwrap_or((table, ""));
    for row in rows.split_terminator('\n') {
        if !is_answered(alloc, kind, row)? {
            return Ok(row);
        }
    }
    Ok("")
}

#[test]
fn each_row_is_answered_as_it_says(rt: HostRuntime) -> Result<(), Fail> {
    for tables in [FRACTIONS, PAYOFFS] {
        for table in tables.split("== ").skip(1) {
            let fault = first_fault(rt.alloc(), table)?;
            assert!(rt; fault.is_empty(), "{fault}");
        }
    }
    Ok(())
}
