//! Rows in an arena, by each call once.

use lists::RowArena;
use std::alloc::{AllocError, Global};
use std::test::Fail;

fn has_rows(rows: &RowArena<u64>, first: &[u64], second: &[u64]) -> bool {
    rows.len() == 2 && rows.row(0) == first && rows.row(1) == second
}

// Copies the second row over the first.
fn copy_back(rows: &mut RowArena<u64>) {
    if rows.len() == 2 {
        let (from, to) = rows.pair(1, 0);
        to.copy_from_slice(from);
    }
}

// Writes the second row anew.
fn write_anew(rows: &mut RowArena<u64>) {
    if rows.len() == 2 && rows.width() == 2 {
        rows.row_mut(1).copy_from_slice(&[7, 8]);
    }
}

// Whether copies and writes change their rows alone.
fn are_changed(rows: &mut RowArena<u64>) -> bool {
    copy_back(rows);
    let copied = has_rows(rows, &[4, 5], &[4, 5]);
    write_anew(rows);
    copied && has_rows(rows, &[4, 5], &[7, 8])
}

// Whether a row that is let go is spare.
fn is_let_go(rows: &mut RowArena<u64>) -> bool {
    if rows.len() == 2 {
        rows.release_from(1);
    }
    rows.len() == 1 && rows.spare() == 1
}

// Two rows, the second in room that was made for it.
fn two_rows(alloc: Global) -> Result<RowArena<u64>, AllocError> {
    let mut rows = RowArena::new(alloc, 2);
    rows.reserve(1)?;
    rows.append(&[1, 2]);
    rows.reserve(1)?;
    rows.append(&[4, 5]);
    Ok(rows)
}

#[test]
fn rows_are_kept(rt: HostRuntime) -> Result<(), Fail> {
    let mut rows = two_rows(rt.alloc())?;
    let kept = has_rows(&rows, &[1, 2], &[4, 5]);
    assert!(rt; kept && are_changed(&mut rows) && is_let_go(&mut rows));
    Ok(())
}
