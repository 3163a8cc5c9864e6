//! The times of the operations of fractions of 64 and of 128 bits: nanoseconds per call, at
//! operands of several sizes.
use crate::operands;
use crate::timing::{OPERATIONS, nanos_per_call};
use exact_num::Exact;
use frac::{Frac64, Frac128};

/// Prints the times of both widths.
pub fn print_fractions(rt: &HostRuntime) -> anyhow::Result<()> {
    for (above, below) in [(20, 1), (40, 8), (8, 8), (20, 20), (60, 60)] {
        print_times::<Frac64>(rt, "64 bits", above, below)?;
    }
    for (above, below) in [(20, 1), (40, 8), (8, 8), (20, 20), (60, 60), (120, 120)] {
        print_times::<Frac128>(rt, "128 bits", above, below)?;
    }
    Ok(())
}

// The times of all operations at operands of one size.
fn print_times<N: Exact>(
    rt: &HostRuntime,
    width: &str,
    above: u32,
    below: u32,
) -> anyhow::Result<()> {
    let left = operands::fractions::<N>(rt.alloc(), above, below, 1)?;
    let right = operands::fractions::<N>(rt.alloc(), above, below, 2)?;
    for operation in OPERATIONS {
        let nanos = nanos_per_call(rt, operation, left.as_slice(), right.as_slice())?;
        println!(rt; "{width}, {above} over {below}, {operation:?}: {nanos} ns")?;
    }
    Ok(())
}
