//! What a joint solve finds.

use cert_check::{Cover, Measure};

/// The fills of a batch that earn the greatest surplus, and their certificate.
#[derive(Drop)]
pub struct Solution<N> {
    /// The fill of each order, from 0 to its quantity.
    pub fills: Vec<N>,
    /// The most that the house can owe, in ticks.
    pub liability: N,
    /// What is left to the house at every settlement, in ticks: the greatest that any fills leave.
    pub surplus: N,
    /// The proof that the liability is enough.
    pub cover: Cover,
    /// The measure whose bound is the surplus.
    pub measure: Measure,
}
