//! Options of a bundle, each with how often it counts.

use crate::forms::Form;

/// A leg of a bundle: an option and how often it counts, from -1000 to 1000 and not 0. A bundle
/// that is bought buys a leg with a count above 0 and sells one with a count below 0.
#[derive(Clone, Copy, Debug, PartialEq, Eq)]
pub struct Leg {
    pub count: i16,
    pub form: Form,
}
