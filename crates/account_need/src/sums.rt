//! What is owed of each option.

use form::Form;

/// What the positions of an account owe of an option, in whole numbers of 2^-32; what is due to
/// them where it is below 0.
#[derive(Clone, Copy, Debug, PartialEq, Eq)]
pub struct FormSum {
    pub form: Form,
    pub sum: i128,
}
