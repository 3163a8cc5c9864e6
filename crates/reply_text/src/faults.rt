//! What can be wrong with a line.
ghost use Rattle.std.specs.Prelude.{◌≡◌};
ghost use Rattle.reply_text.specs.declared.faults.LineFault.TheVariants.{Memory};

use std::alloc::AllocError;

/// The first test that a line fails.
#[derive(Clone, Copy, Debug, PartialEq, Eq)]
pub enum LineFault {
    /// The bytes have no reading as one JSON value.
    NotJson,
    /// The value is no reply.
    Shape,
    /// A text is no number.
    Number,
    /// A number is outside its range.
    Range,
    /// The line is not the print of what was read.
    Spelling,
    /// Memory is wanting.
    Memory,
}

impl From<AllocError> for LineFault {
    ghost from_gives = { λ _ e. e ≡ Memory };

    fn from(_: AllocError) -> Self {
        LineFault::Memory
    }
}
