//! Signs, vectors of exact numbers, and classes with what is owed of them.

ghost use Rattle.std.specs.Prelude.{◌≡◌, length};

use frac::Frac128;

/// The sign of a class, or of what is added.
#[derive(Clone, Copy, Debug, PartialEq, Eq)]
pub enum Sign {
    Plus,
    Minus,
}

/// The entries of a vector, of which a market on n underlyings has n + 1.
#[derive(Clone, Copy)]
pub struct Row {
    pub entries: [Frac128; 9],
    ghost nine_entries: { length entries ≡ 9 },
}

/// A class: whole entries that no number above 1 divides, and its kink, which is how much of it is
/// owed.
#[derive(Clone, Copy)]
pub struct Class {
    pub entries: Row,
    pub kink: Frac128,
}

/// What is known of a class in a cell: its sign, or by what it is bounded.
#[derive(Clone, Copy)]
pub enum Knowledge {
    Signed(Sign),
    Bounded(Row),
}
