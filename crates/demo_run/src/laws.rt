//! Laws of made texts and of tallies: each is the contract of a function that does nothing.

ghost use Rattle.demo_run.specs.Tally.{MarksAreCounted, RepliesAreCounted};
ghost use Rattle.demo_run.specs.Worked.{FirstDraw, OneOrder};

/// The generator's first step from 1, and the first draw.
pub fn first_draw()
    ensures { FirstDraw }
{}

/// The text of one order from seed 1.
pub fn one_order()
    ensures { OneOrder }
{}

/// A tally that counts one reply more is the tally of the list that this reply ends.
pub fn replies_are_counted()
    ensures { RepliesAreCounted }
{}

/// The batches are those with the mark optimal, with the mark wide and with the mark budget,
/// together.
pub fn marks_are_counted()
    ensures { MarksAreCounted }
{}
