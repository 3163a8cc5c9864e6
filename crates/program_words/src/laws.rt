//! Laws of the words: each is the contract of a function that does nothing.

ghost use Rattle.program_words.specs.Worked.{FormsByHand, OthersByHand};

/// Each form, and a demo at its least and at its greatest numbers.
pub fn forms_by_hand()
    ensures { FormsByHand }
{}

/// Lists of words that have none of the forms.
pub fn others_by_hand()
    ensures { OthersByHand }
{}
