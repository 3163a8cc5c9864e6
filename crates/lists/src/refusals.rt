//! A law over the definition: the contract of a function that does nothing.

ghost use Rattle.std.specs.Prelude.{◌≡◌, ◌++◌, List, Bool};
ghost use Rattle.std.specs.Option.{option_or};
ghost use Rattle.lists.specs.Refusals.{first_of};

/// Of lists one behind another, the refusals in front are tried first.
pub fn refusals_in_front_come_first<R>()
    ensures { (front back : List (Bool × R)) →
        first_of (front ++ back) ≡ option_or (first_of front) (first_of back) }
{}
