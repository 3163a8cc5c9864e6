//! The units that a run may spend.
ghost use Rattle.std.specs.Prelude.{◌≡◌, ◌+◌, ◌≤◌, if◌then◌else◌, nat_lt};

/// At most `limit` units, of which `spent` are spent.
#[derive(Clone, Copy, PartialEq, Eq, Debug)]
pub struct Budget {
    pub limit: u32,
    pub spent: u32,
    ghost within: { spent ≤ limit },
}

impl Budget {
    /// A budget of `limit` units, none of them spent.
    pub fn new(limit: u32) -> Budget
        ensures limit { result.limit ≡ limit }
        ensures spent { result.spent ≡ 0 }
    {
        Budget { limit, spent: 0 }
    }

    /// Spends one unit where one is left, and says whether it did.
    pub fn spend(&mut self) -> bool
        ensures answer { result ≡ nat_lt self.old.spent self.old.limit }
        ensures spent { self.new.spent ≡ (if result then self.old.spent + 1 else self.old.spent) }
        ensures limit { self.new.limit ≡ self.old.limit }
    {
        if self.spent < self.limit {
            self.spent += 1;
            true
        } else {
            false
        }
    }
}
