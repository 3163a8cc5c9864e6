//! The words that the numbers of a row stand in.
ghost use Rattle.std.specs.Prelude.{◌≡◌, IfSome, ℕ, ℤ, ◌≤◌, ◌+◌, ◌*◌, ◌^◌, ◌-◌, ◌-ℤ◌, ◌*ℤ◌, pos, true, unsigned_abs};
ghost use Rattle.exact_num.specs.Fits.{size_fits};
ghost use Rattle.run_equivalence.specs.IntegerRows.{widest};
ghost use Rattle.integer_tableau.specs.Within.{kept};

/// What a signed number of 64 bits holds in either sign.
pub const WIDEST: u128 = i64::MAX as u128;

/// A signed number of 64 or of 128 bits.
pub trait Word: Copy {
    // the number that a word means
    ghost value: { Self → ℤ };

    // the size up to which words hold numbers of either sign
    ghost held: { ℕ };

    fn is_one(self) -> bool
        ensures { result ≡ true → value self ≡ pos 1 };

    /// The size as a word, which holds it.
    fn size(self) -> Self
        requires { unsigned_abs (value self) ≤ held }
        ensures { value result ≡ pos (unsigned_abs (value self)) };

    /// The product, which a word holds.
    fn product(self, other: Self) -> Self
        requires { unsigned_abs (value self) * unsigned_abs (value other) ≤ held }
        ensures { value result ≡ value self *ℤ value other };

    /// This number less `f` times `q`, where words hold each step.
    fn less_product(self, f: Self, q: Self) -> Self
        requires { unsigned_abs (value self)
            + unsigned_abs (value f) * unsigned_abs (value q) ≤ held }
        ensures { value result ≡ value self -ℤ (value f *ℤ value q) };
}

impl Word for i64 {
    ghost value = { λ z. z };

    ghost held = { widest };

    fn is_one(self) -> bool {
        self == 1
    }

    fn size(self) -> i64 {
        self.unsigned_abs() as i64
    }

    fn product(self, other: i64) -> i64 {
        self * other
    }

    fn less_product(self, f: i64, q: i64) -> i64 {
        let product = f.product(q);
        self - product
    }
}

impl Word for i128 {
    ghost value = { λ z. z };

    ghost held = { 2 ^ 127 - 1 };

    fn is_one(self) -> bool {
        self == 1
    }

    fn size(self) -> i128 {
        self.unsigned_abs() as i128
    }

    fn product(self, other: i128) -> i128 {
        self * other
    }

    fn less_product(self, f: i128, q: i128) -> i128 {
        let product = f.product(q);
        self - product
    }
}

/// A number that a word `W` holds as well.
pub trait Widen<W: Word>: Word {
    /// The same number.
    fn widen(self) -> W
        ensures { W.value result ≡ Self.value self };
}

impl Widen<i64> for i64 {
    fn widen(self) -> i64 {
        self
    }
}

impl Widen<i128> for i64 {
    fn widen(self) -> i128 {
        self as i128
    }
}

impl Widen<i128> for i128 {
    fn widen(self) -> i128 {
        self
    }
}

/// The number in 64 bits, where they hold it in either sign.
pub fn within(number: i128) -> Option<i64>
    ensures value { result ≡ kept (size_fits widest number) number }
    ensures within { IfSome result (λ z. (z ≡ number) × (unsigned_abs z ≤ widest)) }
{
    if number.unsigned_abs() <= WIDEST {
        Some(number as i64)
    } else {
        None
    }
}
