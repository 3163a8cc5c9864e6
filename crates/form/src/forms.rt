//! The option of an order, as a whole vector.

ghost use Rattle.std.specs.Prelude.{ℕ, ◌≡◌, ◌≤◌, length, pos, slice_index_or};

/// An option on `count - 1` underlyings as a whole vector: `(-K, w)` is the call with strike K and
/// weights w, and `(K, -w)` the put. Equal vectors are the same option. Entries from `count` on are
/// 0.
#[derive(Clone, Copy, Debug, PartialEq, Eq)]
pub struct Form {
    pub count: u8,
    pub entries: [i64; 9],
    ghost count_in_range: { (2 ≤ count) × (count ≤ 9) },
    ghost nine_entries: { length entries ≡ 9 },
    ghost zero_past_count: { (i : ℕ) → count ≤ i →
        slice_index_or entries i (pos 0) ≡ pos 0 },
}
