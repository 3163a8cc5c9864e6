//! States: settlements at given prices, and rays along which prices grow.

ghost use Rattle.std.specs.Prelude.{ℕ, ◌<◌, ◌≡◌, ◌≤◌, ◌≤ℤ◌};
ghost use Rattle.std.specs.Prelude.{length, map, pos, slice_index_or, sum, take};
ghost use Rattle.form.specs.Vector.{positive_part};

/// The settlement `(t, s)` at the prices `s / t`, or the ray `s` where t is 0. No entry is below 0,
/// not all are 0, and entries from `count` on are 0.
#[derive(Clone, Copy, Debug, PartialEq, Eq)]
pub struct State {
    pub count: u8,
    pub entries: [i128; 9],
    ghost count_in_range: { (2 ≤ count) × (count ≤ 9) },
    ghost nine_entries: { length entries ≡ 9 },
    ghost zero_past_count: { (i : ℕ) → count ≤ i →
        slice_index_or entries i (pos 0) ≡ pos 0 },
    ghost not_below_zero: { (i : ℕ) → pos 0 ≤ℤ slice_index_or entries i (pos 0) },
    ghost not_all_zero: { 0 < sum (map positive_part (take count entries)) },
}
