//! Forms and states from their entries.
ghost use Rattle.std.specs.Prelude.{◌≡◌, int_le, map, nat_lt, pos};
ghost use Rattle.std.specs.List.{list_all, sum};
ghost use Rattle.form.specs.FormOf.{form_from};
ghost use Rattle.form.specs.StateOf.{state_from};
ghost use Rattle.form.specs.Vector.{positive_part};

use crate::forms::Form;
use crate::states::State;

impl Form {
    /// The option with these entries. None exactly where there are not 2 to 9. Takes no memory.
    pub fn from_entries(entries: &[i64]) -> Option<Form>
        ensures { result ≡ form_from entries.now }
    {
        if entries.len() < 2 || entries.len() > 9 {
            return None;
        }
        let mut nine = [0; 9];
        for (i, entry) in entries.iter().enumerate() {
            nine[i] = *entry;
        }
        Some(Form {
            count: entries.len() as u8,
            entries: nine,
        })
    }
}

impl State {
    /// The state with these entries. None exactly where there are not 2 to 9, one is below 0, or
    /// none is above. Takes no memory.
    pub fn from_entries(entries: &[i128]) -> Option<State>
        ensures { result ≡ state_from entries.now }
    {
        if entries.len() < 2 || entries.len() > 9 {
            return None;
        }
        if !are_from_zero(entries) || !is_any_above_zero(entries) {
            return None;
        }
        let mut nine = [0; 9];
        for (i, entry) in entries.iter().enumerate() {
            nine[i] = *entry;
        }
        Some(State {
            count: entries.len() as u8,
            entries: nine,
        })
    }
}

// Whether none is below 0.
fn are_from_zero(entries: &[i128]) -> bool
    ensures { result ≡ list_all (int_le (pos 0)) entries.now }
{
    entries.iter().all(|entry| 0 <= *entry)
}

// Whether none is above 0.
fn are_to_zero(entries: &[i128]) -> bool
    ensures { result ≡ list_all (λ z. int_le z (pos 0)) entries.now }
{
    entries.iter().all(|entry| *entry <= 0)
}

// Whether one is above 0.
#[tactic(auto, using(crate::proofs::MadeEntries::none_above))]
fn is_any_above_zero(entries: &[i128]) -> bool
    ensures { result ≡ nat_lt 0 (sum (map positive_part entries.now)) }
{
    !are_to_zero(entries)
}
