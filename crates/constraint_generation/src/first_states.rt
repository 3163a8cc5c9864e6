//! The states that a run begins with.
ghost use Rattle.std.specs.Prelude.{◌≡◌, ◌+◌, ◌≤◌, ◌<◌, map, replicate, set, vec_capacity};
ghost use Rattle.std.specs.List.{All};
ghost use Rattle.form.specs.States.{vector_of};
ghost use Rattle.master_program.specs.Master.{zero_prices};
ghost use Rattle.master_program.specs.Rounds.{axis_rays};

use form::State;
use lists::push_within;

/// The state of so many entries whose entry at a place is 1, and the others 0.
fn unit_state(count: u8, place: usize) -> State
    requires count { (2 ≤ count) × (count ≤ 9) }
    requires place { place < count }
    ensures vector { vector_of result ≡ set (replicate count 0) place 1 }
    ensures count { result.count ≡ count }
{
    let mut entries = [0; 9];
    entries[place] = 1;
    State { count, entries }
}

/// The settlement at which the price of each underlying is 0.
pub(crate) fn zero_prices(underlyings: u8) -> State
    requires { (1 ≤ underlyings) × (underlyings ≤ 8) }
    ensures vector { vector_of result ≡ zero_prices underlyings }
    ensures count { result.count ≡ underlyings + 1 }
{
    unit_state(underlyings + 1, 0)
}

/// Writes the rays along which the price of one underlying grows, and the others are 0.
pub(crate) fn write_axis_rays(rays: &mut Vec<State>, underlyings: u8)
    requires some { (1 ≤ underlyings) × (underlyings ≤ 8) }
    requires room { underlyings ≤ vec_capacity rays.old }
    ensures rays { map vector_of rays.new.items ≡ axis_rays underlyings }
    ensures counts { All (λ ray. ray.count ≡ underlyings + 1) rays.new.items }
    ensures capacity { vec_capacity rays.old ≤ vec_capacity rays.new }
{
    rays.clear();
    for i in 0..underlyings {
        push_within(rays, unit_state(underlyings + 1, usize::from(i) + 1));
    }
}
