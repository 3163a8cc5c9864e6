//! Bundles from their legs.

ghost use Rattle.std.specs.Prelude.{◌≡◌, ◌+◌, [], ◌∷◌, IsTrue, pos};
ghost use Rattle.std.specs.List.{list_all};
ghost use Rattle.form.specs.BundleOf.{are_legs, is_counted};
ghost use Rattle.form.specs.Legs.{AreAlike, AreLegs, IsFiller};
ghost use Rattle.form.specs.Bundles.{IsOnCount, bundle_legs, is_on_count, legs_in};
ghost use Rattle.form.specs.Vector.{is_same_bundle};

use crate::bundles::Bundle;
use crate::forms::Form;
use crate::legs::Leg;
use crate::limits::{MAX_COUNT, MAX_LEGS};

impl Bundle {
    /// The bundle of one option that counts once. Takes no memory.
    pub fn one(form: Form) -> Bundle
        ensures { legs_in result ≡ record { count = pos 1; form = form } ∷ [] }
    {
        let mut legs = [filler(); 4];
        legs[0] = Leg { count: 1, form };
        Bundle { size: 1, legs }
    }

    /// The bundle of these 1 to 4 legs, with counts from -1000 to 1000 but not 0, and forms of
    /// equal counts. Takes no memory.
    pub fn of(legs: &[Leg]) -> Bundle
        requires legs { AreLegs legs.now }
        requires alike { AreAlike legs.now }
        ensures { legs_in result ≡ legs.now }
    {
        Bundle::from_legs(legs)
    }

    /// The same of legs whose forms may have different counts. Takes no memory.
    pub fn from_legs(legs: &[Leg]) -> Bundle
        requires { AreLegs legs.now }
        ensures { legs_in result ≡ legs.now }
    {
        let mut four = [filler(); 4];
        four[..legs.len()].copy_from_slice(legs);
        Bundle {
            size: legs.len() as u8,
            legs: four,
        }
    }

    /// The legs that count, one to four. Takes no memory.
    pub fn as_slice(&self) -> &[Leg]
        ensures { result.now ≡ legs_in self.now }
    {
        &self.legs[..self.size as usize]
    }

    /// Whether each leg is on so many underlyings: its form has one entry more. Takes no memory.
    pub fn is_on(&self, underlyings: u8) -> bool
        ensures decides { result ≡ is_on_count (underlyings + 1) self.now }
        ensures forms { IsTrue result → IsOnCount (underlyings + 1) self.now }
    {
        let entries = u16::from(underlyings) + 1;
        self.as_slice()
            .iter()
            .all(|leg| u16::from(leg.form.count) == entries)
    }
}

/// Whether these are the legs of a bundle: 1 to 4, with counts from -1000 to 1000 but not 0. Takes
/// no memory.
pub fn are_legs(legs: &[Leg]) -> bool
    ensures decides { result ≡ are_legs legs.now }
    ensures legs { IsTrue result → AreLegs legs.now }
{
    let (some, few) = (!legs.is_empty(), legs.len() <= MAX_LEGS as usize);
    some && few && are_counted(legs)
}

/// Whether each count is one that a leg may have.
fn are_counted(legs: &[Leg]) -> bool
    ensures { result ≡ list_all is_counted legs.now }
{
    legs.iter().all(|leg| leg.count != 0 && leg.count.unsigned_abs() <= MAX_COUNT)
}

/// What stands past the last leg of a bundle.
fn filler() -> Leg
    ensures { IsFiller result }
{
    Leg {
        count: 0,
        form: Form {
            count: 2,
            entries: [0; 9],
        },
    }
}

/// Whether two bundles have the same legs in the same order. Takes no memory.
pub fn is_same_bundle(a: &Bundle, b: &Bundle) -> bool
    ensures { result ≡ is_same_bundle (bundle_legs a.now) (bundle_legs b.now) }
{
    a == b
}
