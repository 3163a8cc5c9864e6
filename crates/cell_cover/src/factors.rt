//! The class of an option, and its factor.

ghost use Rattle.std.specs.Prelude.{◌≡◌, int_div, map, pos};
ghost use Rattle.exact_num.specs.Fraction.{whole};
ghost use Rattle.form.specs.Payoff.{option_of};
ghost use Rattle.frac.specs.Value.{fraction_of};
ghost use Rattle.cell_cover.specs.Classes.{class_of, divisor_of, is_turned};
ghost use Rattle.cell_cover.specs.Classes.{turned as turned_by};
ghost use Rattle.cell_cover.specs.Rows.{row_of};

use crate::vectors::Row;
use exact_num::{Exact, gcd_of_short};
use form::Form;
use frac::{Frac128, whole};

/// An option by its class: the class's entries, the size of the factor, and whether it is below 0.
#[derive(Clone, Copy)]
pub struct Divided {
    pub entries: Row,
    pub divisor: u64,
    pub turned: bool,
}

/// The option as a multiple of its class.
pub fn class_of(form: &Form) -> Divided
    ensures entries { row_of form.now.count result.entries ≡ map whole (class_of (option_of form.now)) }
    ensures divisor { result.divisor ≡ divisor_of (option_of form.now) }
    ensures turned { result.turned ≡ is_turned (option_of form.now) }
{
    let divisor = divisor_of(form);
    let turned = is_turned(form);
    let mut entries = [Frac128::zero(); 9];
    for i in 0..form.count as usize {
        entries[i] = class_entry(turned, divisor, form.entries[i]);
    }
    Divided {
        entries: Row { entries },
        divisor,
        turned,
    }
}

/// The greatest number that divides each entry.
fn divisor_of(form: &Form) -> u64
    ensures { result ≡ divisor_of (option_of form.now) }
{
    let mut divisor = 0;
    for i in 0..form.count as usize {
        divisor = gcd_of_short(divisor, form.entries[i].unsigned_abs());
    }
    divisor
}

/// Whether the first weight that is not 0 is below 0.
fn is_turned(form: &Form) -> bool
    ensures { result ≡ is_turned (option_of form.now) }
{
    for i in 1..form.count as usize {
        let weight = form.entries[i];
        if weight != 0 {
            return weight < 0;
        }
    }
    false
}

/// The entry without the divisor, its sign turned or not.
fn class_entry(turned: bool, divisor: u64, entry: i64) -> Frac128
    ensures { fraction_of result ≡ whole (turned_by turned (int_div entry (pos divisor))) }
{
    if divisor == 0 {
        return Frac128::zero();
    }
    let quotient = i128::from(entry) / i128::from(divisor);
    whole(if turned { -quotient } else { quotient })
}
