//! One kernel for rows and pivot rows of any word: a row times a number, less a multiple of the
//! pivot row.
ghost use Rattle.std.specs.Prelude.{◌≡◌, ℕ, ◌<◌, ◌≤◌, ◌≤ℤ◌, ◌+◌, ◌*◌, ◌-ℤ◌, ◌*ℤ◌, pos, unsigned_abs, length, map, slice_set};
ghost use Rattle.run_equivalence.specs.IntegerRows.{number_at};
ghost use Rattle.run_equivalence.specs.WholePivoting.{cross_difference};
ghost use Rattle.integer_tableau.specs.Rows.{nonzero_in};
ghost use Rattle.integer_tableau.specs.Within.{HasRoom};

use crate::word::{Widen, Word};

/// A pivot to be made: the row r that leaves, the column `c` that enters with the places where it is
/// not 0, and the limit of each step.
#[derive(Clone, Copy)]
pub struct PivotPlace<'a> {
    pub r: usize,
    pub c: usize,
    pub column_places: &'a [usize],
    pub limit: u128,
}

/// What is known of the pivot row of a pivot: the number `a` that was in the column that enters, a
/// size that none of the row's numbers is above, and the places where they are not 0.
#[derive(Clone, Copy)]
pub struct PivotRow<'a> {
    pub step: PivotPlace<'a>,
    pub a: u128,
    pub most: u128,
    pub places: &'a [usize],
}

/// A pivot row: its numbers, and what is known of them.
#[derive(Clone, Copy)]
pub struct Pivot<'a, P> {
    pub numbers: &'a [P],
    pub known: PivotRow<'a>,
}

/// What a row is multiplied by, and how many times the pivot row is taken from it.
#[derive(Clone, Copy)]
pub struct Factors<W: Word> {
    pub p: W,
    pub f: W,
}

/// Multiplies the numbers, where words hold each product. Mostly `p` is 1.
fn multiply<W: Word>(numbers: &mut [W], p: W)
    requires { (j : ℕ) → unsigned_abs (number_at (map W.value numbers.old) j)
        * unsigned_abs (W.value p) ≤ W.held }
    ensures { map W.value numbers.new ≡ map (λ z. z *ℤ W.value p) (map W.value numbers.old) }
{
    if p.is_one() {
        return;
    }
    for i in 0..numbers.len() {
        let number = numbers[i].product(p);
        numbers[i] = number;
    }
}

/// Takes `f` times the number of the pivot row from that of the row, both at place j.
fn subtract_at<W: Word, P: Widen<W>>(numbers: &mut [W], pivot: &[P], f: W, j: usize)
    requires inside { (j < length numbers.old) × (j < length pivot.now) }
    requires room { unsigned_abs (number_at (map W.value numbers.old) j)
        + unsigned_abs (W.value f) * unsigned_abs (number_at (map P.value pivot.now) j) ≤ W.held }
    ensures { map W.value numbers.new ≡ slice_set (map W.value numbers.old) j
        (number_at (map W.value numbers.old) j
        -ℤ (W.value f *ℤ number_at (map P.value pivot.now) j)) }
{
    let number = numbers[j].less_product(f, pivot[j].widen());
    numbers[j] = number;
}

/// Takes `f` times the numbers of the pivot row from these, where words hold each step. `places`
/// are those where the pivot row is not 0: the numbers elsewhere stay.
fn subtract_multiple<W: Word, P: Widen<W>>(numbers: &mut [W], pivot: &[P], places: &[usize], f: W)
    requires width { length numbers.old ≡ length pivot.now }
    requires places { places.now ≡ nonzero_in (map P.value pivot.now) }
    requires room { HasRoom W.held 1 (unsigned_abs (W.value f))
        (map W.value numbers.old) (map P.value pivot.now) }
    ensures { map W.value numbers.new
        ≡ cross_difference 1 (W.value f) (map W.value numbers.old) (map P.value pivot.now) }
{
    for place in places {
        subtract_at(numbers, pivot, f, *place);
    }
}

/// The numbers times `p`, less `f` times those of the pivot row, where words hold each step.
pub fn mix<W: Word, P: Widen<W>>(numbers: &mut [W], pivot: Pivot<P>, factors: Factors<W>)
    requires width { length numbers.old ≡ length pivot.numbers.now }
    requires places { pivot.known.places.now ≡ nonzero_in (map P.value pivot.numbers.now) }
    requires positive { pos 0 ≤ℤ W.value factors.p }
    requires room { HasRoom W.held (unsigned_abs (W.value factors.p))
        (unsigned_abs (W.value factors.f)) (map W.value numbers.old)
        (map P.value pivot.numbers.now) }
    ensures { map W.value numbers.new
        ≡ cross_difference (unsigned_abs (W.value factors.p)) (W.value factors.f)
        (map W.value numbers.old) (map P.value pivot.entry.numbers.now) }
{
    let Factors { p, f } = factors;
    multiply(numbers, p);
    subtract_multiple(numbers, pivot.numbers, pivot.known.places, f);
}
