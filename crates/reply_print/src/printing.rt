//! Pieces that are added to a line, one behind another. The only error of each call is want of
//! memory. Keys are known where a piece is added, and with them how much each call copies, so these
//! calls go in line.
ghost use Rattle.std.specs.Prelude.{true, ◌≡◌, ◌++◌, ◌∷◌, [], OnOk};
ghost use Rattle.exact_num.specs.Fraction.{over};
ghost use Rattle.reply_print.specs.BatchPieces.{each, fraction, natural, whole_words};
ghost use Rattle.reply_print.specs.Numbers.{fraction_text};
ghost use Rattle.reply_print.specs.Piece.{Fields, Piece, Pieces, comma_after, field, fields_text, piece, piece_text, pieces_text, truth, truth_word, whole, words};

use exact_num::Exact;
use frac::Frac128;
use itoa::Buffer;
use std::alloc::AllocError;

/// What is added as a piece.
pub trait Printed {
    ghost piece: { Self → Piece };

    /// Adds the text of its piece.
    fn print(&self, line: &mut Vec<u8>) -> Result<(), AllocError>
        ensures { OnOk result (line.new.items ≡ line.old.items ++ piece_text (piece self.now)) };
}

/// Adds a text.
#[inline(always)]
pub fn append(line: &mut Vec<u8>, text: &str) -> Result<(), AllocError>
    ensures { OnOk result (line.new.items ≡ line.old.items ++ text.now) }
{
    line.extend_from_slice(text.as_bytes())
}

impl Printed for u64 {
    ghost piece = { natural };

    fn print(&self, line: &mut Vec<u8>) -> Result<(), AllocError> {
        append(line, Buffer::new().format(*self))
    }
}

impl Printed for i64 {
    ghost piece = { whole };

    fn print(&self, line: &mut Vec<u8>) -> Result<(), AllocError> {
        append(line, Buffer::new().format(*self))
    }
}

fn truth_text(value: bool) -> &'static str
    ensures { result.now ≡ truth_word value }
{
    if value { "true" } else { "false" }
}

impl Printed for bool {
    ghost piece = { truth };

    fn print(&self, line: &mut Vec<u8>) -> Result<(), AllocError> {
        append(line, truth_text(*self))
    }
}

impl Printed for i128 {
    ghost piece = { whole_words };

    fn print(&self, line: &mut Vec<u8>) -> Result<(), AllocError> {
        append(line, "\"")?;
        append(line, Buffer::new().format(*self))?;
        append(line, "\"")
    }
}

// Adds the text of a fraction of these parts.
pub(crate) fn append_parts(line: &mut Vec<u8>, above: i128, below: u128) -> Result<(), AllocError>
    ensures { OnOk result (line.new.items ≡ line.old.items ++ fraction_text (over above below)) }
{
    append(line, Buffer::new().format(above))?;
    if below == 1 {
        return Ok(());
    }
    append(line, "/")?;
    append(line, Buffer::new().format(below))
}

impl Printed for Frac128 {
    ghost piece = { fraction };

    fn print(&self, line: &mut Vec<u8>) -> Result<(), AllocError> {
        let (numerator, denominator) = self.parts();
        append(line, "\"")?;
        append_parts(line, numerator, denominator.unsigned_abs())?;
        append(line, "\"")
    }
}

// What stands before the key of a field, or before the first.
#[inline(always)]
fn opening(later: bool) -> &'static str
    ensures { result.now ≡ comma_after later ++ 34 ∷ [] }
{
    if later { ",\"" } else { "\"" }
}

/// Adds the key of a field, whose piece goes behind it.
#[inline(always)]
pub fn add_key(line: &mut Vec<u8>, later: bool, key: &str) -> Result<(), AllocError>
    ensures { OnOk result ((p : Piece) (fs : Fields)
        → line.new.items ++ (piece_text p ++ fields_text true fs)
        ≡ line.old.items ++ fields_text later (field key.now p fs)) }
{
    append(line, opening(later))?;
    append(line, key)?;
    append(line, "\":")
}

/// Adds a field.
#[inline(always)]
pub fn add_field<P: Printed>(
    line: &mut Vec<u8>,
    later: bool,
    key: &str,
    value: &P,
) -> Result<(), AllocError>
    ensures { OnOk result ((fs : Fields) → line.new.items ++ fields_text true fs
        ≡ line.old.items ++ fields_text later (field key.now (P.piece value.now) fs)) }
{
    add_key(line, later, key)?;
    value.print(line)
}

/// Adds a field of a natural number.
#[inline(always)]
pub fn add_number(line: &mut Vec<u8>, later: bool, key: &str, n: u64) -> Result<(), AllocError>
    ensures { OnOk result ((fs : Fields) → line.new.items ++ fields_text true fs
        ≡ line.old.items ++ fields_text later (field key.now (natural n) fs)) }
{
    add_field(line, later, key, &n)
}

// Adds a piece, and at once all that stands before it.
#[inline(always)]
pub(crate) fn add_behind<P: Printed>(
    line: &mut Vec<u8>,
    before: &str,
    value: &P,
) -> Result<(), AllocError>
    ensures { OnOk result (line.new.items
        ≡ line.old.items ++ (before.now ++ piece_text (P.piece value.now))) }
{
    append(line, before)?;
    value.print(line)
}

// Adds a whole number of any size, and at once all that stands before it, up to a quotation mark.
#[inline(always)]
pub(crate) fn add_whole(line: &mut Vec<u8>, before: &str, value: &i128) -> Result<(), AllocError>
    ensures { OnOk result (line.new.items
        ≡ line.old.items ++ (before.now ++ piece_text (whole value.now))) }
{
    append(line, before)?;
    append(line, Buffer::new().format(*value))
}

/// Adds a field of a plain text.
#[inline(always)]
pub fn add_words(line: &mut Vec<u8>, later: bool, key: &str, text: &str) -> Result<(), AllocError>
    ensures { OnOk result ((fs : Fields) → line.new.items ++ fields_text true fs
        ≡ line.old.items ++ fields_text later (field key.now (words text.now) fs)) }
{
    add_key(line, later, key)?;
    append(line, "\"")?;
    append(line, text)?;
    append(line, "\"")
}

// Adds an item of a list, behind a comma if it is a later one.
fn add_item<P: Printed>(line: &mut Vec<u8>, later: bool, item: &P) -> Result<(), AllocError>
    ensures { OnOk result ((ps : Pieces) → line.new.items ++ pieces_text true ps
        ≡ line.old.items ++ pieces_text later (piece (P.piece item.now) ps)) }
{
    append(line, comma(later))?;
    item.print(line)
}

// What stands before an item of a list.
pub(crate) fn comma(later: bool) -> &'static str
    ensures { result.now ≡ comma_after later }
{
    if later { "," } else { "" }
}

// Adds a list of items.
pub(crate) fn add_list<P: Printed>(line: &mut Vec<u8>, items: &[P]) -> Result<(), AllocError>
    ensures { OnOk result (line.new.items ≡ line.old.items ++ piece_text (each P.piece items.now)) }
{
    append(line, "[")?;
    let mut later = false;
    for item in items {
        add_item(line, later, item)?;
        later = true;
    }
    append(line, "]")
}

/// Adds a field of a list of items.
pub fn add_items<P: Printed>(
    line: &mut Vec<u8>,
    later: bool,
    key: &str,
    items: &[P],
) -> Result<(), AllocError>
    ensures { OnOk result ((fs : Fields) → line.new.items ++ fields_text true fs
        ≡ line.old.items ++ fields_text later (field key.now (each P.piece items.now) fs)) }
{
    add_key(line, later, key)?;
    add_list(line, items)
}
