// A place in a line, from which it is read on.
ghost use Rattle.std.specs.Prelude.{◌≤◌, length};

use crate::stop::Unread;
use exact_num::Exact;
use frac::Frac128;

// The most digits that fit a number of 64 bits, whatever they are.
const SHORT: usize = 19;

// How many digits a text begins with.
fn digit_count(text: &[u8]) -> usize
    ensures { result ≤ length text.now }
{
    for (i, byte) in text.iter().enumerate() {
        if !byte.is_ascii_digit() {
            return i;
        }
    }
    text.len()
}

// The number of these digits; another one where they are more than fit.
fn short_value(digits: &[u8]) -> u64 {
    let mut value = 0u64;
    for digit in digits {
        value = value.wrapping_mul(10).wrapping_add(u64::from(*digit & 15));
    }
    value
}

// The same in 128 bits.
fn long_value(digits: &[u8]) -> u128 {
    let mut value = 0u128;
    for digit in digits {
        value = value.wrapping_mul(10).wrapping_add(u128::from(*digit & 15));
    }
    value
}

// What is left of a line. Numbers that are too large for their types are unlike any reply.
#[derive(Drop)]
pub(crate) struct Cursor<'a> {
    rest: &'a [u8],
}

impl<'a> Cursor<'a> {
    pub(crate) fn new(line: &'a [u8]) -> Self {
        Cursor { rest: line }
    }

    // How many bytes are left.
    pub(crate) fn left(&self) -> usize {
        self.rest.len()
    }

    // Whether this word stands here. It is then behind the place.
    pub(crate) fn has(&mut self, word: &[u8]) -> bool {
        if word.len() > self.rest.len() || &self.rest[..word.len()] != word {
            return false;
        }
        self.rest = &self.rest[word.len()..];
        true
    }

    // Steps over as many bytes as the word has. That they are the word is not looked at, since the
    // print of what is read has it.
    pub(crate) fn skip(&mut self, word: &[u8]) -> Result<(), Unread> {
        if word.len() > self.rest.len() {
            return Err(Unread::Unlike);
        }
        self.rest = &self.rest[word.len()..];
        Ok(())
    }

    // The digits that stand here, maybe none.
    fn digits(&mut self) -> &'a [u8] {
        let (digits, rest) = self.rest.split_at(digit_count(self.rest));
        self.rest = rest;
        digits
    }

    // A natural number.
    pub(crate) fn natural(&mut self) -> u64 {
        short_value(self.digits())
    }

    // A natural number of 32 bits.
    pub(crate) fn number(&mut self) -> Result<u32, Unread> {
        u32::try_from(self.natural()).map_err(|_| Unread::Unlike)
    }

    // A natural number of 8 bits.
    pub(crate) fn small(&mut self) -> Result<u8, Unread> {
        u8::try_from(self.natural()).map_err(|_| Unread::Unlike)
    }

    // A whole number of 64 bits.
    pub(crate) fn entry(&mut self) -> Result<i64, Unread> {
        let is_negative = self.has(b"-");
        match i64::try_from(self.natural()) {
            Ok(size) => Ok(if is_negative { -size } else { size }),
            Err(_) => Err(Unread::Unlike),
        }
    }

    // The size of a whole number.
    fn size(&mut self) -> Result<i128, Unread> {
        let digits = self.digits();
        if digits.len() <= SHORT {
            return Ok(i128::from(short_value(digits)));
        }
        i128::try_from(long_value(digits)).map_err(|_| Unread::Unlike)
    }

    // A whole number.
    fn whole(&mut self) -> Result<i128, Unread> {
        let is_negative = self.has(b"-");
        let size = self.size()?;
        Ok(if is_negative && size > 0 { -size } else { size })
    }

    // A whole number as a text.
    pub(crate) fn whole_text(&mut self) -> Result<i128, Unread> {
        self.skip(b"\"")?;
        let whole = self.whole()?;
        self.skip(b"\"")?;
        Ok(whole)
    }

    // A fraction as a text.
    pub(crate) fn fraction(&mut self) -> Result<Frac128, Unread> {
        self.skip(b"\"")?;
        let numerator = self.whole()?;
        if self.has(b"\"") {
            return Frac128::from_whole(numerator).map_err(|_| Unread::Unlike);
        }
        self.skip(b"/")?;
        let denominator = self.size()?;
        self.skip(b"\"")?;
        Frac128::from_parts(numerator, denominator).ok_or(Unread::Unlike)
    }
}
