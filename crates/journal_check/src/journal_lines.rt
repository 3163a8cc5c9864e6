// The lines of a journal, one after another.
ghost use Rattle.std.specs.Prelude.{◌≡◌, ◌∷◌, ◌≤◌, ◌<◌, length};
ghost use Rattle.journal_check.specs.JournalLines.{lines_of};

use memchr::memchr;

// The first line, and what stands behind its line feed.
#[derive(Clone, Copy)]
pub(crate) struct Cut<'a> {
    pub(crate) line: &'a [u8],
    pub(crate) rest: &'a [u8],
}

// Cuts the first line off a journal that is not empty.
pub(crate) fn cut_line(bytes: &[u8]) -> Cut<'_>
    requires { 1 ≤ length bytes.now }
    ensures lines { lines_of bytes.now ≡ result.line.now ∷ lines_of result.rest.now }
    ensures shorter { length result.rest.now < length bytes.now }
{
    match memchr(b'\n', bytes) {
        Some(end) => Cut {
            line: &bytes[..end],
            rest: &bytes[end + 1..],
        },
        None => Cut {
            line: bytes,
            rest: &[],
        },
    }
}
