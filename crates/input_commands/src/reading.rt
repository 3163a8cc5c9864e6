//! The lines of an input, read at their places.
ghost use Rattle.std.specs.Prelude.{◌≡◌, ◌≤◌, length, map, IfOk};
ghost use Rattle.std.specs.List.{All};
ghost use Rattle.command_text.specs.Lines.{IsPlaceIn, commands_in, line_at};
ghost use Rattle.command_text.specs.Within.{IsLineWithin};
ghost use Rattle.limits.specs.declared.TheConstants.{MAX_BYTES};

use command_text::{Line, RawLine, body_of, raw_lines};
use std::alloc::{AllocError, Global};

// The lines at these places of an input.
fn read_at(alloc: Global, bytes: &[u8], places: &[RawLine]) -> Result<Vec<Line>, AllocError>
    requires { All (IsPlaceIn bytes.now) places.now }
    ensures lines { IfOk result (λ v. v.items ≡ map (line_at bytes.now) places.now) }
    ensures within { IfOk result (λ v. All IsLineWithin v.items) }
{
    let mut lines = Vec::new(alloc);
    for place in places {
        let body = body_of(alloc, place.text(bytes))?;
        lines.push(Line {
            number: place.number,
            body,
        })?;
    }
    Ok(lines)
}

/// The lines of an input, those that are empty left out.
pub fn commands(alloc: Global, bytes: &[u8]) -> Result<Vec<Line>, AllocError>
    requires { length bytes.now ≤ MAX_BYTES }
    ensures lines { IfOk result (λ v. v.items ≡ commands_in bytes.now) }
    ensures within { IfOk result (λ v. All IsLineWithin v.items) }
{
    let places = raw_lines(alloc, bytes)?;
    read_at(alloc, bytes, &places)
}
