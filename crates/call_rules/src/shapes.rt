//! The shapes of functions, compared.

ghost use Rattle.std.specs.Prelude.{◌≡◌, ◌↔◌, IsTrue, map};
ghost use Rattle.std.specs.Cmp.Lexicographic.{pointwise};
ghost use Rattle.std.specs.Str.{bytes_eq};

use thrift_value::{ByteText, FnShapes};

/// Whether texts are these lines, one by one. It recurses once a line.
fn are_lines(found: &[ByteText], lines: &[&[u8]]) -> bool
    ensures { result ≡ pointwise bytes_eq found.now (map (λ line. line.now) lines.now) }
{
    let [text, texts @ ..] = found else {
        return lines.is_empty();
    };
    let [line, more @ ..] = lines else {
        return false;
    };
    text.as_slice() == *line && are_lines(texts, more)
}

/// Whether the shapes are these lines.
pub fn are_shapes(shapes: &FnShapes, lines: &[&[u8]]) -> bool
    ensures { IsTrue result ↔ (shapes.now ≡ map (λ line. line.now) lines.now) }
{
    are_lines(shapes.as_slice(), lines)
}
