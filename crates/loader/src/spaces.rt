//! Spaces at a line's end.
ghost use Rattle.std.specs.Prelude.{◌≡◌};
ghost use Rattle.loader.specs.Lines.{without_spaces};

/// A line of a HEX text without the spaces at its end, which are ignored; if nothing is left, the line is blank.
pub(crate) fn without_spaces(line: &[u8]) -> &[u8]
    ensures { result.now ≡ without_spaces line.now }
{
    let mut rest = line;
    while let Some((last, front)) = rest.split_last() {
        if *last != b' ' {
            break;
        }
        rest = front;
    }
    rest
}
