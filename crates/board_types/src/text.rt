//! The lines of a text, and the bytes before a mark.
ghost use Rattle.std.specs.Prelude.{ℕ, ◌≡◌, ◌<◌, ◌≤◌, List, [], ◌∷◌, ◌++◌, length, IfSome, IfNone};
ghost use Rattle.std.specs.Str.Lines.{strip_carriage_return};
ghost use Rattle.board_types.specs.TextLines.{size_before, text_lines};

/// The first line of the text, without what ends it, and the text after it; `None` if the text is at its end. A line
/// feed, with or without a carriage return just before it, ends a line, and so does the text's end. The assembler and
/// the loader of HEX files read their texts by it.
#[tactic(auto, using(crate::proofs::LineScanning::line_last, crate::proofs::LineScanning::line_ended))]
pub fn next_line(text: &[u8]) -> Option<(&[u8], &[u8])>
    ensures some { IfSome result (λ p. text_lines text.now ≡ p.0.now ∷ text_lines p.1.now) }
    ensures shorter { IfSome result (λ p. length p.1.now < length text.now) }
    // the line stands in the text, and what follows it is the text's end
    ensures parts { IfSome result (λ p. (ending : List ℕ) × (text.now ≡ p.0.now ++ (ending ++ p.1.now))) }
    ensures none { IfNone result (text_lines text.now ≡ []) }
{
    if text.is_empty() {
        return None;
    }
    let (line, rest) = text.split_at(length_before(b'\n', text));
    match rest {
        [] => Some((line, rest)),
        [_, after @ ..] => Some((without_return(line), after)),
    }
}

/// How many bytes of the text come before the first `delimiter`; all of them if it has none. `next_line` ends a line by
/// it, and the debugger a word of a command.
pub fn length_before(delimiter: u8, text: &[u8]) -> usize
    ensures size { result ≡ size_before delimiter text.now }
    ensures within { result ≤ length text.now }
{
    let mut length = 0;
    let mut rest = text;
    while let [first, after @ ..] = rest {
        if *first == delimiter {
            break;
        }
        length += 1;
        rest = after;
    }
    length
}

/// The line without a carriage return at its end, so that texts with CR LF are read as those with LF alone.
fn without_return(line: &[u8]) -> &[u8]
    ensures { result.now ≡ strip_carriage_return line.now }
{
    match line {
        [front @ .., b'\r'] => front,
        _ => line,
    }
}
