//! The words of a command line, in one text.
ghost use Rattle.std.specs.Prelude.{◌≡◌, map, IfOk, IsErrOf};
ghost use Rattle.board_types.specs.TextLines.{text_lines};
ghost use Rattle.zebludor_program.specs.Programs.{HasUnreadable};
ghost use Rattle.zebludor_program.specs.declared.words.NoWords.TheVariants.{Memory};

use board_types::text::next_line;
use std::alloc::{AllocFailed, Global};

/// Why a text gives no words.
#[derive(Clone, Copy, Debug, PartialEq, Eq)]
pub(crate) enum NoWords {
    /// One of its lines isn't UTF-8.
    Unreadable,
    Memory,
}

impl<T: Drop> From<AllocFailed<T>> for NoWords {
    ghost from_gives = { λ _ fault. fault ≡ Memory };

    /// Lets `?` answer a refused allocation as want of memory for the words.
    fn from(_refused: AllocFailed<T>) -> NoWords {
        NoWords::Memory
    }
}

/// The words that a caller hands to a program, each a line of the text. Refused as `Unreadable` if one of them isn't
/// UTF-8.
pub(crate) fn words_in<'a>(alloc: Global, text: &'a [u8]) -> Result<Vec<&'a str>, NoWords>
    ensures words { IfOk result (λ words. map (λ word. word.now) words.items ≡ text_lines text.now) }
    ensures unreadable { IsErrOf result NoWords.Unreadable → HasUnreadable (text_lines text.now) }
{
    let mut words = Vec::new(alloc);
    let mut rest = text;
    while let Some((line, after)) = next_line(rest) {
        let Ok(word) = std::str::from_utf8(line) else {
            return Err(NoWords::Unreadable);
        };
        words.push(word)?;
        rest = after;
    }
    Ok(words)
}
