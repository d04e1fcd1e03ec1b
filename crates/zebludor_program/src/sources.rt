//! Texts in the caller's memory, each with a name.
ghost use Rattle.std.specs.Prelude.{◌≡◌, IfOk};
ghost use Rattle.zebludor_program.specs.Translations.{AreTexts};
ghost use Rattle.zebludor_program.specs.declared.sources.NoTexts.TheVariants.{Memory};

use board_types::text::next_line;
use masm_text::place::Text;
use std::alloc::{AllocFailed, Global};

/// Why there are no texts.
#[derive(Clone, Copy, Debug, PartialEq, Eq)]
pub(crate) enum NoTexts {
    /// Names, lengths and bytes don't go together.
    Unfit,
    Memory,
}

impl<T: Drop> From<AllocFailed<T>> for NoTexts {
    ghost from_gives = { λ _ fault. fault ≡ Memory };

    /// Lets `?` answer a refused allocation as want of memory for the texts.
    fn from(_refused: AllocFailed<T>) -> NoTexts {
        NoTexts::Memory
    }
}

/// The texts that a caller hands over: a line of `names` and a length for each, and the bytes of one after the other.
/// Refused as `Unfit` if there are more of one than of another.
pub(crate) fn texts_in<'a>(
    alloc: Global,
    names: &'a [u8],
    lengths: &[u64],
    bytes: &'a [u8],
) -> Result<Vec<Text<'a>>, NoTexts>
    ensures { IfOk result (λ texts. AreTexts names.now lengths.now bytes.now texts.items) }
{
    let mut texts = Vec::new(alloc);
    let mut rest_names = names;
    let mut rest_lengths = lengths;
    let mut rest_bytes = bytes;
    while let Some((name, after)) = next_line(rest_names) {
        let [length, more @ ..] = rest_lengths else {
            return Err(NoTexts::Unfit);
        };
        if *length > rest_bytes.len() as u64 {
            return Err(NoTexts::Unfit);
        }
        let (its, later) = rest_bytes.split_at(*length as usize);
        texts.push(Text { name, bytes: its })?;
        rest_names = after;
        rest_lengths = more;
        rest_bytes = later;
    }
    if rest_lengths.is_empty() && rest_bytes.is_empty() {
        Ok(texts)
    } else {
        Err(NoTexts::Unfit)
    }
}
