//! The translation of a source.
ghost use Rattle.std.specs.Prelude.{IfOk, IfErr};
ghost use Rattle.std.specs.List.Sorted.{IsSorted};
ghost use Rattle.masm_text.specs.UserLines.{AreSomeRefusals, IsFailure, IsInOrder};
ghost use Rattle.masm.specs.Layouts.{AreTranslation};

use crate::translation::Translation;
use crate::writing::write;
use masm_reading::reading::read;
use masm_text::place::Text;
use masm_text::refusal::{Failure, Refusal};
use std::alloc::{AllocError, Global};

/// Translates a source of MASM, TASM or emu8086, the first of the texts, into the dialect's lines. The other texts are
/// those that it may include. Each line of the translation and each note comes from one of the texts' lines, and so
/// does each refusal; there is at least one if lines are refused, and they are in the order of their lines. A text that
/// is wanted isn't among those that are given.
pub fn translate<'a>(alloc: Global, texts: &'a [Text<'a>]) -> Result<Translation, Failure>
    ensures ok { IfOk result (AreTranslation texts.now) }
    ensures err { IfErr result (IsFailure texts.now) }
    ensures order { IfErr result (IsInOrder ⟦<Refusal as Ord>⟧.cmp) }
{
    match written(alloc, texts) {
        Ok(translation) => Ok(translation),
        Err(Failure::Refused(refusals)) => Err(Failure::Refused(sorted(texts, refusals)?)),
        Err(Failure::Wanted(place, name)) => Err(Failure::Wanted(place, name)),
        Err(Failure::Memory) => Err(Failure::Memory),
    }
}

/// The translation, or its refusals as they are found.
fn written<'a>(alloc: Global, texts: &'a [Text<'a>]) -> Result<Translation, Failure>
    ensures ok { IfOk result (AreTranslation texts.now) }
    ensures err { IfErr result (IsFailure texts.now) }
{
    write(alloc, texts, read(alloc, texts)?)
}

/// The refusals in the order of their lines.
fn sorted(texts: &[Text], refusals: Vec<Refusal>) -> Result<Vec<Refusal>, AllocError>
    requires { AreSomeRefusals texts.now refusals.items }
    ensures lines { IfOk result (λ refusals. AreSomeRefusals texts.now refusals.items) }
    ensures order { IfOk result (λ refusals. IsSorted ⟦<Refusal as Ord>⟧.cmp refusals.items) }
{
    let mut refusals = refusals;
    refusals.sort()?;
    Ok(refusals)
}
