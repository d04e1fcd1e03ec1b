//! Sources that say the same.
ghost use Rattle.assembler_laws.specs.Sameness.{CaseDoesNotCount, RenamingDoesNotCount};

use assembler_syntax::laws;

/// Upper and lower case don't count to whoever writes a source: two sources give the same image if their lines' lexemes
/// differ only in case and only outside quotes, and neither is longer than one may be.
pub fn case_does_not_count()
    ensures { CaseDoesNotCount }
{
    laws::case_does_not_count();
}

/// Names don't count to whoever writes a source: two sources give the same image if their lines say the same but for
/// names, by a one-to-one renaming, and neither is longer than one may be.
pub fn renaming_does_not_count()
    ensures { RenamingDoesNotCount }
{}
