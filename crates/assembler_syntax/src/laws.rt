//! The laws of lines.
ghost use Rattle.assembler_syntax.specs.SyntaxLaws.{CaseDoesNotCount, EachLineIsRead, EachLineReadIsSpelled, EachSpellingIsRead, EachTextIsReadAsItSays, HoldsNoMore};

/// Lines say the same if their lexemes differ only in case and only outside quotes. The proof that such sources give
/// the same image rests on it.
pub fn case_does_not_count()
    ensures { CaseDoesNotCount }
{}

/// Each line of the dialect is read back from its spelling. The proof that the assembler reads the text of each decoded
/// instruction rests on it.
pub fn each_line_is_read()
    ensures { EachLineIsRead }
{}

/// The reader takes nothing that the grammar doesn't have: tokens that are read as a line are a spelling of what it
/// says.
pub fn each_line_read_is_spelled()
    ensures { EachLineReadIsSpelled }
{}

/// The reader takes all that the grammar has: a line is read from each of its spellings, and says what the spelling
/// does.
pub fn each_spelling_is_read()
    ensures { EachSpellingIsRead }
{}

/// The reader does just what the grammar says: a text is read as a line if and only if its characters may stand in a
/// line and its tokens spell it.
pub fn each_text_is_read_as_it_says()
    ensures { EachTextIsReadAsItSays }
{}

/// What a line holds is no longer than its text: no expression has more terms than the text has bytes, and no data line
/// more values and characters. So the limit on a source's length bounds the assembler's sums and sizes.
pub fn lines_hold_no_more()
    ensures { HoldsNoMore }
{}
