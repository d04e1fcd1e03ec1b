//! The text of a decoded instruction, given to the assembler.
ghost use Rattle.assembler_laws.specs.Fitting.{NumbersFit};
ghost use Rattle.assembler_laws.specs.NearTargets.{TextsGetNumbers};
ghost use Rattle.assembler_laws.specs.SaidTexts.{TextsAreRead};
ghost use Rattle.assembler_laws.specs.SameMeaning.{FormsMeanWhatIsAsked, TextsMeanTheSame};
ghost use Rattle.assembler_laws.specs.TextsBack.{TextsDecodeTheSame};
ghost use Rattle.assembler_laws.specs.TextsTaken.{TextsTakeAForm};

/// The assembler reads the text that the disassembler writes for each instruction of the encoding table: its prefixes
/// in their order, a mnemonic of its operation, and what is written for its operands. The proof that such texts decode
/// to the same instructions rests on it.
pub fn texts_are_read()
    ensures { TextsAreRead }
{
    dialect::laws::operations_are_read();
    dialect::laws::registers_are_read();
    dialect::laws::prefixes_are_read();
    dialect::laws::keywords_are_read();
    assembler_syntax::laws::each_line_is_read();
}

/// The form that is chosen for what a line asks has the operation that is asked. With the numbers that the operands
/// name, its operands are by value those asked, in whichever parts of its bytes they are. The proof that disassembled
/// texts mean the same rests on it.
pub fn forms_mean_what_is_asked()
    ensures { FormsMeanWhatIsAsked }
{}

/// The numbers of the form that is chosen for what a line asks are in range if those are that go into a byte: an
/// immediate byte, and a short jump's distance. The proof that disassembled texts get their numbers rests on it.
pub fn numbers_fit()
    ensures { NumbersFit }
{}

/// Some row of the encoding table takes what the disassembler's text of an instruction asks, whatever names are known:
/// the assembler doesn't refuse it as `BadForm`.
pub fn texts_take_a_form()
    ensures { TextsTakeAForm }
{}

/// Whichever form the disassembler's text of an instruction takes at its offset, and whatever names are known, its
/// numbers are in range there: the assembler doesn't refuse it as `OutOfRange`, if a short jump's target doesn't wrap.
pub fn texts_get_numbers()
    ensures { TextsGetNumbers }
{}

/// The disassembler's text of an instruction, given to the assembler at its offset, takes a form that means the same
/// with the numbers that it has there, whatever names are known: operation, prefixes in their order, and operands by
/// value. XCHG of AX and another register may have the two in the other order.
pub fn texts_mean_the_same()
    ensures { TextsMeanTheSame }
{}

/// A disassembled text that is assembled and decoded again means the same: in any memory that holds an accepted
/// source's image, if a line says at its offset what an instruction's text says there, an instruction is decoded there
/// that means the same, with as many bytes as the line has.
pub fn texts_decode_the_same()
    ensures { TextsDecodeTheSame }
{
    texts_are_read();
}
