//! The laws of the words.
ghost use Rattle.dialect.specs.DialectLaws.{CaseDoesNotCount, KeywordsAreRead, OneMeaning, OperationsAreRead, PrefixesAreRead, RegistersAreRead};

/// States that the mnemonic that the disassembler writes for an operation means that operation when the assembler reads
/// it; the law that disassembled texts are read back rests on it.
pub fn operations_are_read()
    ensures { OperationsAreRead }
{}

/// States that a register's name, as the disassembler writes it, means that register when the assembler reads it; the
/// law that disassembled texts are read back rests on it.
pub fn registers_are_read()
    ensures { RegistersAreRead }
{}

/// States that the word that the disassembler writes for a prefix means that prefix, or its segment register, when the
/// assembler reads it; the law that disassembled texts are read back rests on it.
pub fn prefixes_are_read()
    ensures { PrefixesAreRead }
{}

/// States that a keyword's name, such as WORD in a disassembled text, means that keyword when the assembler reads it;
/// the law that disassembled texts are read back rests on it.
pub fn keywords_are_read()
    ensures { KeywordsAreRead }
{}

/// States that no two words of the dialect are spelled alike, so that each word of a source has one meaning; for
/// readers of the dialect's laws.
pub fn one_meaning()
    ensures { OneMeaning }
{}

/// States that words that differ only in upper and lower case mean the same to the assembler; for readers of the
/// dialect's laws.
pub fn case_does_not_count()
    ensures { CaseDoesNotCount }
{}
