//! The words of the dialect, and what each of them means.
ghost use Rattle.std.specs.Prelude.{◌≡◌, find, is_some, map};
ghost use Rattle.dialect.specs.Words.{entry_of, is_reserved, meaning_of, spells, words};

use crate::keyword::Keyword;
use crate::mnemonic::Mnemonic;
use crate::register::Register;
use isa::form::{Prefix, Repeat};
use isa::operation::{
    Adjust, Arithmetic, Control, JumpCondition, Looping, Operation, Processor, Product, Shift,
    Strings, Transfer, Unary,
};
use isa::register::{ByteRegister, SegmentRegister, WordRegister};

/// What a word of the dialect means.
#[derive(Clone, Copy)]
pub enum Meaning {
    Mnemonic(Mnemonic),
    Register(Register),
    /// LOCK or a repeat. An override is none: it is written as a segment register and a colon.
    Prefix(Prefix),
    Keyword(Keyword),
}

/// A word in upper case, and what it means.
#[derive(Clone, Copy)]
struct Entry {
    word: &'static [u8],
    meaning: Meaning,
}

/// An entry of `WORDS`.
macro_rules! word {
    ($word:literal, Mnemonic::$mnemonic:ident) => {
        word!(@ $word, Meaning::Mnemonic(Mnemonic::$mnemonic))
    };
    ($word:literal, ByteRegister::$register:ident) => {
        word!(@ $word, Meaning::Register(Register::Byte(ByteRegister::$register)))
    };
    ($word:literal, WordRegister::$register:ident) => {
        word!(@ $word, Meaning::Register(Register::Word(WordRegister::$register)))
    };
    ($word:literal, SegmentRegister::$register:ident) => {
        word!(@ $word, Meaning::Register(Register::Segment(SegmentRegister::$register)))
    };
    ($word:literal, Prefix::Lock) => {
        word!(@ $word, Meaning::Prefix(Prefix::Lock))
    };
    ($word:literal, Repeat::$repeat:ident) => {
        word!(@ $word, Meaning::Prefix(Prefix::Repeat(Repeat::$repeat)))
    };
    ($word:literal, Keyword::$keyword:ident) => {
        word!(@ $word, Meaning::Keyword(Keyword::$keyword))
    };
    ($word:literal, JumpCondition::$condition:ident) => {
        word!(@ $word, Meaning::Mnemonic(Mnemonic::Plain(Operation::Jump(JumpCondition::$condition))))
    };
    ($word:literal, $group:ident::$operation:ident) => {
        word!(@ $word, Meaning::Mnemonic(Mnemonic::Plain(Operation::$group($group::$operation))))
    };
    (@ $word:literal, $meaning:expr) => {
        Entry { word: $word, meaning: $meaning }
    };
}

static WORDS: [Entry; 152] = [
    word!(b"ADD", Arithmetic::Add),
    word!(b"OR", Arithmetic::Or),
    word!(b"ADC", Arithmetic::Adc),
    word!(b"SBB", Arithmetic::Sbb),
    word!(b"AND", Arithmetic::And),
    word!(b"SUB", Arithmetic::Sub),
    word!(b"XOR", Arithmetic::Xor),
    word!(b"CMP", Arithmetic::Cmp),
    word!(b"TEST", Arithmetic::Test),
    word!(b"ROL", Shift::Rol),
    word!(b"ROR", Shift::Ror),
    word!(b"RCL", Shift::Rcl),
    word!(b"RCR", Shift::Rcr),
    word!(b"SHL", Shift::Shl),
    word!(b"SAL", Shift::Shl),
    word!(b"SHR", Shift::Shr),
    word!(b"SAR", Shift::Sar),
    word!(b"MUL", Product::Mul),
    word!(b"IMUL", Product::Imul),
    word!(b"DIV", Product::Div),
    word!(b"IDIV", Product::Idiv),
    word!(b"INC", Unary::Inc),
    word!(b"DEC", Unary::Dec),
    word!(b"NOT", Unary::Not),
    word!(b"NEG", Unary::Neg),
    word!(b"JO", JumpCondition::Overflow),
    word!(b"JNO", JumpCondition::NotOverflow),
    word!(b"JB", JumpCondition::Below),
    word!(b"JC", JumpCondition::Below),
    word!(b"JNAE", JumpCondition::Below),
    word!(b"JNB", JumpCondition::NotBelow),
    word!(b"JNC", JumpCondition::NotBelow),
    word!(b"JAE", JumpCondition::NotBelow),
    word!(b"JZ", JumpCondition::Zero),
    word!(b"JE", JumpCondition::Zero),
    word!(b"JNZ", JumpCondition::NotZero),
    word!(b"JNE", JumpCondition::NotZero),
    word!(b"JBE", JumpCondition::BelowOrZero),
    word!(b"JNA", JumpCondition::BelowOrZero),
    word!(b"JA", JumpCondition::Above),
    word!(b"JNBE", JumpCondition::Above),
    word!(b"JS", JumpCondition::Sign),
    word!(b"JNS", JumpCondition::NotSign),
    word!(b"JP", JumpCondition::Parity),
    word!(b"JPE", JumpCondition::Parity),
    word!(b"JNP", JumpCondition::NotParity),
    word!(b"JPO", JumpCondition::NotParity),
    word!(b"JL", JumpCondition::Less),
    word!(b"JNGE", JumpCondition::Less),
    word!(b"JGE", JumpCondition::NotLess),
    word!(b"JNL", JumpCondition::NotLess),
    word!(b"JLE", JumpCondition::LessOrZero),
    word!(b"JNG", JumpCondition::LessOrZero),
    word!(b"JG", JumpCondition::Greater),
    word!(b"JNLE", JumpCondition::Greater),
    word!(b"LOOPNE", Looping::Loopne),
    word!(b"LOOPNZ", Looping::Loopne),
    word!(b"LOOPE", Looping::Loope),
    word!(b"LOOPZ", Looping::Loope),
    word!(b"LOOP", Looping::Loop),
    word!(b"JCXZ", Looping::Jcxz),
    word!(b"MOVSB", Strings::Movsb),
    word!(b"MOVSW", Strings::Movsw),
    word!(b"CMPSB", Strings::Cmpsb),
    word!(b"CMPSW", Strings::Cmpsw),
    word!(b"STOSB", Strings::Stosb),
    word!(b"STOSW", Strings::Stosw),
    word!(b"LODSB", Strings::Lodsb),
    word!(b"LODSW", Strings::Lodsw),
    word!(b"SCASB", Strings::Scasb),
    word!(b"SCASW", Strings::Scasw),
    word!(b"DAA", Adjust::Daa),
    word!(b"DAS", Adjust::Das),
    word!(b"AAA", Adjust::Aaa),
    word!(b"AAS", Adjust::Aas),
    word!(b"AAM", Adjust::Aam),
    word!(b"AAD", Adjust::Aad),
    word!(b"CBW", Adjust::Cbw),
    word!(b"CWD", Adjust::Cwd),
    word!(b"MOV", Transfer::Mov),
    word!(b"XCHG", Transfer::Xchg),
    word!(b"LEA", Transfer::Lea),
    word!(b"LES", Transfer::Les),
    word!(b"LDS", Transfer::Lds),
    word!(b"PUSH", Transfer::Push),
    word!(b"POP", Transfer::Pop),
    word!(b"PUSHF", Transfer::Pushf),
    word!(b"POPF", Transfer::Popf),
    word!(b"SAHF", Transfer::Sahf),
    word!(b"LAHF", Transfer::Lahf),
    word!(b"XLAT", Transfer::Xlat),
    word!(b"IN", Transfer::In),
    word!(b"OUT", Transfer::Out),
    word!(b"JMP", Mnemonic::Jmp),
    word!(b"CALL", Mnemonic::Call),
    word!(b"RET", Control::Ret),
    word!(b"RETF", Control::Retf),
    word!(b"INT3", Control::Int3),
    word!(b"INT", Control::Int),
    word!(b"INTO", Control::Into),
    word!(b"IRET", Control::Iret),
    word!(b"HLT", Processor::Hlt),
    word!(b"CMC", Processor::Cmc),
    word!(b"CLC", Processor::Clc),
    word!(b"STC", Processor::Stc),
    word!(b"CLI", Processor::Cli),
    word!(b"STI", Processor::Sti),
    word!(b"CLD", Processor::Cld),
    word!(b"STD", Processor::Std),
    word!(b"WAIT", Processor::Wait),
    word!(b"ESC", Processor::Esc),
    word!(b"NOP", Mnemonic::Nop),
    word!(b"AL", ByteRegister::Al),
    word!(b"CL", ByteRegister::Cl),
    word!(b"DL", ByteRegister::Dl),
    word!(b"BL", ByteRegister::Bl),
    word!(b"AH", ByteRegister::Ah),
    word!(b"CH", ByteRegister::Ch),
    word!(b"DH", ByteRegister::Dh),
    word!(b"BH", ByteRegister::Bh),
    word!(b"AX", WordRegister::Ax),
    word!(b"CX", WordRegister::Cx),
    word!(b"DX", WordRegister::Dx),
    word!(b"BX", WordRegister::Bx),
    word!(b"SP", WordRegister::Sp),
    word!(b"BP", WordRegister::Bp),
    word!(b"SI", WordRegister::Si),
    word!(b"DI", WordRegister::Di),
    word!(b"ES", SegmentRegister::Es),
    word!(b"CS", SegmentRegister::Cs),
    word!(b"SS", SegmentRegister::Ss),
    word!(b"DS", SegmentRegister::Ds),
    word!(b"LOCK", Prefix::Lock),
    word!(b"REPNE", Repeat::Repne),
    word!(b"REPNZ", Repeat::Repne),
    word!(b"REP", Repeat::Rep),
    word!(b"REPE", Repeat::Rep),
    word!(b"REPZ", Repeat::Rep),
    word!(b"SEGMENT", Keyword::Segment),
    word!(b"AT", Keyword::At),
    word!(b"ENDS", Keyword::Ends),
    word!(b"EQU", Keyword::Equ),
    word!(b"ORG", Keyword::Org),
    word!(b"DB", Keyword::Db),
    word!(b"DW", Keyword::Dw),
    word!(b"DD", Keyword::Dd),
    word!(b"DUP", Keyword::Dup),
    word!(b"SEG", Keyword::Seg),
    word!(b"BYTE", Keyword::Byte),
    word!(b"WORD", Keyword::Word),
    word!(b"FAR", Keyword::Far),
    word!(b"SHORT", Keyword::Short),
];

/// All words of the dialect, in which `meaning_of` looks a word up; in the order of their definition.
fn entries() -> &'static [Entry]
    ensures { map entry_of result.now ≡ words }
{
    &WORDS
}

/// What a word of a source, in upper or lower case, means to the assembler: a mnemonic, register, prefix or keyword.
/// `None` if it may be a symbol's name.
pub fn meaning_of(word: &[u8]) -> Option<Meaning>
    ensures { result ≡ meaning_of word.now }
{
    Some(first_of(entries(), word)?.meaning)
}

/// The first of some of the dialect's words that is spelled like `word`, in upper or lower case; `None` if none is.
fn first_of(entries: &[Entry], word: &[u8]) -> Option<Entry>
    ensures { result ≡ find (λ e. spells word.now e.word.now) entries.now }
{
    entries
        .iter()
        .copied()
        .find(|entry| spells(word, entry.word))
}

/// Whether the word is one of the dialect's, in upper or lower case, and so can't be a symbol's name.
pub fn is_reserved(word: &[u8]) -> bool
    ensures { result ≡ is_reserved word.now }
{
    meaning_of(word).is_some()
}

/// Whether `word`, in upper or lower case, is this word of the dialect, which is in upper case.
#[tactic(auto, unfolding(crate::specs::Words::spells))]
fn spells(word: &[u8], keyword: &[u8]) -> bool
    ensures { result ≡ spells word.now keyword.now }
{
    word.eq_ignore_ascii_case(keyword)
}
