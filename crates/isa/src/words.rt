//! How many words of data an instruction reads and writes in memory.
ghost use Rattle.std.specs.Prelude.{◌≡◌, ◌≤◌};
ghost use Rattle.isa.specs.WordCounts.{arithmetic_words, control_words, data_words, element_words, pointer_words, transfer_words, whole_words, word_at, word_at_place, word_clocks, words_of};

use crate::form::{Instr, Place};
use crate::operation::{Arithmetic, Control, Operation, Strings, Transfer};
use crate::outcome::Outcome;
use crate::row::Kind;
use board_types::choice::ClockTable;

/// The words that an entry into an interrupt pushes and reads.
const ENTRY_WORDS: u16 = 5;

/// The clocks that a clock table adds to a step, or to the entry of an interrupt, for so many words in memory: 4 for
/// each by the 8088's table, none by the manual's.
pub fn word_clocks(table: ClockTable, words: u16) -> u16
    requires { words ≤ 10 }
    ensures value { result ≡ word_clocks table words }
    ensures bound { result ≤ 40 }
{
    match table {
        ClockTable::C1 => 0,
        ClockTable::C2 => 4 * words,
    }
}

impl Instr {
    /// How many words a step with this outcome reads and writes in memory, for each of which the 8088's table adds
    /// clocks.
    #[tactic(auto, unfolding(crate::specs::WordCounts::data_words))]
    pub fn data_words(&self, outcome: &Outcome) -> u16
        ensures value { result ≡ data_words self.now outcome.now }
        ensures bound { result ≤ 10 }
    {
        if self.is_repeated() && outcome.cx_zero {
            return 0;
        }
        self.whole_words(outcome.taken) + if outcome.fault { ENTRY_WORDS } else { 0 }
    }

    /// How many words in memory a step that completes the instruction reads and writes, or an iteration of its repeat;
    /// `taken` is whether INTO makes its interrupt.
    #[tactic(auto, unfolding(crate::specs::WordCounts::whole_words))]
    pub fn whole_words(&self, taken: bool) -> u16
        ensures value { result ≡ whole_words self.now taken }
        ensures bound { result ≤ 5 }
    {
        let row = self.form.row;
        let first = word_at(row.first, self.form.place);
        let second = word_at(row.second, self.form.place);
        words_of(row.operation, first, second, row.first, taken)
    }
}

/// 1 if the word operand that mod and r/m name stands in memory, 0 if it is a register.
fn word_at_place(place: Place) -> u16
    ensures value { result ≡ word_at_place place }
    ensures bound { result ≤ 1 }
{
    match place {
        Place::Register(_) => 0,
        _ => 1,
    }
}

/// 1 if an operand of this kind is a word in memory, else 0; a step reads or writes it.
fn word_at(kind: Kind, place: Place) -> u16
    ensures value { result ≡ word_at kind place }
    ensures bound { result ≤ 1 }
{
    match kind {
        Kind::Rm16 => word_at_place(place),
        Kind::At16 => 1,
        _ => 0,
    }
}

/// How many words in memory an operation reads and writes. `first` and `second` are 1 if that operand is a word in
/// memory, else 0.
fn words_of(operation: Operation, first: u16, second: u16, kind: Kind, taken: bool) -> u16
    requires first { first ≤ 1 }
    requires second { second ≤ 1 }
    ensures value { result ≡ words_of operation first second kind taken }
    ensures bound { result ≤ 5 }
{
    match operation {
        Operation::Arithmetic(operation) => arithmetic_words(operation, first, second),
        Operation::Shift(_) | Operation::Unary(_) => 2 * first,
        Operation::Product(_) => first + second,
        Operation::Strings(operation) => element_words(operation),
        Operation::Transfer(operation) => transfer_words(operation, first, second),
        Operation::Control(operation) => control_words(operation, first, kind, taken),
        Operation::Jump(_)
        | Operation::Looping(_)
        | Operation::Adjust(_)
        | Operation::Processor(_) => 0,
    }
}

/// The words in memory that arithmetic on two operands reads and writes: CMP and TEST only read the first operand, the
/// others write it, too.
fn arithmetic_words(operation: Arithmetic, first: u16, second: u16) -> u16
    requires first { first ≤ 1 }
    requires second { second ≤ 1 }
    ensures value { result ≡ arithmetic_words operation first second }
    ensures bound { result ≤ 3 }
{
    match operation {
        Arithmetic::Cmp | Arithmetic::Test => first + second,
        _ => 2 * first + second,
    }
}

/// The words in memory that a data transfer reads and writes, with that on the stack and the pointer of LES or LDS.
fn transfer_words(operation: Transfer, first: u16, second: u16) -> u16
    requires first { first ≤ 1 }
    requires second { second ≤ 1 }
    ensures value { result ≡ transfer_words operation first second }
    ensures bound { result ≤ 4 }
{
    match operation {
        Transfer::Mov => first + second,
        Transfer::Xchg => 2 * (first + second),
        Transfer::Les | Transfer::Lds => 2,
        Transfer::Push | Transfer::Pop => first + 1,
        Transfer::Pushf | Transfer::Popf => 1,
        _ => 0,
    }
}

/// 2 for a far jump or call whose target stands in memory as an offset and a segment, 0 if it stands in the
/// instruction.
fn pointer_words(kind: Kind) -> u16
    ensures value { result ≡ pointer_words kind }
    ensures bound { result ≤ 2 }
{
    match kind {
        Kind::Memory => 2,
        _ => 0,
    }
}

/// The words in memory that a jump, call, return or interrupt reads and writes, those on the stack and the interrupt
/// vector's with them.
fn control_words(operation: Control, first: u16, kind: Kind, taken: bool) -> u16
    requires { first ≤ 1 }
    ensures value { result ≡ control_words operation first kind taken }
    ensures bound { result ≤ 5 }
{
    match operation {
        Control::Jmp => first,
        Control::Call => first + 1,
        Control::Ret => 1,
        Control::JmpFar => pointer_words(kind),
        Control::CallFar => pointer_words(kind) + 2,
        Control::Retf => 2,
        Control::Int3 | Control::Int => ENTRY_WORDS,
        Control::Into => { if taken { ENTRY_WORDS } else { 0 } }
        Control::Iret => 3,
    }
}

/// The words in memory that a string instruction reads and writes in an iteration; none if it works on bytes.
fn element_words(operation: Strings) -> u16
    ensures value { result ≡ element_words operation }
    ensures bound { result ≤ 2 }
{
    match operation {
        Strings::Movsw | Strings::Cmpsw => 2,
        Strings::Stosw | Strings::Lodsw | Strings::Scasw => 1,
        _ => 0,
    }
}
