//! What an instruction reaches in memory and at ports.
ghost use Rattle.std.specs.Prelude.{◌≡◌, ◌≤◌};
ghost use Rattle.execute_meaning.specs.AccessCounts.{byte_at, byte_elements_written, elements_read, elements_written, operands_read, operands_written, words_fetched, words_pushed};
ghost use Rattle.isa.specs.WordCounts.{pointer_words, word_at, word_at_place};
ghost use Rattle.forms.specs.Reached.{accesses_of, byte_elements_read, divides, is_ax, port_name, port_of};

use isa::form::{Instr, Place};
use isa::operation::{Arithmetic, Control, Operation, Product, Strings, Transfer};
use isa::row::Kind;

/// How many bytes in memory an instruction reads, and how many it writes.
#[derive(Clone, Copy, Debug, PartialEq, Eq)]
pub struct Accesses {
    pub read: u8,
    pub written: u8,
}

/// The port that an instruction reaches.
#[derive(Clone, Copy, Debug, PartialEq, Eq)]
pub enum PortName {
    /// The port with this number.
    Number(u16),
    /// The port that DX names.
    InDx,
}

/// An access to a port.
#[derive(Clone, Copy, Debug, PartialEq, Eq)]
pub struct PortAccess {
    /// Whether the port is read, and not written.
    pub is_read: bool,
    pub name: PortName,
    /// Whether a word is read or written, at this port and the next one.
    pub is_word: bool,
}

/// How many bytes in memory a step of an instruction reads and writes, or one element of a string instruction: if it
/// enters an interrupt that it may enter, or if it doesn't.
#[tactic(auto, unfolding(crate::specs::Reached::accesses_of))]
pub fn accesses_of(instr: &Instr, entered: bool) -> Accesses
    ensures { result ≡ accesses_of instr.now entered }
{
    let (op, place, kind) = (
        instr.form.row.operation(),
        instr.form.place,
        instr.form.row.first(),
    );
    let (first, second) = (
        word_at(kind, place),
        word_at(instr.form.row.second(), place),
    );
    let (low, high) = (
        byte_at(kind, place),
        byte_at(instr.form.row.second(), place),
    );
    let words_read = operands_read(op, first, second)
        + words_fetched(op, kind, entered)
        + elements_read(op);
    let words_written = operands_written(op, first, second)
        + words_pushed(op, entered)
        + elements_written(op);
    let (vector, pushes) = if divides(op) && entered {
        (4, 6)
    } else {
        (0, 0)
    };
    Accesses {
        read: 2 * words_read + operands_read(op, low, high) + byte_elements_read(op) + vector,
        written: 2 * words_written
            + (operands_written(op, low, high) + byte_elements_written(op))
            + pushes,
    }
}

/// 1 if what mod and r/m name stands in memory, 0 if it is a register.
fn at_place(place: Place) -> u8
    ensures value { result ≡ word_at_place place }
    ensures bound { result ≤ 1 }
{
    match place {
        Place::Register(_) => 0,
        _ => 1,
    }
}

/// 1 if an operand of this kind is a word in memory, else 0.
fn word_at(kind: Kind, place: Place) -> u8
    ensures value { result ≡ word_at kind place }
    ensures bound { result ≤ 1 }
{
    match kind {
        Kind::Rm16 => at_place(place),
        Kind::At16 => 1,
        _ => 0,
    }
}

/// 1 if an operand of this kind is a byte in memory, else 0.
fn byte_at(kind: Kind, place: Place) -> u8
    ensures value { result ≡ byte_at kind place }
    ensures bound { result ≤ 1 }
{
    match kind {
        Kind::Rm8 => at_place(place),
        Kind::At8 => 1,
        _ => 0,
    }
}

/// How many of its operands in memory an operation reads, if `first` and `second` are 1 for one that stands there.
fn operands_read(op: Operation, first: u8, second: u8) -> u8
    requires first { first ≤ 1 }
    requires second { second ≤ 1 }
    ensures value { result ≡ operands_read op first second }
    ensures bound { result ≤ 2 }
{
    match op {
        Operation::Arithmetic(_) | Operation::Product(_) | Operation::Transfer(Transfer::Xchg) => {
            first + second
        }
        Operation::Shift(_)
        | Operation::Unary(_)
        | Operation::Transfer(Transfer::Push)
        | Operation::Control(Control::Jmp | Control::Call) => first,
        Operation::Transfer(Transfer::Mov) => second,
        _ => 0,
    }
}

/// How many of its operands in memory an operation writes, if `first` and `second` are 1 for one that stands there.
fn operands_written(op: Operation, first: u8, second: u8) -> u8
    requires first { first ≤ 1 }
    requires second { second ≤ 1 }
    ensures value { result ≡ operands_written op first second }
    ensures bound { result ≤ 2 }
{
    match op {
        Operation::Arithmetic(Arithmetic::Cmp | Arithmetic::Test) => 0,
        Operation::Arithmetic(_)
        | Operation::Shift(_)
        | Operation::Unary(_)
        | Operation::Transfer(Transfer::Mov | Transfer::Pop) => first,
        Operation::Transfer(Transfer::Xchg) => first + second,
        _ => 0,
    }
}

/// The words that an operation reads besides its operands: from the stack, of a far pointer, and of a vector.
fn words_fetched(op: Operation, kind: Kind, entered: bool) -> u8
    ensures value { result ≡ words_fetched op kind entered }
    ensures bound { result ≤ 3 }
{
    match op {
        Operation::Transfer(Transfer::Les | Transfer::Lds) => 2,
        Operation::Transfer(Transfer::Pop | Transfer::Popf) => 1,
        Operation::Control(Control::JmpFar | Control::CallFar) => pointer_words(kind),
        Operation::Control(Control::Ret) => 1,
        Operation::Control(Control::Retf | Control::Int3 | Control::Int) => 2,
        Operation::Control(Control::Iret) => 3,
        Operation::Control(Control::Into) if entered => 2,
        _ => 0,
    }
}

/// The words of an operand that is a far pointer in memory: two.
fn pointer_words(kind: Kind) -> u8
    ensures value { result ≡ pointer_words kind }
    ensures bound { result ≤ 2 }
{
    match kind {
        Kind::Memory => 2,
        _ => 0,
    }
}

/// The words that an operation pushes.
fn words_pushed(op: Operation, entered: bool) -> u8
    ensures value { result ≡ words_pushed op entered }
    ensures bound { result ≤ 3 }
{
    match op {
        Operation::Transfer(Transfer::Push | Transfer::Pushf) => 1,
        Operation::Control(Control::Call) => 1,
        Operation::Control(Control::CallFar) => 2,
        Operation::Control(Control::Int3 | Control::Int) => 3,
        Operation::Control(Control::Into) if entered => 3,
        _ => 0,
    }
}

/// The words that an element of a string instruction reads.
fn elements_read(op: Operation) -> u8
    ensures value { result ≡ elements_read op }
    ensures bound { result ≤ 2 }
{
    match op {
        Operation::Strings(Strings::Movsw | Strings::Lodsw | Strings::Scasw) => 1,
        Operation::Strings(Strings::Cmpsw) => 2,
        _ => 0,
    }
}

/// The words that an element of a string instruction writes.
fn elements_written(op: Operation) -> u8
    ensures value { result ≡ elements_written op }
    ensures bound { result ≤ 1 }
{
    match op {
        Operation::Strings(Strings::Movsw | Strings::Stosw) => 1,
        _ => 0,
    }
}

/// The bytes that an element of a string instruction, or XLAT, reads.
fn byte_elements_read(op: Operation) -> u8
    ensures value { result ≡ byte_elements_read op }
    ensures bound { result ≤ 2 }
{
    match op {
        Operation::Strings(Strings::Movsb | Strings::Lodsb | Strings::Scasb)
        | Operation::Transfer(Transfer::Xlat) => 1,
        Operation::Strings(Strings::Cmpsb) => 2,
        _ => 0,
    }
}

/// The bytes that an element of a string instruction writes.
fn byte_elements_written(op: Operation) -> u8
    ensures value { result ≡ byte_elements_written op }
    ensures bound { result ≤ 1 }
{
    match op {
        Operation::Strings(Strings::Movsb | Strings::Stosb) => 1,
        _ => 0,
    }
}

/// Whether an operation divides, and so enters an interrupt if there is no quotient.
pub(crate) fn divides(op: Operation) -> bool
    ensures { result ≡ divides op }
{
    matches!(op, Operation::Product(Product::Div | Product::Idiv))
}

/// The port that an instruction reaches; `None` if it reaches none.
#[tactic(auto, unfolding(crate::specs::Reached::port_of))]
pub fn port_of(instr: &Instr) -> Option<PortAccess>
    ensures { result ≡ port_of instr.now }
{
    match instr.form.row.operation() {
        Operation::Transfer(Transfer::In) => Some(PortAccess {
            is_read: true,
            name: port_name(instr.form.row.second(), instr.values.number),
            is_word: is_ax(instr.form.row.first()),
        }),
        Operation::Transfer(Transfer::Out) => Some(PortAccess {
            is_read: false,
            name: port_name(instr.form.row.first(), instr.values.number),
            is_word: is_ax(instr.form.row.second()),
        }),
        _ => None,
    }
}

/// How an operand names a port: by its number, or as what DX holds.
fn port_name(kind: Kind, number: u16) -> PortName
    ensures { result ≡ port_name kind number }
{
    match kind {
        Kind::Dx => PortName::InDx,
        _ => PortName::Number(number),
    }
}

/// Whether an operand is AX, and so a word, and not AL.
fn is_ax(kind: Kind) -> bool
    ensures { result ≡ is_ax kind }
{
    matches!(kind, Kind::Ax)
}
