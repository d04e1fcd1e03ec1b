//! Changes of a board, and how a line that asks for one is read.
ghost use Rattle.std.specs.Prelude.{◌≡◌, ◌≤◌, [], length, option_map, IfSome};
ghost use Rattle.debugger_meaning.specs.CommandWords.{words_of};
ghost use Rattle.probe_texts.specs.Wishes.{bytes_from, edit_in, HasPlaces, IsPossible, register_of, undo_in, wish_of, word_edit};

use arrayvec::ArrayVec;
use board_plain::change::Register;
use debugger_meaning::word::{hex_number, next_word};

/// How many addresses there are.
const ADDRESSES: u32 = 1 << 20;

/// What a line asks for that has to do with changes of the board.
#[derive(Drop)]
pub enum Wish {
    /// Begins a session about the board as it stands, with this change.
    Set(Edit),
    /// Goes back to the session before the last change.
    Undo,
}

/// What a line `set` changes.
#[derive(Drop)]
pub enum Edit {
    /// This register has this word.
    Register(Register, u16),
    /// The cells from this physical address on have these bytes.
    Bytes(u32, EditBytes),
}

/// The one to sixteen bytes that a line `set` names.
pub type EditBytes = ArrayVec<u8, 16>;

/// Reads a typed line `set REGISTER WORD`, `set ADDRESS BYTE ..` or `undo`; `None` if it is another line, which the
/// probe then answers.
#[tactic(auto, unfolding(crate::specs::Wishes::wish_of))]
pub fn read_wish(line: &str) -> Option<Wish>
    ensures value { result ≡ wish_of line.now }
    ensures possible { IfSome result IsPossible }
{
    let (name, rest) = next_word(line.as_bytes())?;
    if name == b"set".as_slice() {
        let edit = read_edit(rest)?;
        return Some(Wish::Set(edit));
    }
    if name == b"undo".as_slice() {
        return read_undo(rest);
    }
    None
}

/// Reads what follows `undo`: nothing.
fn read_undo(rest: &[u8]) -> Option<Wish>
    ensures value { result ≡ undo_in (words_of rest.now) }
    ensures possible { IfSome result IsPossible }
{
    match next_word(rest) {
        None => Some(Wish::Undo),
        Some(_) => None,
    }
}

/// Reads the words after `set`: a register and its word, or an address of at most five hexadecimal digits and the bytes
/// from it on, which all have addresses.
fn read_edit(words: &[u8]) -> Option<Edit>
    ensures value { result ≡ edit_in (words_of words.now) }
    ensures possible { IfSome result HasPlaces }
{
    let (place, rest) = next_word(words)?;
    if let Some(register) = read_register(place) {
        return read_word_for(register, rest);
    }
    let address = hex_number(5, place)?;
    let bytes = read_bytes(rest)?;
    if address + bytes.len() as u32 > ADDRESSES {
        return None;
    }
    Some(Edit::Bytes(address, bytes))
}

/// Reads the one word that a register gets, of at most four hexadecimal digits.
fn read_word_for(register: Register, words: &[u8]) -> Option<Edit>
    ensures value { result ≡ word_edit register (words_of words.now) }
    ensures possible { IfSome result HasPlaces }
{
    let (value, rest) = next_word(words)?;
    if next_word(rest).is_some() {
        return None;
    }
    let word = hex_number(4, value)?;
    Some(Edit::Register(register, word as u16))
}

/// Reads words as bytes, one to sixteen, each of at most two hexadecimal digits.
fn read_bytes(words: &[u8]) -> Option<EditBytes>
    ensures value { option_map (λ bytes. bytes.items) result ≡ bytes_from [] (words_of words.now) }
    ensures some { IfSome result (λ bytes. 1 ≤ length bytes.items) }
{
    let mut bytes = EditBytes::new();
    let mut rest = words;
    while let Some((word, after)) = next_word(rest) {
        let byte = hex_number(2, word)?;
        if bytes.is_full() {
            return None;
        }
        bytes.push(byte as u8);
        rest = after;
    }
    if bytes.is_empty() {
        return None;
    }
    Some(bytes)
}

/// Reads a register's name, as reports have it; `None` if it is none.
fn read_register(name: &[u8]) -> Option<Register>
    ensures { result ≡ register_of name.now }
{
    if name == b"AX".as_slice() {
        Some(Register::Ax)
    } else if name == b"BX".as_slice() {
        Some(Register::Bx)
    } else if name == b"CX".as_slice() {
        Some(Register::Cx)
    } else if name == b"DX".as_slice() {
        Some(Register::Dx)
    } else if name == b"SP".as_slice() {
        Some(Register::Sp)
    } else if name == b"BP".as_slice() {
        Some(Register::Bp)
    } else if name == b"SI".as_slice() {
        Some(Register::Si)
    } else if name == b"DI".as_slice() {
        Some(Register::Di)
    } else if name == b"CS".as_slice() {
        Some(Register::Cs)
    } else if name == b"DS".as_slice() {
        Some(Register::Ds)
    } else if name == b"ES".as_slice() {
        Some(Register::Es)
    } else if name == b"SS".as_slice() {
        Some(Register::Ss)
    } else if name == b"IP".as_slice() {
        Some(Register::Ip)
    } else if name == b"FL".as_slice() {
        Some(Register::Fl)
    } else {
        None
    }
}
