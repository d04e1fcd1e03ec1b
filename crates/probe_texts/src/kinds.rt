//! The kinds of events that are listed, and how words name them.
ghost use Rattle.std.specs.Prelude.{◌≡◌, ◌==◌, ◌^◌, ◌<◌, ◌≤◌, [], length, option_map, position, IfSome};
ghost use Rattle.debugger_meaning.specs.CommandWords.{words_of};
ghost use Rattle.probe_texts.specs.Kinds.{kind_of, kind_with, kinds_from, plain_kind, range_of};

use arrayvec::ArrayVec;
use debugger_meaning::word::{hex_number, next_word};

/// A kind of events, which `events` lists, or at which a stop `when` is met.
#[derive(Clone, Copy, Debug, PartialEq, Eq, Default)]
pub enum Kind {
    /// Instructions that begin.
    #[default]
    Starts,
    /// Interrupts that are entered at a boundary.
    Entries,
    /// Bytes written to the addresses from the first to the second.
    Writes(u32, u32),
    /// Accesses to the ports from the first to the second.
    Ports(u16, u16),
    /// What becomes of keys' codes.
    Keys,
    /// Wires that take another level.
    Wires,
    /// New states of the processor.
    States,
}

/// The one to sixteen kinds that a line `events` or `when` names.
pub type Kinds = ArrayVec<Kind, 16>;

/// Reads the words of a line after `when`, or after `events` and its count, as the kinds that they name, one to
/// sixteen, each by a word; `None` if one names none.
pub fn read_kinds(line: &[u8]) -> Option<Kinds>
    ensures { option_map (λ kinds. kinds.items) result ≡ kinds_from [] (words_of line.now) }
{
    let mut kinds = Kinds::new();
    let mut rest = line;
    while let Some((word, after)) = next_word(rest) {
        let kind = kind_of(word)?;
        if kinds.is_full() {
            return None;
        }
        kinds.push(kind);
        rest = after;
    }
    if kinds.is_empty() {
        return None;
    }
    Some(kinds)
}

/// Reads a word as a kind of events: a name, or `writes` or `ports` with a range after `=`.
#[tactic(auto, unfolding(crate::specs::Kinds::kind_of))]
fn kind_of(word: &[u8]) -> Option<Kind>
    ensures { result ≡ kind_of word.now }
{
    match mark_place(word, b'=') {
        Some(place) => kind_with(&word[..place], &word[place + 1..]),
        None => plain_kind(word),
    }
}

/// Returns the index of a word's first `mark`: `=` parts a kind's name and its range, and a hyphen the first and the last
/// number of a range; `None` if it has none.
fn mark_place(word: &[u8], mark: u8) -> Option<usize>
    ensures value { result ≡ position (λ b. b == mark) word.now }
    ensures bound { IfSome result (λ at. at < length word.now) }
{
    word.iter().position(|byte| *byte == mark)
}

/// Reads a word without a range as a kind of events; `writes` and `ports` then mean all addresses and all ports.
#[tactic(auto, unfolding(crate::specs::Kinds::plain_kind))]
fn plain_kind(word: &[u8]) -> Option<Kind>
    ensures { result ≡ plain_kind word.now }
{
    if word == b"starts".as_slice() {
        Some(Kind::Starts)
    } else if word == b"entries".as_slice() {
        Some(Kind::Entries)
    } else if word == b"writes".as_slice() {
        Some(Kind::Writes(0, 0xFFFFF))
    } else if word == b"ports".as_slice() {
        Some(Kind::Ports(0, 0xFFFF))
    } else if word == b"keys".as_slice() {
        Some(Kind::Keys)
    } else if word == b"wires".as_slice() {
        Some(Kind::Wires)
    } else if word == b"states".as_slice() {
        Some(Kind::States)
    } else {
        None
    }
}

/// Reads a name and a range as a kind of events: writes to a range of addresses, or accesses to a range of ports.
#[tactic(auto, unfolding(crate::specs::Kinds::kind_with))]
fn kind_with(name: &[u8], range: &[u8]) -> Option<Kind>
    ensures { result ≡ kind_with name.now range.now }
{
    if name == b"writes".as_slice() {
        let (first, last) = range_of(5, range)?;
        Some(Kind::Writes(first, last))
    } else if name == b"ports".as_slice() {
        let (first, last) = range_of(4, range)?;
        Some(Kind::Ports(first as u16, last as u16))
    } else {
        None
    }
}

/// Reads a range of addresses or ports: two numbers of at most `most` hexadecimal digits, with a hyphen between them,
/// the second not less than the first.
#[tactic(auto, unfolding(crate::specs::Kinds::range_of))]
fn range_of(most: usize, word: &[u8]) -> Option<(u32, u32)>
    requires { most ≤ 5 }
    ensures value { result ≡ range_of most word.now }
    ensures bound { IfSome result (λ range. (range.0 < 16 ^ most) × (range.1 < 16 ^ most)) }
{
    let place = mark_place(word, b'-')?;
    let first = hex_number(most, &word[..place])?;
    let last = hex_number(most, &word[place + 1..])?;
    if last < first {
        return None;
    }
    Some((first, last))
}
