//! Lines as they stand, before they are read as tokens: comments, words, arguments and parameters.
ghost use Rattle.std.specs.Prelude.{◌≡◌, ◌≤◌, ◌<◌, length, take, IfSome};

use crate::name::{Key, Name};
use crate::refusal::{Reason, Stop};
use crate::token::{after_blanks, begins_word, continues_word, text_length, word_length};
use std::alloc::{AllocError, Global};
use std::collections::BTreeMap;

/// The line without its comment, which begins with a semicolon outside quotes.
pub fn without_comment(line: &[u8]) -> &[u8]
    ensures { result.now ≡ take (length result.now) line.now }
{
    let mut rest = line;
    while let [first, after @ ..] = rest {
        if *first == b';' {
            return &line[..line.len() - rest.len()];
        }
        rest = after_character(*first, after);
    }
    line
}

/// What follows a character, or, if it is a quote, the text that it begins.
fn after_character(first: u8, after: &[u8]) -> &[u8]
    ensures { length result.now ≤ length after.now }
{
    let rest = match first {
        b'\'' | b'"' => &after[text_length(after, first)..],
        _ => return after,
    };
    match rest {
        [] => rest,
        [_, after @ ..] => after,
    }
}

/// The word at the front of a line, and what follows it; `None` if no word stands there.
pub fn split_word(line: &[u8]) -> Option<(Name, &[u8])>
    ensures { IfSome result (λ p. length p.1.now < length line.now) }
{
    let line = after_blanks(line);
    match line {
        [first, ..] if begins_word(*first) => {
            let (word, after) = line.split_at(word_length(line));
            Some((Name::of(word)?, after))
        }
        _ => None,
    }
}

/// The argument at the front of a list, and what follows the comma after it, if one does.
pub fn split_argument(list: &[u8]) -> (&[u8], Option<&[u8]>)
    ensures { IfSome result.1 (λ after. length after.now < length list.now) }
{
    let mut depth = 0u32;
    let mut rest = list;
    while let [first, after @ ..] = rest {
        match first {
            b',' if depth == 0 => return (&list[..list.len() - rest.len()], Some(after)),
            b'<' | b'(' => depth = depth.saturating_add(1),
            b'>' | b')' => depth = depth.saturating_sub(1),
            _ => {}
        }
        rest = after_character(*first, after);
    }
    (list, None)
}

/// The argument without blanks around it, and without angle brackets.
pub fn bare(argument: &[u8]) -> &[u8] {
    let mut argument = after_blanks(argument);
    while let [front @ .., b' ' | b'\t' | b'\r'] = argument {
        argument = front;
    }
    match argument {
        [b'<', inner @ .., b'>'] => inner,
        _ => argument,
    }
}

/// Names, as the parameters of a macro, and the texts that stand for them.
#[derive(Drop)]
pub struct Bindings {
    texts: BTreeMap<Key, Vec<u8>>,
}

impl Bindings {
    /// No names.
    pub fn new(alloc: Global) -> Bindings {
        Bindings {
            texts: BTreeMap::new(alloc),
        }
    }

    /// Whether there are no names.
    pub fn is_empty(&self) -> bool {
        self.texts.len() == 0
    }

    /// The text that stands for a name; `None` if none does.
    pub fn get(&self, name: Name) -> Option<&[u8]> {
        let text = self.texts.get(&name.key())?;
        Some(text.as_slice())
    }

    /// Has a text stand for a name, unless one does already.
    pub fn bind(&mut self, name: Name, text: Vec<u8>) -> Result<(), AllocError> {
        if self.get(name).is_none() {
            let _ = self.texts.insert(name.key(), text)?;
        }
        Ok(())
    }
}

/// How many characters may come of a line when its parameters are replaced, but for the last of them.
const LENGTH_LIMIT: usize = 4096;

/// A line of a macro's body with its parameters replaced; between quotes only those beside which `&` stands.
pub fn with_arguments(alloc: Global, line: &[u8], bindings: &Bindings) -> Result<Vec<u8>, Stop> {
    let mut made = Vec::new(alloc);
    let mut quote = None;
    let mut rest = line;
    while let [first, after @ ..] = rest {
        if let Some((text, later)) = bound(rest, bindings, quote.is_some()) {
            if made.len() > LENGTH_LIMIT {
                return Err(Stop::Refused(Reason::TooLong));
            }
            made.extend_from_slice(text)?;
            rest = later;
        } else if continues_word(*first) {
            let (word, later) = rest.split_at(word_length(rest));
            made.extend_from_slice(word)?;
            rest = later;
        } else {
            made.push(*first)?;
            quote = quote_after(quote, *first);
            rest = after;
        }
    }
    Ok(made)
}

/// The quote of the text that is open after a character.
fn quote_after(quote: Option<u8>, byte: u8) -> Option<u8> {
    match quote {
        Some(open) if open == byte => None,
        None if byte == b'\'' || byte == b'"' => Some(byte),
        _ => quote,
    }
}

/// The text of the parameter that stands at the front, perhaps between `&`, and what follows it. Within a text a
/// parameter has `&` beside it.
fn bound<'a, 'b>(
    line: &'a [u8],
    bindings: &'b Bindings,
    is_within: bool,
) -> Option<(&'b [u8], &'a [u8])>
    ensures { IfSome result (λ p. length p.1.now < length line.now) }
{
    let (word, has_mark) = match line {
        [b'&', word @ ..] => (word, true),
        _ => (line, false),
    };
    let [first, ..] = word else {
        return None;
    };
    if !continues_word(*first) {
        return None;
    }
    let (word, after) = word.split_at(word_length(word));
    let text = bindings.get(Name::of(word)?)?;
    match after {
        [b'&', after @ ..] => Some((text, after)),
        _ if is_within && !has_mark => None,
        _ => Some((text, after)),
    }
}
