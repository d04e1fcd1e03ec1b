//! Data lines.
ghost use Rattle.std.specs.Prelude.{◌≡◌, ◌≤◌, ◌*◌, ◌^◌, true, false};
ghost use Rattle.std.specs.List.{list_all, list_any};
ghost use Rattle.assembler_syntax.specs.Weights.{is_item_within, is_piece_within, items_weight, piece_weight, pieces_weight};
ghost use Rattle.assembler_meaning.specs.Data.{are_items_known, counts_of, data_size, do_items_fit, does_piece_fit, fits_width, is_piece_known, piece_size, pieces_of, pieces_size, times_of, width_size, is_unknown, is_wrong_count};
ghost use Rattle.assembler_meaning.specs.Values.{AreSmall, term_limit};

use crate::constant::{constant_of, is_out_of_bounds};
use crate::symbol::Symbols;
use crate::value::value_of;
use assembler_syntax::statement::{DataWidth, Item, Piece};

/// The greatest count that DUP takes; the least is 1.
const COUNT_LIMIT: i64 = 65_535;

/// How many bytes a number in DB, DW or DD takes: 1, 2 or 4.
pub fn width_size(width: DataWidth) -> u64
    ensures { result ≡ width_size width }
{
    match width {
        DataWidth::Byte => 1,
        DataWidth::Word => 2,
        DataWidth::Double => 4,
    }
}

/// Whether some count before DUP is a constant that isn't from 1 to 65,535: then the data line is a bad one. A count
/// that isn't known as a constant is judged apart.
pub fn has_wrong_count(symbols: &Symbols, items: &[Item]) -> bool
    requires small { AreSmall symbols.now.entries }
    requires short { list_all (is_item_within term_limit) items.now ≡ true }
    ensures { result ≡ list_any (is_wrong_count symbols.now.entries) (counts_of items.now) }
{
    for item in items {
        if let Item::Repeated(count, _) = item
            && is_out_of_bounds(symbols, count, 1, COUNT_LIMIT)
        {
            return true;
        }
    }
    false
}

/// Whether some count before DUP isn't a constant by the names of earlier lines: then the data line is refused, since
/// the first pass must know how many bytes it places.
pub fn has_unknown_count(symbols: &Symbols, items: &[Item]) -> bool
    requires small { AreSmall symbols.now.entries }
    requires short { list_all (is_item_within term_limit) items.now ≡ true }
    ensures { result ≡ list_any (is_unknown symbols.now.entries) (counts_of items.now) }
{
    for item in items {
        if let Item::Repeated(count, _) = item
            && constant_of(symbols, count).is_none()
        {
            return true;
        }
    }
    false
}

/// How many times an item of a data line is placed: once, or as often as its count before DUP says. 0 if that is no
/// constant, or negative; the first pass refuses such a line.
pub fn item_count(symbols: &Symbols, item: &Item) -> u64
    requires small { AreSmall symbols.now.entries }
    requires short { is_item_within term_limit item.now ≡ true }
    ensures { result ≡ times_of symbols.now.entries item.now }
{
    match item {
        Item::Once(_) => 1,
        Item::Repeated(count, _) => match constant_of(symbols, count) {
            Some(number) => u64::try_from(number).unwrap_or(0),
            None => 0,
        },
    }
}

/// What an item of a data line places once: its piece, or the pieces that DUP repeats.
pub fn item_pieces(item: &Item) -> &[Piece]
    ensures { result.now ≡ pieces_of item.now }
{
    match item {
        Item::Once(piece) => std::slice::from_ref(piece),
        Item::Repeated(_, pieces) => pieces.as_slice(),
    }
}

/// How many bytes a data line places, with its repeats: by this the first pass moves the location on.
pub fn data_size(symbols: &Symbols, width: DataWidth, items: &[Item]) -> u64
    requires small { AreSmall symbols.now.entries }
    requires short { list_all (is_item_within term_limit) items.now ≡ true }
    requires counts { list_any (is_wrong_count symbols.now.entries) (counts_of items.now) ≡ false }
    requires light { items_weight items.now ≤ term_limit }
    ensures value { result ≡ data_size symbols.now.entries width items.now }
    ensures bound { result ≤ 2 ^ 18 * items_weight items.now }
{
    let mut size = 0;
    for item in items {
        size += item_count(symbols, item) * pieces_size(width, item_pieces(item));
    }
    size
}

/// How many bytes the pieces of an item have, placed once.
fn pieces_size(width: DataWidth, pieces: &[Piece]) -> u64
    requires light { pieces_weight pieces.now ≤ term_limit }
    ensures value { result ≡ pieces_size width pieces.now }
    ensures bound { result ≤ 4 * pieces_weight pieces.now }
{
    let mut size = 0;
    for piece in pieces {
        size += piece_size(width, piece);
    }
    size
}

/// How many bytes a piece of a data line has: a number as many as its width, a text one for each character.
fn piece_size(width: DataWidth, piece: &Piece) -> u64
    ensures value { result ≡ piece_size width piece.now }
    ensures bound { result ≤ 4 * piece_weight piece.now }
{
    match piece {
        Piece::Value(_) => width_size(width),
        Piece::Text(text) => text.as_slice().len() as u64,
    }
}

/// Whether each number of a data line at the offset `here` has a value, for the second pass: no name in it is
/// undefined, and SEG names labels only.
#[tactic(auto, unfolding(crate::specs::Data::are_items_known))]
pub fn are_items_known(symbols: &Symbols, here: u64, items: &[Item]) -> bool
    requires small { AreSmall symbols.now.entries }
    requires here { here ≤ 2 ^ 40 }
    requires short { list_all (is_item_within term_limit) items.now ≡ true }
    ensures { result ≡ are_items_known symbols.now.entries here items.now }
{
    for item in items {
        if !are_pieces_known(symbols, here, item_pieces(item)) {
            return false;
        }
    }
    true
}

/// Whether each number among the pieces of a data line's item has a value, in a line at the offset `here`.
fn are_pieces_known(symbols: &Symbols, here: u64, pieces: &[Piece]) -> bool
    requires small { AreSmall symbols.now.entries }
    requires here { here ≤ 2 ^ 40 }
    requires short { list_all (is_piece_within term_limit) pieces.now ≡ true }
    ensures { result ≡ list_all (is_piece_known symbols.now.entries here) pieces.now }
{
    for piece in pieces {
        if let Piece::Value(value) = piece
            && value_of(symbols, here, value).is_none()
        {
            return false;
        }
    }
    true
}

/// Whether each number of a data line at the offset `here` fits DB, DW or DD, for the second pass; one without a value
/// is passed over.
#[tactic(auto, unfolding(crate::specs::Data::do_items_fit))]
pub fn do_items_fit(symbols: &Symbols, here: u64, width: DataWidth, items: &[Item]) -> bool
    requires small { AreSmall symbols.now.entries }
    requires here { here ≤ 2 ^ 40 }
    requires short { list_all (is_item_within term_limit) items.now ≡ true }
    ensures { result ≡ do_items_fit symbols.now.entries here width items.now }
{
    for item in items {
        if !do_pieces_fit(symbols, here, width, item_pieces(item)) {
            return false;
        }
    }
    true
}

/// Whether each number among the pieces of a data line's item fits its width, in a line at the offset `here`; one
/// without a value is passed over.
fn do_pieces_fit(symbols: &Symbols, here: u64, width: DataWidth, pieces: &[Piece]) -> bool
    requires small { AreSmall symbols.now.entries }
    requires here { here ≤ 2 ^ 40 }
    requires short { list_all (is_piece_within term_limit) pieces.now ≡ true }
    ensures { result ≡ list_all (does_piece_fit symbols.now.entries here width) pieces.now }
{
    for piece in pieces {
        if let Piece::Value(value) = piece
            && let Some(number) = value_of(symbols, here, value)
            && !fits_width(width, number)
        {
            return false;
        }
    }
    true
}

/// Whether a number can be placed by DB, DW or DD: it fits the width as a signed or as an unsigned number.
fn fits_width(width: DataWidth, number: i64) -> bool
    ensures { result ≡ fits_width width number }
{
    match width {
        DataWidth::Byte => -128 <= number && number <= 255,
        DataWidth::Word => -32_768 <= number && number <= 65_535,
        DataWidth::Double => -2_147_483_648 <= number && number <= 4_294_967_295,
    }
}
