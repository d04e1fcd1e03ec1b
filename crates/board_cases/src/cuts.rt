//! Runs that are cut into shorter ones.
use crate::stops::read_stops;
use crate::trail::push_trail;
use crate::words::Words;
use board::board::Board;
use board_report::text::report_text;
use std::alloc::Global;

/// A stop that no case comes to.
const NEVER: Words<'static> = Words("at FFFF FFFF");

/// How a run is made.
#[derive(Clone, Copy)]
enum Way {
    /// By `run`.
    Plain,
    /// By `run_until`, with a stop that doesn't hold. Its first clock is a turn of its own, without a leap.
    PastStop,
}

/// Whether a run of `clocks` clocks comes to the same report and trail if copies cut it in two, at any clock, by `run`
/// and by `run_until`, for the step `cut`; `None` if a run is refused.
pub fn comes_out_cut(alloc: Global, board: &Board, clocks: u64) -> Option<bool> {
    let whole = shown_cut(alloc, board, Way::Plain, clocks, 0)?;
    are_cut_so(alloc, board, clocks, whole.as_str())
}

/// Whether runs of `clocks` clocks that are cut in two, at each clock, show this text, that of the uncut run.
fn are_cut_so(alloc: Global, board: &Board, clocks: u64, whole: &str) -> Option<bool> {
    for first in 0..=clocks {
        let rest = clocks.checked_sub(first)?;
        if !is_cut_so(alloc, board, first, rest, whole)? {
            return Some(false);
        }
    }
    Some(true)
}

/// Whether two runs, of `first` and `rest` clocks, show this text when made by `run`, and again when made by
/// `run_until`.
fn is_cut_so(alloc: Global, board: &Board, first: u64, rest: u64, whole: &str) -> Option<bool> {
    let cut = shown_cut(alloc, board, Way::Plain, first, rest)?;
    let stopped = shown_cut(alloc, board, Way::PastStop, first, rest)?;
    Some(cut.as_str() == whole && stopped.as_str() == whole)
}

/// Whether a copy that is run clock by clock shows at each clock what one run up to there shows, for the step `single`,
/// which judges leaps and blocks.
pub fn comes_out_single(alloc: Global, board: &Board, clocks: u64) -> Option<bool> {
    comes_out_beside(alloc, board, Way::Plain, clocks)
}

/// Whether a copy that makes each clock as a turn of its own, and never leaps, shows at each clock what one run up to
/// there shows, for the step `ticking`.
pub fn comes_out_ticking(alloc: Global, board: &Board, clocks: u64) -> Option<bool> {
    comes_out_beside(alloc, board, Way::PastStop, clocks)
}

/// Whether a copy of a board that makes its clocks one at a time, in this way, shows at each clock what one run up to
/// there shows; the board stays.
fn comes_out_beside(alloc: Global, board: &Board, way: Way, clocks: u64) -> Option<bool> {
    let mut single = board.copy().ok()?;
    let answer = go_on_alike(alloc, board, &mut single, way, clocks);
    drop(single);
    answer
}

/// Runs `single`, which stands where `board` does, clock by clock, and compares it at each clock with a copy of `board`
/// that runs up to there at once.
fn go_on_alike(
    alloc: Global,
    board: &Board,
    single: &mut Board,
    way: Way,
    clocks: u64,
) -> Option<bool> {
    for passed in 0..=clocks {
        if passed > 0 {
            run(single, way, 1)?;
        }
        if !comes_to(alloc, board, passed, single)? {
            return Some(false);
        }
    }
    Some(true)
}

/// Whether a copy of `board`, run at once for `clocks` clocks, stands as `other`, which came there in another way.
/// `board` itself isn't changed; `None` if it can't be copied or compared.
fn comes_to(alloc: Global, board: &Board, clocks: u64, other: &Board) -> Option<bool> {
    let mut later = board.copy().ok()?;
    let answer = is_like(alloc, &mut later, clocks, other);
    drop(later);
    answer
}

/// Runs a board `clocks` clocks and compares its memory, report and trail with another's.
fn is_like(alloc: Global, board: &mut Board, clocks: u64, other: &Board) -> Option<bool> {
    run(board, Way::Plain, clocks)?;
    Some(has_same_memory(board, other) && shows_the_same(alloc, board, other)?)
}

/// Whether two boards have the same first and last 64 bytes of each 4,096 of memory, a sample that is read at each
/// clock of a run.
fn has_same_memory(one: &Board, other: &Board) -> bool {
    for index in 0..256 * 64_u32 {
        let page = index / 64 * 4_096;
        let first = page + index % 64;
        let last = page + 4_095 - index % 64;
        if one.byte(first) != other.byte(first) || one.byte(last) != other.byte(last) {
            return false;
        }
    }
    true
}

/// Whether two boards have the same report and trail.
fn shows_the_same(alloc: Global, one: &Board, other: &Board) -> Option<bool> {
    let one = shown(alloc, one)?;
    let other = shown(alloc, other)?;
    Some(one.as_str() == other.as_str())
}

/// Whether runs of these clocks, one after another, come to the same report and trail as one run of their sum, for the
/// step `pieces`.
pub fn come_out_joined(alloc: Global, board: &Board, words: Words) -> Option<bool> {
    let whole = shown_cut(alloc, board, Way::Plain, sum_of(words)?, 0)?;
    let pieces = shown_in_pieces(alloc, board, words)?;
    Some(pieces.as_str() == whole.as_str())
}

/// The sum of the clocks that the words give, for the one run that is compared with the pieces; `None` if it is too
/// great.
fn sum_of(words: Words) -> Option<u64> {
    let mut sum = 0u64;
    for word in words.0.split_whitespace() {
        sum = sum.checked_add(word.parse::<u64>().ok()?)?;
    }
    Some(sum)
}

/// A board's report and trail after two runs of a copy, made in this way; the board stays.
fn shown_cut(alloc: Global, board: &Board, way: Way, first: u64, rest: u64) -> Option<String> {
    let mut later = board.copy().ok()?;
    let text = run_twice(alloc, &mut later, way, first, rest);
    drop(later);
    text
}

/// Runs a board `first` clocks and then `rest`, and gives its report and trail.
fn run_twice(alloc: Global, board: &mut Board, way: Way, first: u64, rest: u64) -> Option<String> {
    run(board, way, first)?;
    run(board, way, rest)?;
    shown(alloc, board)
}

/// A board's report and trail after runs of these clocks, made on a copy one after another; the board stays.
fn shown_in_pieces(alloc: Global, board: &Board, words: Words) -> Option<String> {
    let mut later = board.copy().ok()?;
    let text = run_pieces(alloc, &mut later, words);
    drop(later);
    text
}

/// Runs a board by these clocks one after another, and gives its report and trail.
fn run_pieces(alloc: Global, board: &mut Board, words: Words) -> Option<String> {
    for word in words.0.split_whitespace() {
        run(board, Way::Plain, word.parse::<u64>().ok()?)?;
    }
    shown(alloc, board)
}

/// Runs the board in this way; `None` if that is refused, or ends at a stop.
fn run(board: &mut Board, way: Way, clocks: u64) -> Option<()> {
    match way {
        Way::Plain => board.run(clocks).ok(),
        Way::PastStop => pass_the_stop(board, clocks),
    }
}

/// Runs the board by `run_until` with a stop that no case comes to; `None` if it is refused or does stop.
fn pass_the_stop(board: &mut Board, clocks: u64) -> Option<()> {
    let stops = read_stops(NEVER)?;
    let stopped = board.run_until(clocks, &stops).ok()?;
    stopped.is_none().then_some(())
}

/// A board's report and its trail, as one text by which runs are compared.
fn shown(alloc: Global, board: &Board) -> Option<String> {
    let mut text = report_text(alloc, board).ok()?;
    push_trail(alloc, &mut text, board)?;
    Some(text)
}
