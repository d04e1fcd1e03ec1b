//! The last clock of a run at which a condition held.
use crate::stops::read_stops;
use crate::words::Words;
use board::board::Board;
use std::alloc::Allocator;

/// Whether a run, to its end, answers this clock and the condition of this number as the last that held, or none if the
/// number is 0, for the step `last`. The words are the count of clocks, the clock, the number, and the conditions.
pub fn lasts_so<A: Allocator>(board: &mut Board<A>, mut words: Words) -> Option<bool> {
    let count = words.count()?;
    let clock = words.clock()?;
    let number = words.index()?;
    let end = board.clock().get().checked_add(count)?;
    let last = board.run_last(count, &read_stops(words)?).ok()?;
    let told = match last {
        Some((at, least)) => at == clock && least == number,
        None => number == 0,
    };
    Some(told && board.clock().get() == end)
}
