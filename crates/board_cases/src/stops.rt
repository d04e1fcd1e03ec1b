//! Runs up to a stop.
ghost use Rattle.std.specs.Prelude.{All, IfSome};
ghost use Rattle.board_plain.specs.Stops.{HasAddress};

use crate::words::Words;
use board::board::Board;
use board_plain::stop::{Condition, Stops};
use std::alloc::Allocator;

/// Whether a run up to a stop ends at this clock, by the stop of this number, or at none if the number is 0, for the
/// step `until`. The words are the count of clocks, the clock, the number, and the conditions.
pub fn stops_so<A: Allocator>(board: &mut Board<A>, mut words: Words) -> Option<bool> {
    let count = words.count()?;
    let clock = words.clock()?;
    let number = words.index()?;
    let stopped = board.run_until(count, &read_stops(words)?).ok()?;
    let told = match stopped {
        Some(stop) => stop.number == number && stop.clock == clock,
        None => number == 0,
    };
    Some(told && board.clock() == clock)
}

/// The conditions of stops that the words of a step name, at most sixteen; `None` if one can't be read or there are
/// more than fit.
pub fn read_stops(mut words: Words) -> Option<Stops>
    ensures { IfSome result (λ stops. All HasAddress stops.items) }
{
    let mut stops = Stops::new();
    for _number in 0..16 {
        let Some(word) = words.word() else {
            return Some(stops);
        };
        let condition = read_condition(word, &mut words)?;
        if stops.is_full() {
            return None;
        }
        stops.push(condition);
    }
    Some(stops)
}

/// The condition of a stop that begins with this word of a step, read with the words after it; `None` if it can't be
/// read.
fn read_condition(word: &str, words: &mut Words) -> Option<Condition>
    ensures { IfSome result HasAddress }
{
    match word {
        "free" => Some(Condition::Free),
        "at" => Some(Condition::At(words.port()?, words.port()?)),
        "byte" => Some(Condition::Byte(words.address()?, words.byte()?)),
        "sound" => Some(Condition::Sound),
        "halted" => Some(Condition::Halted),
        _ => None,
    }
}
