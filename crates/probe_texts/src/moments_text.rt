//! The trial of a key, or of two, the ranges of clocks with which runs end alike, and their lines.
ghost use Rattle.std.specs.Prelude.{◌≡◌, ◌++◌, IfOk, OnOk};
ghost use Rattle.std.specs.List.{flat_map};
ghost use Rattle.std.specs.String.{string_bytes};
ghost use Rattle.probe_texts.specs.MomentsText.{moments_line};

use board_types::clock::Clock;
use std::alloc::{AllocError, Global};

/// What a line `moments` asks: a key's code that is tried at each clock from the first to the last, in runs of `count`
/// clocks from the board's present one; alone, or with a second key.
#[derive(Clone, Copy, Debug, PartialEq, Eq)]
pub struct Trial {
    pub code: u8,
    pub first: u64,
    pub last: u64,
    pub count: u64,
    pub second: Option<Second>,
}

/// A trial's second key, which comes so many clocks after the first; if 0, at the same clock, after it.
#[derive(Clone, Copy, Debug, PartialEq, Eq)]
pub struct Second {
    pub code: u8,
    pub after: u64,
}

/// The stop at which some runs end, and the least and the greatest clock at which they do.
#[derive(Clone, Copy, Debug, PartialEq, Eq)]
pub struct Ends {
    pub number: usize,
    pub least: Clock,
    pub greatest: Clock,
}

/// Neighbouring clocks of a key with which runs end at one stop, or at none.
#[derive(Clone, Copy, Debug, PartialEq, Eq)]
pub struct Moments {
    pub first: u64,
    pub last: u64,
    pub ends: Option<Ends>,
}

/// Returns the answer to `moments`: a line for each range.
pub fn moments_text(alloc: Global, ranges: &[Moments]) -> Result<String, AllocError>
    ensures { IfOk result (λ text. string_bytes text ≡ flat_map moments_line ranges.now) }
{
    let mut text = String::new(alloc);
    for range in ranges {
        push_line(&mut text, range)?;
    }
    Ok(text)
}

/// Adds the line of a range: its first and last clock of the key, and the stop with the least and the greatest clock at
/// which its runs end, or `none`.
#[tactic(auto, unfolding(crate::specs::MomentsText::moments_line))]
fn push_line(text: &mut String, range: &Moments) -> Result<(), AllocError>
    ensures { OnOk result (string_bytes text.new ≡ string_bytes text.old ++ moments_line range.now) }
{
    let first = range.first;
    let last = range.last;
    match &range.ends {
        None => write!(text, "{first} {last} none\n"),
        Some(ends) => {
            let number = ends.number;
            let least = ends.least.get();
            let greatest = ends.greatest.get();
            write!(text, "{first} {last} stop {number} {least} {greatest}\n")
        }
    }
}
