//! Levels of wires, and kinds of timers, as numbers.
ghost use Rattle.std.specs.Prelude.{◌≡◌, if◌then◌else◌};
ghost use Rattle.board_types.specs.LineLevel.{is_high};
ghost use Rattle.pit8253.specs.PitNumbers.{kind_of, line_of};

use board_types::choice::TimerKind;
use board_types::line::Line;

/// Reads the number by which a caller in C names a timer's kind: 0 is an 8253, and any other an 8254.
pub(crate) fn kind_of(number: u8) -> TimerKind
    ensures { result ≡ kind_of number }
{
    if number == 0 {
        TimerKind::I8253
    } else {
        TimerKind::I8254
    }
}

/// Reads the number by which a caller in C gives a wire's level: 0 is low, and any other high.
pub(crate) fn line_of(level: u8) -> Line
    ensures { result ≡ line_of level }
{
    if level == 0 { Line::Low } else { Line::High }
}

/// Writes a wire's level as the number that a caller in C gets: 0 for low, 1 for high.
pub(crate) fn number_of(line: Line) -> u8
    ensures { result ≡ (if is_high line then 1 else 0) }
{
    match line {
        Line::Low => 0,
        Line::High => 1,
    }
}
