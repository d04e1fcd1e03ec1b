//! What a command is answered.
ghost use Rattle.std.specs.Prelude.{Some};
ghost use Rattle.debugger_meaning.specs.Answers.{answer_text};

use board_types::clock::Clock;
use std::fmt;

/// What a session answers a command that it doesn't refuse. As text, which the program prints, it is one or more whole
/// lines, or none if a shown text is empty.
#[derive(Drop)]
pub enum Answer {
    /// The number of the stop that was added.
    Stop(usize),
    /// The clock that was reached.
    Clock(Clock),
    /// The number of the stop that held, and the clock.
    StopAt(usize, Clock),
    /// What was asked for: registers, the screen, a dump, the trail, or the answer to an inquiry.
    Text(String),
}

impl fmt::Display for Answer {
    ghost output = { λ answer. Some (answer_text answer) };

    /// Writes the answer as the program prints it after a typed line: `stop N`, `clock C`, `stop N clock C`, or the
    /// text that was asked for.
    fn fmt<W: fmt::Write>(&self, f: &mut fmt::Formatter<W>) -> fmt::Result {
        match self {
            Answer::Stop(number) => writeln!(f, "stop {number}"),
            Answer::Clock(clock) => {
                let clock = clock.get();
                writeln!(f, "clock {clock}")
            }
            Answer::StopAt(number, clock) => {
                let clock = clock.get();
                writeln!(f, "stop {number} clock {clock}")
            }
            Answer::Text(text) => write!(f, "{text}"),
        }
    }
}
