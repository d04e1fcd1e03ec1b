//! The words that the program takes, and its answers to typed lines.
ghost use Rattle.pcboard_words.specs.ProbeLine.{AnswersProbe as AnswersWords};
ghost use Rattle.pcboard_words.proofs.Files.{one_session};
ghost use Rattle.pcprobe_program.specs.Probing.{AnswersProbing};

use board::board::Board;
use debugger_meaning::answer::Answer;
use debugger_meaning::fault::DebugFault;
use pcboard_program::tool::Tool;
use pcboard_words::probe_line::read_probe_words;
use pcboard_words::task::{LineFault, Task};
use probe::lab::Lab;
use std::alloc::Global;

/// The program `pcprobe`, whose sessions answer the debugger's commands and inquiries.
pub struct Pcprobe;

impl Tool for Pcprobe {
    ghost reads = { AnswersWords };

    type Session = Lab;

    ghost answers = { AnswersProbing };

    ghost one_task = { one_session };

    /// Reads the words of the command line, `FILE RUN [--hex]`.
    fn read<'a>(alloc: Global, words: &'a [&'a str]) -> Result<Task<'a>, LineFault> {
        read_probe_words(alloc, words)
    }

    /// Begins a probe of the board, which answers the lines typed. Refused as `Memory` if there is none.
    fn begin(alloc: Global, board: Board) -> Result<Lab, DebugFault> {
        Lab::new(alloc, board)
    }

    /// Answers a typed line: a command of the debugger, an inquiry, or a change of the board.
    fn answer(alloc: Global, session: &mut Lab, line: &str) -> Result<Answer, DebugFault> {
        session.command(alloc, line)
    }
}
