//! A program as a tool: the words that it takes, and its answers to typed lines.
ghost use Rattle.std.specs.Prelude.{◌≡◌, map, ℕ, IfOk, List, None, Result, Ok};
ghost use Rattle.std.specs.Result.{IfErr};
ghost use Rattle.pcboard_words.specs.CommandLine.{Answers as AnswersWords};
ghost use Rattle.pcboard_words.specs.Files.{IsReadAs};
ghost use Rattle.pcboard_words.specs.declared.task.LineFault.{LineFault as LineFaultType};
ghost use Rattle.pcboard_words.specs.declared.task.Task.{Task as TaskType};
ghost use Rattle.pcboard_words.proofs.Files.{one_task as one_task_of};
ghost use Rattle.pcboard_texts.specs.Answer.{Reading};
ghost use Rattle.pcboard_texts.specs.Transcript.{Answering, AnswersCommand};

use board::board::Board;
use debugger::session::Session;
use debugger_meaning::answer::Answer;
use debugger_meaning::fault::DebugFault;
use pcboard_words::line::read_words;
use pcboard_words::task::{LineFault, Task};
use std::alloc::Global;

/// The words that a program takes, and its answers to typed lines.
pub trait Tool {
    // How the words are read.
    ghost reads: { Reading };

    /// What answers the lines that are typed about a board.
    type Session: Drop;

    // How a session begins, and how it answers a line.
    ghost answers: { Answering Self.Session };

    /// Reads the words after the program's name.
    fn read<'a>(alloc: Global, words: &'a [&'a str]) -> Result<Task<'a>, LineFault>
        ensures { reads (map (λ word. word.now) words.entry.now) result };

    /// A session on a board. Refused as `Memory` if there is none; the board is dropped then.
    fn begin(alloc: Global, board: Board) -> Result<Self::Session, DebugFault>
        ensures session { IfOk result (λ session. session ≡ answers.begins board) }
        ensures fault { IfErr result (λ fault. fault ≡ DebugFault.Memory None) };

    /// Answers a line, or refuses it.
    fn answer(alloc: Global, session: &mut Self::Session, line: &str) -> Result<Answer, DebugFault>
        ensures { answers.answers line.now session.old result session.new };

    // The words name one task.
    ghost one_task: { (words : List (List ℕ)) (task : TaskType) (read : Result TaskType LineFaultType)
        → reads words (Ok task) → reads words read → IsReadAs task read };
}

/// The program `pcboard`, whose sessions answer the debugger's commands.
pub struct Pcboard;

impl Tool for Pcboard {
    type Session = Session;

    ghost reads = { AnswersWords };

    ghost answers = { AnswersCommand };

    ghost one_task = { one_task_of };

    /// Reads the words after the program's name: the task that they ask for, or the usage to be told.
    fn read<'a>(alloc: Global, words: &'a [&'a str]) -> Result<Task<'a>, LineFault> {
        read_words(alloc, words)
    }

    /// Begins a debugger's session on a board, for `pcboard debug`. Refused as `Memory` if there is none; the board is
    /// dropped then.
    fn begin(alloc: Global, board: Board) -> Result<Session, DebugFault> {
        Session::new(alloc, board)
    }

    /// Answers a line that is typed in a session as the debugger's command that it is, or refuses it.
    fn answer(alloc: Global, session: &mut Session, line: &str) -> Result<Answer, DebugFault> {
        session.command(alloc, line)
    }
}
