//! What answers the lines of a session.
ghost use Rattle.std.specs.Prelude.{◌≡◌, None, IfErr, IfOk};
ghost use Rattle.pcboard_texts.specs.Transcript.{AnswersTyped};
ghost use Rattle.zebludor_program.specs.Sessions.{AnswersAs, begins_as};

use board::board::Board;
use debugger::session::Session;
use debugger_meaning::answer::Answer;
use debugger_meaning::fault::DebugFault;
use pcboard_program::tool::{Pcboard, Tool};
use pcprobe_program::tool::Pcprobe;
use probe::lab::Lab;
use std::alloc::Global;

/// A session of `pcprobe`, or one of `pcboard debug`.
#[derive(Drop)]
pub enum Answerer {
    Probe(Lab),
    Debugger(Session),
}

impl Answerer {
    /// Begins a session about a board as it stands: one of `pcprobe`, if `probes`, else one of `pcboard debug`. Refused
    /// as `Memory` if there is none; the board is dropped then.
    pub fn new(alloc: Global, probes: bool, board: Board) -> Result<Answerer, DebugFault>
        ensures session { IfOk result (λ session. session ≡ begins_as probes board) }
        ensures fault { IfErr result (λ fault. fault ≡ DebugFault.Memory None) }
    {
        if probes {
            Ok(Answerer::Probe(Lab::new(alloc, board)?))
        } else {
            Ok(Answerer::Debugger(Session::new(alloc, board)?))
        }
    }

    /// Answers a line that a caller hands over, or refuses it, as the program does whose session it is.
    pub fn answer(&mut self, alloc: Global, line: &[u8]) -> Result<Answer, DebugFault>
        ensures { AnswersAs line.now self.old result self.new }
    {
        match self {
            Answerer::Probe(probe) => reply_to::<Pcprobe>(alloc, probe, line),
            Answerer::Debugger(session) => reply_to::<Pcboard>(alloc, session, line),
        }
    }
}

/// What a program's session answers to a line, or the fault with which it refuses it. A line that isn't UTF-8 is no
/// command.
fn reply_to<T: Tool>(
    alloc: Global,
    session: &mut T::Session,
    line: &[u8],
) -> Result<Answer, DebugFault>
    ensures { AnswersTyped T.answers line.now session.old result session.new }
{
    match std::str::from_utf8(line) {
        Ok(line) => T::answer(alloc, session, line),
        Err(_) => Err(DebugFault::BadCommand),
    }
}
