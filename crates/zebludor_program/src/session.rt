//! A session, which keeps what it answered last.
ghost use Rattle.std.specs.Prelude.{◌≡◌, None, IfErr, IfOk};
ghost use Rattle.pcboard_texts.specs.Transcript.{reply_text};
ghost use Rattle.zebludor_program.specs.Sessions.{AnswersAs, IsAbout, fault_of};

use crate::answerer::Answerer;
use board::board::Board;
use debugger_meaning::answer::Answer;
use debugger_meaning::fault::DebugFault;
use pcboard_texts::debugging::print_reply;
use std::alloc::{AllocError, Global};

/// What answers, and its last reply: no text, as long as it has answered no line.
#[derive(Drop)]
pub struct OpenSession {
    pub answerer: Answerer,
    pub reply: Result<Answer, DebugFault>,
}

impl OpenSession {
    /// Makes a session about a board as it stands, for a caller in C: one of `pcprobe`, if `probes`, else one of `pcboard
    /// debug`. It has answered no line yet. Without memory for it, the board is dropped and the fault is `Memory`.
    pub fn new(alloc: Global, probes: bool, board: Board) -> Result<Box<OpenSession>, DebugFault>
        ensures session { IfOk result (λ session. IsAbout probes board session.value) }
        ensures fault { IfErr result (λ fault. fault ≡ DebugFault.Memory None) }
    {
        let answerer = Answerer::new(alloc, probes, board)?;
        let reply = Ok(Answer::Text(String::new(alloc)));
        match Box::new(alloc, OpenSession { answerer, reply }) {
            Ok(session) => Ok(session),
            Err(_) => Err(DebugFault::Memory(None)),
        }
    }

    /// Answers a caller's line as the program does, and keeps the reply, whose text and fault can be asked for until the
    /// next line.
    pub fn answer(&mut self, alloc: Global, line: &[u8])
        ensures { AnswersAs line.now self.old.answerer self.new.reply self.new.answerer }
    {
        self.reply = self.answerer.answer(alloc, line);
    }

    /// The text of the last reply, as the program prints it, for the caller's buffer; no bytes before the first line.
    /// Fails only if there is no memory for it.
    pub fn text(&self, alloc: Global) -> Result<Vec<u8>, AllocError>
        ensures { IfOk result (λ text. text.items ≡ reply_text self.now.reply) }
    {
        let mut text = Vec::new(alloc);
        match print_reply(&self.reply, &mut text) {
            Ok(()) => Ok(text),
            Err(_) => Err(AllocError),
        }
    }

    /// The number of the fault with which the last line was refused, for the result of a call; 0 if it was answered.
    pub fn fault(&self) -> u8
        ensures { result ≡ fault_of self.now.reply }
    {
        match &self.reply {
            Ok(_) => 0,
            Err(fault) => fault.number(),
        }
    }
}
