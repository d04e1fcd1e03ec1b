//! The lines that are typed in a session, and its replies as they are printed.
ghost use Rattle.std.specs.Prelude.{◌≡◌, IfErr, IfOk, OnErr, OnOk};
ghost use Rattle.std.specs.Io.KnownBytes.{Appends};
ghost use Rattle.streams.specs.ByteInput.{CountsNone};
ghost use Rattle.debugger_meaning.specs.Answers.{answer_text};
ghost use Rattle.pcboard_texts.specs.Refusal.{want_of_board};
ghost use Rattle.pcboard_texts.specs.Taking.{GivesLine, GivesSome};
ghost use Rattle.pcboard_texts.specs.Transcript.{ends_session, refusal_text, reply_text};
ghost use Rattle.pcboard_texts.specs.Unanswered.{IsUnjudged, UnlessFailed, WhereFailed, WhereRefused};

use crate::input::next_byte;
use crate::telling::{print_number, print_part};
use crate::unanswered::Unanswered;
use debugger_meaning::answer::Answer;
use debugger_meaning::command::is_quit;
use debugger_meaning::fault::DebugFault;
use std::alloc::Global;
use streams::byte_input::{ByteInput, Failed};
use streams::byte_output::ByteOutput;

/// Reads the next line that is typed in a session, without its line feed, and whether the input's end came in place of
/// that, which ends the session.
pub fn next_line<I: ByteInput>(alloc: Global, input: &mut I) -> Result<(Vec<u8>, bool), Unanswered>
    ensures line { IfOk result (λ read. GivesLine (I.gave input.old input.new) (I.ended input.new) read.0.items read.1) }
    ensures begun { IfErr result (WhereRefused (GivesSome (I.gave input.old input.new))) }
    ensures end { IfErr result (IsUnjudged (λ fault. fault ≡ want_of_board)) }
    ensures unfailed { UnlessFailed (CountsNone (I.failures input.old) (I.failures input.new)) result }
    ensures lost { IfErr result (WhereFailed (I.lost input.new)) }
{
    let mut line = Vec::new(alloc);
    // Memory ends before a line that has no end.
    'bytes: loop {
        let Some(byte) = next_byte(input)? else {
            return Ok((line, true));
        };
        if byte == b'\n' {
            return Ok((line, false));
        }
        line.push(byte)?;
    }
}

/// Whether a typed line is the word `quit`, which ends a session; a line that isn't UTF-8 isn't.
pub fn ends_session(line: &[u8]) -> bool
    ensures { result ≡ ends_session line.now }
{
    match std::str::from_utf8(line) {
        Ok(text) => is_quit(text),
        Err(_) => false,
    }
}

/// Prints what a session replies to a typed line, an answer or a refusal, and flushes it, so that whoever typed sees it
/// at once.
pub fn print_reply<O: ByteOutput>(
    reply: &Result<Answer, DebugFault>,
    out: &mut O,
) -> Result<(), Failed>
    ensures printed { OnOk result (Appends (O.contents out.old) (O.contents out.new) (reply_text reply.now)) }
    ensures lost { OnErr result (O.lost out.new) }
{
    match reply {
        Ok(answer) => print_answer(answer, out)?,
        Err(fault) => print_refusal(fault, out)?,
    }
    out.flush()
}

/// Prints what a session answers to a typed line.
fn print_answer<O: ByteOutput>(answer: &Answer, out: &mut O) -> Result<(), Failed>
    ensures printed { OnOk result (Appends (O.contents out.old) (O.contents out.new) (answer_text answer.now)) }
    ensures lost { OnErr result (O.lost out.new) }
{
    match answer {
        Answer::Stop(number) => print_number(out, "stop ", *number as u64)?,
        Answer::Clock(clock) => print_number(out, "clock ", clock.get())?,
        Answer::StopAt(number, clock) => {
            print_number(out, "stop ", *number as u64)?;
            print_number(out, " clock ", clock.get())?;
        }
        Answer::Text(text) => return print_part(out, text.as_str()),
    }
    print_part(out, "\n")
}

/// Prints why a session refuses a typed line, as a line: the fault's number and name, and its clock if it has one.
fn print_refusal<O: ByteOutput>(fault: &DebugFault, out: &mut O) -> Result<(), Failed>
    ensures printed { OnOk result (Appends (O.contents out.old) (O.contents out.new) (refusal_text fault.now)) }
    ensures lost { OnErr result (O.lost out.new) }
{
    print_number(out, "fault ", u64::from(fault.number()))?;
    print_part(out, " ")?;
    print_part(out, fault.name())?;
    if let Some(clock) = fault.clock() {
        print_number(out, " clock ", clock.get())?;
    }
    print_part(out, "\n")
}
