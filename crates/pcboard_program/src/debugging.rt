//! A session on a board: typed lines, answered one by one as they come.
ghost use Rattle.std.specs.Prelude.{◌≡◌, ◌⊎◌, IfErr, OnOk};
ghost use Rattle.streams.specs.ByteInput.{CountsNone};
ghost use Rattle.pcboard_texts.specs.Given.{Of};
ghost use Rattle.pcboard_texts.specs.Answer.{AppendsA};
ghost use Rattle.pcboard_texts.specs.Printing.{PrintsSession};
ghost use Rattle.pcboard_texts.specs.Refusal.{BeginsTranscript, want_of_board, want_of_session};
ghost use Rattle.pcboard_texts.specs.Transcript.{AnswersTyped, input_lines};
ghost use Rattle.pcboard_texts.specs.Unanswered.{IsUnjudged, UnlessFailed, WhereFailed, WhereRefused};

use crate::tool::Tool;
use board::board::Board;
use board_plain::fault::BoardFault;
use debugger_meaning::answer::Answer;
use debugger_meaning::fault::DebugFault;
use pcboard_texts::debugging::{ends_session, next_line, print_reply};
use pcboard_texts::fault::Fault;
use pcboard_texts::unanswered::Unanswered;
use std::alloc::Global;
use streams::byte_input::ByteInput;
use streams::byte_output::ByteOutput;

/// Holds a debugger's session about a board: answers the lines of `input` and prints the replies on `out` until a line
/// is `quit` or the input ends.
pub(crate) fn print_session<T: Tool, I: ByteInput, O: ByteOutput>(
    alloc: Global,
    board: Board,
    input: &mut I,
    out: &mut O,
) -> Result<(), Unanswered>
    ensures transcript { OnOk result (PrintsSession T.answers (T.answers.begins board) (I.gave input.old input.new)
        (I.ended input.new) (O.contents out.old) (O.contents out.new)) }
    ensures cut { IfErr result (WhereRefused (O.contents out.new ≡ O.contents out.old
        ⊎ Of (I.gave input.old input.new) (λ typed. AppendsA (BeginsTranscript T.answers (T.answers.begins board) (input_lines typed))
        (O.contents out.old) (O.contents out.new)))) }
    ensures end { IfErr result (IsUnjudged (λ fault. fault ≡ want_of_board ⊎ fault ≡ want_of_session)) }
    ensures unfailed { UnlessFailed (CountsNone (I.failures input.old) (I.failures input.new)) result }
    ensures lost { IfErr result (WhereFailed (I.lost input.new ⊎ O.lost out.new)) }
{
    let mut session = T::begin(alloc, board)?;
    let answered = answer_lines::<T, I, O>(alloc, &mut session, input, out);
    // dropped here whatever the outcome: each place that drops a session needs a proof of its own
    drop(session);
    answered
}

/// Answers a session's typed lines as they come, and prints each reply, until one is `quit` or the input ends. Refused
/// for want of memory after `u64::MAX` lines, to count more.
fn answer_lines<T: Tool, I: ByteInput, O: ByteOutput>(
    alloc: Global,
    session: &mut T::Session,
    input: &mut I,
    out: &mut O,
) -> Result<(), Unanswered>
    ensures transcript { OnOk result (PrintsSession T.answers session.old (I.gave input.old input.new)
        (I.ended input.new) (O.contents out.old) (O.contents out.new)) }
    ensures cut { IfErr result (WhereRefused (Of (I.gave input.old input.new)
        (λ typed. AppendsA (BeginsTranscript T.answers session.old (input_lines typed)) (O.contents out.old)
        (O.contents out.new)))) }
    ensures end { IfErr result (IsUnjudged (λ fault. fault ≡ want_of_board)) }
    ensures unfailed { UnlessFailed (CountsNone (I.failures input.old) (I.failures input.new)) result }
    ensures lost { IfErr result (WhereFailed (I.lost input.new ⊎ O.lost out.new)) }
{
    'lines: for _ in 0..u64::MAX {
        let (line, is_last) = next_line(alloc, input)?;
        if is_last && line.is_empty() {
            return Ok(());
        }
        if ends_session(line.as_slice()) {
            return Ok(());
        }
        let reply = reply_to::<T>(alloc, session, line.as_slice());
        print_reply(&reply, out)?;
        if is_last {
            return Ok(());
        }
    }
    Err(Unanswered::Refused(Fault::Board(BoardFault::Memory)))
}

/// What the session answers to a typed line, to be printed, or why it refuses the line. One that isn't UTF-8 is
/// refused as a bad command.
fn reply_to<T: Tool>(
    alloc: Global,
    session: &mut T::Session,
    line: &[u8],
) -> Result<Answer, DebugFault>
    ensures { AnswersTyped T.answers line.now session.old result session.new }
{
    match std::str::from_utf8(line) {
        Ok(line) => T::answer(alloc, session, line),
        Err(_) => Err(DebugFault::BadCommand),
    }
}
