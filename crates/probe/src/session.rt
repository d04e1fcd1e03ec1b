//! A session that answers inquiries.
ghost use Rattle.std.specs.Prelude.{◌≡◌};
ghost use Rattle.probe_texts.specs.ChipsText.{chips_text};
ghost use Rattle.probe_texts.specs.FormLines.{lines_text};
ghost use Rattle.probe.specs.InquirySession.{AnswersInquiry};
ghost use Rattle.board_plain.specs.Plain.{byte_of};
ghost use Rattle.debugger_meaning.specs.Session.{Shows};

use crate::board_bytes::BoardBytes;
use crate::chips::chips_text;
use crate::counts::tell_counts;
use crate::event_lines::{tell_events, tell_signals};
use crate::typed::type_key;
use debugger::session::Session;
use debugger_meaning::answer::Answer;
use debugger_meaning::fault::DebugFault;
use probe_texts::inquiry::{Inquiry, Lines, Place};
use probe_texts::list_text::lines_text;
use std::alloc::Global;

/// Answers an inquiry. `chips`, `list` and `forms` change nothing; `counts`, `signals` and `events` run for some clocks;
/// `key` adds a key that is still to come. Refused as `Memory` if there is none.
pub(crate) fn inquire(
    session: &mut Session,
    alloc: Global,
    inquiry: Inquiry,
) -> Result<Answer, DebugFault>
    ensures { AnswersInquiry inquiry session.old result session.new }
{
    match inquiry {
        Inquiry::Chips => chips(session, alloc),
        Inquiry::List(lines, place, count) => list(session, alloc, lines, place, count),
        Inquiry::Counts(count) => tell_counts(session, alloc, count),
        Inquiry::Signals(count) => tell_signals(session, alloc, count),
        Inquiry::Events(count, kinds) => tell_events(session, alloc, count, kinds.as_slice()),
        Inquiry::Key(code, at) => type_key(session, alloc, code, at),
    }
}

/// Answers the inquiry `chips`: what the board's chips hold, a line for each.
fn chips(session: &Session, alloc: Global) -> Result<Answer, DebugFault>
    ensures { Shows (chips_text session.now.board.plain) result }
{
    Ok(Answer::Text(chips_text(alloc, session.board())?))
}

/// Answers the inquiry `list` or `forms`: `count` instructions from a place in memory on.
fn list(
    session: &Session,
    alloc: Global,
    lines: Lines,
    place: Place,
    count: u16,
) -> Result<Answer, DebugFault>
    ensures { Shows (lines_text lines (byte_of session.now.board.plain) place.segment place.offset count) result }
{
    let memory = BoardBytes(session.board());
    Ok(Answer::Text(lines_text(alloc, &memory, lines, place, count)?))
}
