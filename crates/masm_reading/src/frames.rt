//! Lines that are still to be read: of the texts, of macros and of repetitions.
ghost use Rattle.std.specs.Prelude.{IfOk, IfSome};
ghost use Rattle.masm_text.specs.UserLines.{IsLine};
ghost use Rattle.masm_reading.specs.Frames.{IsFrame, IsNext, IsRest, IsWritten, LeavesRest};

use board_types::text::next_line;
use masm_text::place::{Place, Text, bytes_at};
use masm_text::raw::without_comment;
use std::alloc::{AllocError, Global};

/// A line without comment that has stood in a text, or was made of one, and the user's line it comes from.
#[derive(Drop)]
pub struct SourceLine {
    pub place: Place,
    pub text: Vec<u8>,
}

/// What is left of a text, and how many of its lines are read.
#[derive(Clone, Copy)]
pub struct GivenLines<'a> {
    text: u32,
    line: u32,
    rest: &'a [u8],
}

/// The lines that a macro's call or a repetition makes, the next one, and how often they come.
#[derive(Drop)]
pub struct MadeLines {
    place: Place,
    lines: Vec<Vec<u8>>,
    next: usize,
    rounds: u32,
    /// How many IFs were open before them.
    conditions: usize,
}

/// Lines that are still to be read.
#[derive(Drop)]
pub enum Frame<'a> {
    Given(GivenLines<'a>),
    Made(MadeLines),
}

/// All lines of a text.
pub fn whole<'a>(texts: &'a [Text<'a>], number: u32) -> Frame<'a>
    ensures { IsFrame texts.now result }
{
    Frame::Given(GivenLines {
        text: number,
        line: 0,
        rest: bytes_at(texts, number),
    })
}

/// The lines that the user's line at `place` makes, so many times, with so many IFs open.
pub fn made<'a>(
    texts: &[Text<'a>],
    place: Place,
    lines: Vec<Vec<u8>>,
    rounds: u32,
    conditions: usize,
) -> Frame<'a>
    requires { IsLine texts.now place }
    ensures { IsFrame texts.now result }
{
    Frame::Made(MadeLines {
        place,
        lines,
        next: 0,
        rounds,
        conditions,
    })
}

/// How many IFs were open before the lines of a macro or a repetition; `None` for those of a text.
pub fn conditions_before(frame: &Frame) -> Option<usize> {
    match frame {
        Frame::Given(_) => None,
        Frame::Made(made) => Some(made.conditions),
    }
}

/// What a step reads: a line, if it doesn't begin anew instead, and what is left of the frame.
#[derive(Drop)]
pub struct Next<'a> {
    pub line: Option<SourceLine>,
    pub left: Option<Frame<'a>>,
}

/// The step that a frame is read by.
pub fn step<'a>(alloc: Global, texts: &[Text<'a>], frame: Frame<'a>) -> Result<Next<'a>, AllocError>
    requires { IsFrame texts.now frame }
    ensures { IfOk result (IsNext texts.now) }
{
    match frame {
        Frame::Given(given) => given_step(alloc, texts, given),
        Frame::Made(made) => made_step(alloc, texts, made),
    }
}

/// The next line of a text, and what is left of it.
#[tactic(auto, using(crate::proofs::Parts::next_within, crate::proofs::Parts::next_is, crate::proofs::Parts::next_left))]
fn given_step<'a>(
    alloc: Global,
    texts: &[Text<'a>],
    given: GivenLines<'a>,
) -> Result<Next<'a>, AllocError>
    requires { IsRest texts.now given.text given.line given.rest.now }
    ensures said { IfOk result (λ step. IfSome step.line (IsWritten texts.now)) }
    ensures rest { IfOk result (LeavesRest given.entry) }
    ensures sound { IfOk result (IsNext texts.now) }
{
    let end = Next {
        line: None,
        left: None,
    };
    let GivenLines { text, line, rest } = given;
    let Some((bytes, rest)) = next_line(rest) else {
        return Ok(end);
    };
    // no text has so many lines that they can't be counted
    let Some(line) = line.checked_add(1) else {
        return Ok(end);
    };
    let source_line = SourceLine {
        place: Place { text, line },
        text: Vec::from_slice(alloc, without_comment(bytes))?,
    };
    Ok(Next {
        line: Some(source_line),
        left: Some(Frame::Given(GivenLines { text, line, rest })),
    })
}

/// The next line of those that were made, and what is left of them.
fn made_step<'a>(alloc: Global, texts: &[Text<'a>], made: MadeLines) -> Result<Next<'a>, AllocError>
    requires { IsLine texts.now made.place }
    ensures { IfOk result (IsNext texts.now) }
{
    let mut made = made;
    let Some(line) = made.lines.get(made.next) else {
        return Ok(Next {
            line: None,
            left: again(texts, made),
        });
    };
    let source_line = SourceLine {
        place: made.place,
        text: Vec::from_slice(alloc, line.as_slice())?,
    };
    made.next += 1;
    Ok(Next {
        line: Some(source_line),
        left: Some(Frame::Made(made)),
    })
}

/// The lines that were made, from the first one on again, if they come once more.
fn again<'a>(texts: &[Text<'a>], made: MadeLines) -> Option<Frame<'a>>
    requires { IsLine texts.now made.place }
    ensures { IfSome result (IsFrame texts.now) }
{
    if made.rounds <= 1 {
        return None;
    }
    let mut made = made;
    made.next = 0;
    made.rounds -= 1;
    Some(Frame::Made(made))
}
