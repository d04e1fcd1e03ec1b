//! The first pass: macros, conditions and included texts are replaced by the lines that they stand for.
ghost use Rattle.std.specs.Prelude.{IfOk, IfErr, IfSome, IfNone};
ghost use Rattle.masm_text.specs.UserLines.{AreRefusals, IsFailure, IsLine, IsNotGiven};
ghost use Rattle.masm_reading.specs.Frames.{GoesOn, IsFrame, IsReading, IsSound, Takes};

use crate::action::Action;
use crate::frames::{Frame, Next, SourceLine, conditions_before, made, step, whole};
use crate::names::Names;
use crate::state::State;
use masm_text::place::{Place, Text};
use masm_text::refusal::{Failure, Reason, Refusal, Stop, refused};
use std::alloc::{AllocError, Global};

/// How many lines and ends of frames may come of a source, its macros and its included texts.
const STEP_LIMIT: u32 = 2_000_000;

/// How many characters the lines may have that are left to the second pass.
const LENGTH_LIMIT: usize = 0x200_0000;

/// How deep macros and included texts may stand in one another.
const DEPTH_LIMIT: usize = 64;

/// What the first pass leaves to the second.
#[derive(Drop)]
pub struct Reading {
    pub lines: Vec<SourceLine>,
    pub names: Names,
    /// The lines that can't be translated, as far as the first pass tells.
    pub refusals: Vec<Refusal>,
}

/// How far the first pass has come.
#[derive(Drop)]
pub struct Progress<'a> {
    frames: Vec<Frame<'a>>,
    lines: Vec<SourceLine>,
    /// How many characters those lines have.
    length: usize,
    refusals: Vec<Refusal>,
    /// The line that began to gather lines last.
    begun: Option<Place>,
    /// The line that was read last.
    last: Option<Place>,
    /// Why the work has ended before all lines were read.
    end: Option<Refusal>,
}

/// Reads the first of the texts, and the others where it includes them.
pub fn read<'a>(alloc: Global, texts: &'a [Text<'a>]) -> Result<Reading, Failure>
    ensures ok { IfOk result (IsReading texts.now) }
    ensures err { IfErr result (IsFailure texts.now) }
{
    let mut frames = Vec::new(alloc);
    frames.push(whole(texts, 0))?;
    let mut progress = Progress {
        frames,
        lines: Vec::new(alloc),
        length: 0,
        refusals: Vec::new(alloc),
        begun: None,
        last: None,
        end: None,
    };
    let mut state = State::new(alloc);
    for _ in 0..STEP_LIMIT {
        if !go_on(alloc, texts, &mut progress, &mut state)? {
            return finish(texts, progress, state);
        }
    }
    match progress.last {
        Some(place) => {
            progress.end(texts, place, Reason::TooManyLines);
            finish(texts, progress, state)
        }
        // no line was read at all
        None => finish(texts, progress, state),
    }
}

/// Makes a step; says whether there was one.
fn go_on<'a>(
    alloc: Global,
    texts: &'a [Text<'a>],
    progress: &mut Progress<'a>,
    state: &mut State,
) -> Result<bool, Failure>
    requires { IsSound texts.now progress.old }
    ensures { GoesOn texts.now progress.new result }
{
    let Some(frame) = progress.frames.pop() else {
        return Ok(false);
    };
    let Next { line, left } = step(alloc, texts, frame)?;
    progress.put_back(texts, left)?;
    match line {
        Some(line) => progress.take(texts, state, line)?,
        None => {}
    }
    Ok(true)
}

impl<'a> Progress<'a> {
    /// Puts what is left of a frame back.
    fn put_back(&mut self, texts: &'a [Text<'a>], left: Option<Frame<'a>>) -> Result<(), AllocError>
        requires sound { IsSound texts.now self.old }
        requires left { IfSome left (IsFrame texts.now) }
        ensures { IsSound texts.now self.new }
    {
        match left {
            Some(left) => Ok(self.frames.push(left)?),
            None => Ok(()),
        }
    }

    /// Takes a line in.
    fn take(
        &mut self,
        texts: &'a [Text<'a>],
        state: &mut State,
        line: SourceLine,
    ) -> Result<(), Failure>
        requires { Takes texts.now self.old line.place }
        ensures { GoesOn texts.now self.new result }
    {
        let place = line.place;
        self.last = Some(place);
        match state.take(line.text.as_slice()) {
            Ok(action) => self.act(texts, state, line, action),
            Err(Stop::Refused(reason)) if reason.ends_reading() => {
                self.end(texts, place, reason);
                Ok(())
            }
            Err(Stop::Refused(reason)) => {
                self.refusals.push(Refusal { place, reason })?;
                Ok(())
            }
            Err(Stop::Memory) => Err(Failure::Memory),
        }
    }

    /// Does with a line what the names and macros say.
    fn act(
        &mut self,
        texts: &'a [Text<'a>],
        state: &mut State,
        line: SourceLine,
        action: Action,
    ) -> Result<(), Failure>
        requires { Takes texts.now self.old line.place }
        ensures { GoesOn texts.now self.new result }
    {
        let place = line.place;
        match action {
            Action::Leave => Ok(()),
            Action::Keep => self.keep(texts, line),
            Action::Gather => {
                self.begun = Some(place);
                Ok(())
            }
            Action::End => {
                if let Some(frame) = self.frames.pop() {
                    state.leave(conditions_before(&frame));
                }
                Ok(())
            }
            Action::Call(lines) => {
                let frame = made(texts, place, lines, 1, state.conditions());
                self.enter(texts, place, frame)
            }
            Action::Repeat(lines, rounds) => {
                let begun = self.begun.unwrap_or(place);
                let frame = made(texts, begun, lines, rounds, state.conditions());
                self.enter(texts, begun, frame)
            }
            Action::Include(name) => match number_of(texts, name.as_slice()) {
                Some(number) => self.enter(texts, place, whole(texts, number)),
                None => Err(Failure::Wanted(place, name)),
            },
        }
    }

    /// Keeps a line for the second pass; reads no more if that were too many characters.
    fn keep(&mut self, texts: &'a [Text<'a>], line: SourceLine) -> Result<(), Failure>
        requires { Takes texts.now self.old line.place }
        ensures { GoesOn texts.now self.new result }
    {
        self.length = self.length.saturating_add(line.text.len());
        if self.length <= LENGTH_LIMIT {
            self.lines.push(line)?;
            return Ok(());
        }
        self.end(texts, line.place, Reason::TooLong);
        Ok(())
    }

    /// Has a frame read next, which a line at `place` has made.
    fn enter(
        &mut self,
        texts: &'a [Text<'a>],
        place: Place,
        frame: Frame<'a>,
    ) -> Result<(), Failure>
        requires line { Takes texts.now self.old place }
        requires frame { IsFrame texts.now frame }
        ensures { GoesOn texts.now self.new result }
    {
        if self.frames.len() < DEPTH_LIMIT {
            self.frames.push(frame)?;
            return Ok(());
        }
        // what follows would be refused again and again
        self.end(texts, place, Reason::TooDeep);
        Ok(())
    }

    /// Ends the work at a line, before all lines are read.
    fn end(&mut self, texts: &'a [Text<'a>], place: Place, reason: Reason)
        requires { Takes texts.now self.old place }
        ensures { IsSound texts.now self.new }
    {
        self.frames.clear();
        self.end = Some(Refusal { place, reason });
    }
}

/// The number of the first text of this name, however its letters are written.
fn number_of(texts: &[Text], name: &[u8]) -> Option<u32>
    ensures { IfNone result (IsNotGiven texts.now name.now) }
{
    let mut number = 0u32;
    for text in texts {
        if text.name.eq_ignore_ascii_case(name) {
            return Some(number);
        }
        number = number.saturating_add(1);
    }
    None
}

/// What the first pass leaves, at the end of all lines.
fn finish<'a>(
    texts: &'a [Text<'a>],
    progress: Progress<'a>,
    state: State,
) -> Result<Reading, Failure>
    requires { IsSound texts.now progress }
    ensures ok { IfOk result (IsReading texts.now) }
    ensures err { IfErr result (IsFailure texts.now) }
{
    if let Some(refusal) = progress.end {
        return Err(refused(texts, progress.refusals, refusal)?);
    }
    let begun = without_end(texts, &progress, &state);
    let refusals = with_end(texts, progress.refusals, begun)?;
    Ok(Reading {
        lines: progress.lines,
        names: state.finish(),
        refusals,
    })
}

/// The line that began what has no end, or else the last line, if something has no end.
fn without_end(texts: &[Text], progress: &Progress, state: &State) -> Option<Place>
    requires { IsSound texts.now progress.now }
    ensures { IfSome result (IsLine texts.now) }
{
    if state.is_gathering() {
        return progress.begun;
    }
    if state.is_open() {
        return progress.last;
    }
    None
}

/// The refusals, with one of the line that has no end, if there is one.
fn with_end(
    texts: &[Text],
    refusals: Vec<Refusal>,
    begun: Option<Place>,
) -> Result<Vec<Refusal>, AllocError>
    requires refusals { AreRefusals texts.now refusals.items }
    requires begun { IfSome begun (IsLine texts.now) }
    ensures { IfOk result (λ refusals. AreRefusals texts.now refusals.items) }
{
    let mut refusals = refusals;
    match begun {
        Some(place) => {
            let reason = Reason::NoEnd;
            refusals.push(Refusal { place, reason })?;
            Ok(refusals)
        }
        None => Ok(refusals),
    }
}
