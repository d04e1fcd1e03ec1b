//! The lines of each segment, and how they become one text.
ghost use Rattle.std.specs.Prelude.{IfOk, IfErr, IfSome};
ghost use Rattle.masm_text.specs.UserLines.{AreTranslated, IsFailure, IsLine};
ghost use Rattle.masm.specs.Layouts.{ArePlaced, IsLaid};

use masm_line::output::{write_name, write_spelled};
use masm_text::name::Name;
use masm_text::number::Spelling;
use masm_text::place::{Line, Place, Text};
use masm_text::refusal::{Failure, Reason, Refusal, Stop, refused};
use masm_value::segment::Segments;
use std::alloc::Global;

/// A line of the translation, and the number of its segment.
#[derive(Drop)]
pub struct Placed {
    pub segment: usize,
    pub line: Line,
}

/// What the segments are laid out by.
#[derive(Drop)]
pub struct Plan {
    pub alloc: Global,
    pub segments: Segments,
    /// The number of the segment of code.
    pub code: usize,
    pub entry: Option<Name>,
    pub has_origin: bool,
}

/// Segments that are laid out together.
#[derive(Clone, Copy, PartialEq, Eq)]
enum Part {
    /// The code of a program that is one segment.
    Code,
    /// What follows it there.
    Rest,
    /// A group, by the number of its first segment.
    Group(usize),
}

impl Plan {
    /// The part of a program in which a segment is laid out.
    fn part(&self, number: usize) -> Part {
        if !self.segments.is_tiny {
            Part::Group(self.segments.leader(number))
        } else if self.segments.is_elsewhere(number) {
            Part::Group(number)
        } else if number == self.code {
            Part::Code
        } else {
            Part::Rest
        }
    }
}

/// Lines that are laid out.
#[derive(Drop)]
pub struct Layout<'s> {
    plan: &'s Plan,
    /// All lines, in the order in which they were made.
    placed: &'s [Placed],
    /// The lines that are laid out so far.
    lines: Vec<Line>,
}

/// The text of a program.
pub fn lay<'s>(texts: &[Text], plan: &'s Plan, placed: &'s [Placed]) -> Result<Vec<Line>, Failure>
    requires { ArePlaced texts.now placed.now }
    ensures ok { IfOk result (λ lines. AreTranslated texts.now lines.items) }
    ensures err { IfErr result (IsFailure texts.now) }
{
    let lines = Vec::new(plan.alloc);
    let Some(first) = placed.first() else {
        return Ok(lines);
    };
    let place = first.line.place;
    let mut layout = Layout {
        plan,
        placed,
        lines,
    };
    match layout.program(texts, place) {
        Ok(()) => Ok(layout.lines),
        Err(Stop::Memory) => Err(Failure::Memory),
        Err(Stop::Refused(reason)) => {
            let refusal = Refusal { place, reason };
            Err(refused(texts, Vec::new(plan.alloc), refusal)?)
        }
    }
}

impl<'s> Layout<'s> {
    /// Lays out a program, of which the lines that no segment has stand at `place`.
    fn program(&mut self, texts: &[Text], place: Place) -> Result<(), Stop>
        requires laid { IsLaid texts.now self.old }
        requires place { IsLine texts.now place }
        ensures { IsLaid texts.now self.new }
    {
        if self.plan.segments.is_tiny {
            self.only_segment(texts, place)?;
            self.groups(texts)
        } else {
            self.groups(texts)?;
            self.entry(texts, place)
        }
    }

    /// Puts a line after the others.
    fn push(&mut self, texts: &[Text], place: Place, text: &[u8]) -> Result<(), Stop>
        requires laid { IsLaid texts.now self.old }
        requires place { IsLine texts.now place }
        ensures { IsLaid texts.now self.new }
    {
        let text = Vec::from_slice(self.plan.alloc, text)?;
        self.lines.push(Line { place, text })?;
        Ok(())
    }

    /// Puts the lines of a segment after the others.
    fn segment(&mut self, texts: &[Text], number: usize) -> Result<(), Stop>
        requires { IsLaid texts.now self.old }
        ensures { IsLaid texts.now self.new }
    {
        let placed = self.placed;
        for one in placed {
            if one.segment == number {
                self.push(texts, one.line.place, one.line.text.as_slice())?;
            }
        }
        Ok(())
    }

    /// Puts the lines of all segments of a part after the others.
    fn segments(&mut self, texts: &[Text], part: Part) -> Result<(), Stop>
        requires { IsLaid texts.now self.old }
        ensures { IsLaid texts.now self.new }
    {
        for number in 0..self.plan.segments.len() {
            if self.plan.part(number) == part {
                self.segment(texts, number)?;
            }
        }
        Ok(())
    }

    /// Puts the groups of segments after the others; in a program of one segment those to which AT gives a paragraph.
    fn groups(&mut self, texts: &[Text]) -> Result<(), Stop>
        requires { IsLaid texts.now self.old }
        ensures { IsLaid texts.now self.new }
    {
        for number in 0..self.plan.segments.len() {
            if self.plan.part(number) == Part::Group(number) {
                self.group(texts, number)?;
            }
        }
        Ok(())
    }

    /// Puts a group of segments after the others, between the lines that open and close it; nothing if it has no lines.
    fn group(&mut self, texts: &[Text], leader: usize) -> Result<(), Stop>
        requires { IsLaid texts.now self.old }
        ensures { IsLaid texts.now self.new }
    {
        let segments = &self.plan.segments;
        let Some(name) = segments.name(leader) else {
            return Ok(());
        };
        let Some(first) = first_place(self.plan, texts, self.placed, leader) else {
            return Ok(());
        };
        let text = opening(self.plan, name, segments.paragraph(leader))?;
        self.push(texts, first, text.as_slice())?;
        self.segments(texts, Part::Group(leader))?;
        self.push(texts, first, b"ENDS")
    }

    /// Puts the segment of a program that is one segment after the others, its code first.
    fn only_segment(&mut self, texts: &[Text], place: Place) -> Result<(), Stop>
        requires laid { IsLaid texts.now self.old }
        requires place { IsLine texts.now place }
        ensures { IsLaid texts.now self.new }
    {
        let name = Name::of(b"_TEXT").ok_or(Reason::LongName)?;
        let text = opening(self.plan, name, 0x100)?;
        self.push(texts, place, text.as_slice())?;
        if !self.plan.has_origin {
            self.push(texts, place, b"ORG 100h")?;
        }
        let code = self.plan.code;
        if self.plan.part(code) == Part::Code {
            self.segment(texts, code)?;
        }
        self.segments(texts, Part::Rest)?;
        self.push(texts, place, b"ENDS")
    }

    /// Puts the jump to the program's entry, where the processor begins, after the others.
    fn entry(&mut self, texts: &[Text], place: Place) -> Result<(), Stop>
        requires laid { IsLaid texts.now self.old }
        requires place { IsLine texts.now place }
        ensures { IsLaid texts.now self.new }
    {
        let Some(entry) = self.plan.entry else {
            return Ok(());
        };
        let mut text = Vec::from_slice(self.plan.alloc, b"JMP FAR ")?;
        write_name(&mut text, entry)?;
        self.push(texts, place, b"SEGMENT M_0 AT 0FFFFh")?;
        self.push(texts, place, text.as_slice())?;
        self.push(texts, place, b"ENDS")
    }
}

/// The line that opens a segment.
fn opening(plan: &Plan, name: Name, paragraph: i64) -> Result<Vec<u8>, Stop> {
    let mut text = Vec::from_slice(plan.alloc, b"SEGMENT ")?;
    write_name(&mut text, name)?;
    text.extend_from_slice(b" AT ")?;
    write_spelled(&mut text, paragraph, Some(Spelling::Hexadecimal(1)))?;
    Ok(text)
}

/// The user's line from which the first line of a group of segments comes.
fn first_place(plan: &Plan, texts: &[Text], placed: &[Placed], leader: usize) -> Option<Place>
    requires { ArePlaced texts.now placed.now }
    ensures { IfSome result (IsLine texts.now) }
{
    for one in placed {
        if plan.part(one.segment) == Part::Group(leader) {
            return Some(one.line.place);
        }
    }
    None
}
