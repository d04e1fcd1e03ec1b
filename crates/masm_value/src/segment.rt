//! The segments of a source.
use masm_text::name::Name;
use masm_text::refusal::Reason;
use std::alloc::{AllocError, Global};

/// A segment.
#[derive(Clone, Copy)]
struct Segment {
    name: Name,
    /// The paragraph that AT gives.
    paragraph: Option<u16>,
    /// The number of the first segment of its group, or its own.
    leader: usize,
}

/// The segments of a source, numbered in the order in which they are opened first.
#[derive(Drop)]
pub struct Segments {
    all: Vec<Segment>,
    /// Whether the whole program is one segment that begins at 100h.
    pub is_tiny: bool,
}

/// How many segments a program may have; each begins 4096 paragraphs after the one before it.
const SEGMENT_LIMIT: usize = 14;

impl Segments {
    /// No segments.
    pub fn new(alloc: Global) -> Segments {
        Segments {
            all: Vec::new(alloc),
            is_tiny: false,
        }
    }

    /// How many segments there are.
    pub fn len(&self) -> usize {
        self.all.len()
    }

    /// The number of the segment that is opened next; refuses too many.
    pub fn next(&self) -> Result<usize, Reason> {
        let number = self.all.len();
        if number < SEGMENT_LIMIT {
            Ok(number)
        } else {
            Err(Reason::TooManySegments)
        }
    }

    /// Puts a segment of this name after the others.
    pub fn push(&mut self, name: Name) -> Result<(), AllocError> {
        let leader = self.all.len();
        self.all.push(Segment {
            name,
            paragraph: None,
            leader,
        })?;
        Ok(())
    }

    /// The name of a segment.
    pub fn name(&self, number: usize) -> Option<Name> {
        Some(self.all.get(number)?.name)
    }

    /// Whether a segment has this name.
    pub fn is_named(&self, number: usize, name: Name) -> bool {
        self.name(number).is_some_and(|own| own.is(name.text()))
    }

    /// Has a segment stand at the paragraph that AT gives.
    pub fn place(&mut self, number: usize, paragraph: u16) {
        if let Some(segment) = self.all.get_mut(number) {
            segment.paragraph = Some(paragraph);
        }
    }

    /// Has a segment, and all that stand with it in a group, stand after those of the group of `leader`.
    pub fn join(&mut self, number: usize, leader: usize) {
        let (from, to) = (self.leader(number), self.leader(leader));
        for segment in self.all.iter_mut() {
            if segment.leader == from {
                segment.leader = to;
            }
        }
    }

    /// The number of the first segment of the group in which this one stands.
    pub fn leader(&self, number: usize) -> usize {
        self.all
            .get(number)
            .map_or(number, |segment| segment.leader)
    }

    /// Whether AT gives the segment a paragraph, so that nothing is placed there.
    pub fn is_elsewhere(&self, number: usize) -> bool {
        self.all
            .get(number)
            .is_some_and(|segment| segment.paragraph.is_some())
    }

    /// The paragraph of a segment.
    pub fn paragraph(&self, number: usize) -> i64 {
        // a program that is one segment has no groups
        let first = if self.is_tiny {
            number
        } else {
            self.leader(number)
        };
        let Some(segment) = self.all.get(first) else {
            return 0x100;
        };
        match segment.paragraph {
            Some(paragraph) => paragraph as i64,
            None if !self.is_tiny && first < SEGMENT_LIMIT => 0x1000 * (first as i64 + 1),
            None => 0x100,
        }
    }
}
