//! Steps on a whole board.
//!
//! A function that may drop a board on many ways takes long to prove. So boards are lent, and dropped by `drop`.
use crate::bench::Bench;
use crate::cuts::{come_out_joined, comes_out_cut, comes_out_single, comes_out_ticking};
use crate::lasts::lasts_so;
use crate::parts::Parts;
use crate::stops::stops_so;
use crate::trail::{has_entries, is_begun, is_entered};
use crate::words::Words;
use board::board::Board;
use board_plain::fault::BoardFault;
use board_plain::speaker::SpeakerChange;
use board_types::address::ADDRESS_COUNT;
use board_types::line::Line;
use board_types::regs::Regs;
use board_types::state::State;
use std::alloc::{Allocator, Global};

/// The parts, and the board that was made of them.
#[derive(Drop)]
pub struct BoardBench {
    parts: Parts,
    board: Option<Board>,
    /// The board from which `again` goes on.
    kept: Option<Board>,
    /// The turns that were judged before.
    judged: u64,
}

impl BoardBench {
    /// Parts without a board, with which a `board` case begins.
    pub fn new(alloc: Global) -> Self {
        BoardBench {
            parts: Parts::new(alloc),
            board: None,
            kept: None,
            judged: 0,
        }
    }

    /// Makes the board of the parts, for the step `ram KB taken`, or sees it refused with the fault of `ram KB FAULT
    /// NAME`.
    fn build(&mut self, mut words: Words) -> Option<bool> {
        match self.parts.board(words.size()?) {
            Ok(board) => {
                put(&mut self.board, board);
                Some(words.word()? == "taken")
            }
            Err(fault) => is_fault(fault, words),
        }
    }

    /// Replaces the board by a copy, for the step `copy`, so that the steps after it judge the copy. `None` if there is
    /// no board or no memory for it.
    fn go_on_with_a_copy(&mut self) -> Option<bool> {
        let copy = copy_of(&self.board)?;
        put(&mut self.board, copy);
        Some(true)
    }

    /// Keeps a copy of the board as it stands, for the step `keep`, so that `again` can go on from there.
    fn keep(&mut self) -> Option<bool> {
        let copy = copy_of(&self.board)?;
        put(&mut self.kept, copy);
        Some(true)
    }
}

impl Bench for BoardBench {
    /// Makes a step of a `board` case: on the parts until there is a board, then on that.
    fn make(&mut self, verb: &str, words: Words) -> Option<bool> {
        if self.board.is_none() {
            return match verb {
                "ram" => self.build(words),
                _ => self.parts.set(verb, words),
            };
        }
        match verb {
            "copy" => self.go_on_with_a_copy(),
            "keep" => self.keep(),
            "again" => run_again(&self.kept, &mut self.board, &mut self.judged, words),
            "work" => took_turns(self.board.as_ref()?, &mut self.judged, words),
            _ => go_on(self.parts.alloc, self.board.as_mut()?, verb, words),
        }
    }
}

/// Replaces the board by a copy of the one that `keep` kept, and runs it, for the step `again`; its turns are counted
/// from there by the next `work`.
fn run_again(
    kept: &Option<Board>,
    board: &mut Option<Board>,
    judged: &mut u64,
    words: Words,
) -> Option<bool> {
    put(board, copy_of(kept)?);
    let board = board.as_mut()?;
    *judged = board.turns();
    change(board, "run", words)
}

/// Whether the board's turns since those that were judged last are at least the steps and at most three times the work
/// plus three, as the step `work` demands of a run.
fn took_turns(board: &Board, judged: &mut u64, mut words: Words) -> Option<bool> {
    let (steps, work) = (words.count()?, words.count()?);
    let turns = board.turns();
    let grown = turns.checked_sub(*judged)?;
    *judged = turns;
    Some(steps <= grown && grown <= work.saturating_mul(3).saturating_add(3))
}

/// Makes a step that compares runs of copies of a board, or one on the board itself.
fn go_on(alloc: Global, board: &mut Board, verb: &str, mut words: Words) -> Option<bool> {
    match verb {
        "cut" => comes_out_cut(alloc, board, words.count()?),
        "single" => comes_out_single(alloc, board, words.count()?),
        "ticking" => comes_out_ticking(alloc, board, words.count()?),
        "pieces" => come_out_joined(alloc, board, words),
        _ => change(board, verb, words),
    }
}

/// A copy of the board, if there is one and memory for the copy.
fn copy_of(board: &Option<Board>) -> Option<Board> {
    board.as_ref()?.copy().ok()
}

/// Replaces a board by another, and drops the old one, here in one place that is quick to prove.
fn put(place: &mut Option<Board>, board: Board) {
    drop(place.replace(board));
}

/// Makes a step that changes a board (`run`, `refused`, `until`, `last`), or one that only looks at it; also for a
/// board whose list of changes is in a heap of its own.
pub fn change<A: Allocator>(board: &mut Board<A>, verb: &str, mut words: Words) -> Option<bool> {
    match verb {
        "run" => Some(board.run(words.count()?).is_ok()),
        "refused" => is_fault(board.run(words.count()?).err()?, words),
        "until" => stops_so(board, words),
        "last" => lasts_so(board, words),
        _ => tells(board, verb, words),
    }
}

/// Whether a board shows what a case's step says of its clock, state, registers, memory, keys or speaker; the board
/// stays.
fn tells<A: Allocator>(board: &Board<A>, verb: &str, mut words: Words) -> Option<bool> {
    match verb {
        "clock" => Some(board.clock() == words.clock()?),
        "state" => Some(state_name(board.state()) == words.word()?),
        "regs" => hold(board.regs(), words),
        "byte" => Some(board.byte(words.address()?) == words.byte()?),
        "bytes" => stand_at(board, words),
        "lost" => Some(board.lost() == words.count()?),
        "changes" => are_listed(board.speaker_changes(), words),
        "decodes" => were_decoded(board.decodes(), words),
        _ => lists(board, verb, words),
    }
}

/// Whether a board's trail or screen is as a case's step says; the board stays.
fn lists<A: Allocator>(board: &Board<A>, verb: &str, mut words: Words) -> Option<bool> {
    match verb {
        "trail" => Some(has_entries(board, words.index()?)),
        "begun" => is_begun(&board.trail(words.index()?)?, words),
        "entered" => is_entered(&board.trail(words.index()?)?, words),
        _ => shows(board.screen().ok()?.as_str(), verb, words),
    }
}

/// Whether the screen's text is as the steps `blank`, `screen` or `alone` say; `None` for any other verb.
fn shows(screen: &str, verb: &str, mut words: Words) -> Option<bool> {
    match verb {
        "blank" => Some(screen.trim().is_empty()),
        "screen" => words.are_shown(screen),
        "alone" => words.are_alone(screen),
        _ => None,
    }
}

/// Whether this many decodings are at least the first of the words and at most the second, as the step `decodes` says,
/// which limits how often instructions are decoded anew.
fn were_decoded(decodes: u64, mut words: Words) -> Option<bool> {
    Some(words.count()? <= decodes && decodes <= words.count()?)
}

/// Whether the board's memory has the bytes that `bytes` lists after an address, from that address on; `None` if a
/// word can't be read or the addresses run out before a byte differs.
fn stand_at<A: Allocator>(board: &Board<A>, mut words: Words) -> Option<bool> {
    let mut addr = words.address()?;
    for word in words.0.split_whitespace() {
        if addr >= ADDRESS_COUNT {
            return None;
        }
        if board.byte(addr) != u8::from_str_radix(word, 16).ok()? {
            return Some(false);
        }
        addr += 1;
    }
    Some(true)
}

/// Whether the words of a step are this fault's number and name, for a refused run, memory size or reserve.
pub fn is_fault(fault: BoardFault, mut words: Words) -> Option<bool> {
    Some(words.count()? == u64::from(fault.number()) && words.word()? == fault.name())
}

/// The name of the processor's state in the step `state`.
fn state_name(state: State) -> &'static str {
    match state {
        State::Running => "running",
        State::Halted => "halted",
        State::Jammed => "jammed",
    }
}

/// The registers' names, in the order of `words_of`.
const NAMES: [&str; 14] = [
    "AX", "BX", "CX", "DX", "SP", "BP", "SI", "DI", "CS", "DS", "ES", "SS", "IP", "FL",
];

/// The registers' words in the order of `NAMES`, for the step `regs` to compare.
fn words_of(regs: Regs) -> [u16; 14] {
    [
        regs.ax,
        regs.bx,
        regs.cx,
        regs.dx,
        regs.sp,
        regs.bp,
        regs.si,
        regs.di,
        regs.cs,
        regs.ds,
        regs.es,
        regs.ss,
        regs.ip,
        regs.flags.word(),
    ]
}

/// Whether the words of the step `regs` name all registers that aren't 0, in the order of `NAMES`, each with what it
/// holds.
fn hold(regs: Regs, words: Words) -> Option<bool> {
    let mut wanted = words.0.split_whitespace();
    let values = words_of(regs);
    for (i, name) in NAMES.iter().enumerate() {
        if values[i] != 0 && !is_named(wanted.next()?, name, values[i])? {
            return Some(false);
        }
    }
    Some(wanted.next().is_none())
}

/// Whether a word `NAME=WORD` of the step `regs` is the register's name and what it holds; `None` if it can't be read.
fn is_named(word: &str, name: &str, value: u16) -> Option<bool> {
    let (register, digits) = word.split_once('=')?;
    Some(register == name && u16::from_str_radix(digits, 16).ok()? == value)
}

/// Whether the words of the step `changes` are all these changes of the speaker's level, each a clock and a level, as
/// `72H`.
fn are_listed(changes: &[SpeakerChange], words: Words) -> Option<bool> {
    let mut wanted = words.0.split_whitespace();
    for change in changes {
        let word = wanted.next()?;
        let (clock, level) = match word.strip_suffix('H') {
            Some(digits) => (digits, Line::High),
            None => (word.strip_suffix('L')?, Line::Low),
        };
        if change.level != level || clock.parse::<u64>().ok()? != change.clock.get() {
            return Some(false);
        }
    }
    Some(wanted.next().is_none())
}
