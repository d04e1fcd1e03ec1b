//! Steps on a board with its list of the speaker's changes in a heap of its own, which can be full.
use crate::bench::{Bench, follow};
use crate::boards::{change, is_fault};
use crate::parts::Parts;
use crate::words::Words;
use anyhow::Result;
use board::board::Board;
use linked_list_allocator::LocalHeap;
use std::alloc::{Allocator, Global};
use std::mem;

/// How many bytes the heap has.
const SIZE: usize = 4_096;

/// Makes the steps of a `heap` case, on a board with its list of the speaker's changes in a heap of 4,096 bytes, up to
/// the first that doesn't come out, which the error names.
pub fn follow_in_heap(alloc: Global, steps: &str) -> Result<()> {
    let heap = LocalHeap::new(alloc, SIZE)?;
    follow(HeapBench::new(alloc, &heap), steps)
}

/// The parts, and the board that was made of them.
#[derive(Drop)]
struct HeapBench<'h> {
    heap: &'h LocalHeap,
    parts: Parts,
    board: Option<Board<&'h LocalHeap>>,
    /// Takes up the rest of the heap.
    filler: Option<Vec<u8, &'h LocalHeap>>,
}

impl<'h> HeapBench<'h> {
    /// Parts without a board, and the heap that a board's list of the speaker's changes will be in.
    fn new(alloc: Global, heap: &'h LocalHeap) -> Self {
        HeapBench {
            heap,
            parts: Parts::new(alloc),
            board: None,
            filler: None,
        }
    }

    /// Makes the board of a `heap` case, with room for a number of changes in its list, for the step `ram KB COUNT`.
    fn build(&mut self, mut words: Words) -> Option<bool> {
        let ram_kb = words.size()?;
        let changes = Vec::with_capacity(self.heap, words.index()?).ok()?;
        let board = self.parts.board(ram_kb).ok()?;
        self.put(board.with_changes(changes))
    }

    /// Puts a board into the bench, in place of any before.
    fn put(&mut self, board: Board<&'h LocalHeap>) -> Option<bool> {
        drop(self.board.replace(board));
        Some(true)
    }

    /// Takes up all of the heap but `left` bytes, for the step `fill`, so that the board's list finds it full.
    fn fill(&mut self, left: usize) -> Option<bool> {
        let size = self.heap.free().checked_sub(left)?;
        let filler = Vec::with_capacity(self.heap, size).ok()?;
        self.put_filler(Some(filler))
    }

    /// Replaces what takes up the rest of the heap, or gives it back if `None`, for the steps `fill` and `free`.
    fn put_filler(&mut self, filler: Option<Vec<u8, &'h LocalHeap>>) -> Option<bool> {
        drop(mem::replace(&mut self.filler, filler));
        Some(true)
    }

    /// Makes a step on the board, if there is one, or on the parts from which it will be made.
    fn go_on(&mut self, verb: &str, words: Words) -> Option<bool> {
        match &mut self.board {
            Some(board) if verb == "reserve" => reserves(board, words),
            Some(board) => change(board, verb, words),
            None if verb == "ram" => self.build(words),
            None => self.parts.set(verb, words),
        }
    }
}

impl<'h> Bench for HeapBench<'h> {
    /// Makes a step of a `heap` case: on the heap itself (`fill`, `free`), or on the board or its parts.
    fn make(&mut self, verb: &str, mut words: Words) -> Option<bool> {
        match verb {
            "fill" => self.fill(words.index()?),
            "free" => self.put_filler(None),
            _ => self.go_on(verb, words),
        }
    }
}

/// Whether the board makes room for a number of changes of the speaker's level, or refuses with this fault, for the
/// step `reserve`.
fn reserves<A: Allocator>(board: &mut Board<A>, mut words: Words) -> Option<bool> {
    match board.reserve_speaker(words.index()?) {
        Ok(()) => Some(words.word()? == "taken"),
        Err(fault) => is_fault(fault, words),
    }
}
