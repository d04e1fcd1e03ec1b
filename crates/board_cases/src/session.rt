//! Sessions that go back, with copies of the board in a heap of their own, which may be too small for any.
use crate::tone::tone_board;
use anyhow::{Context, Result, bail, ensure};
use board::board::Board;
use debugger::session::Session;
use debugger_meaning::answer::Answer;
use linked_list_allocator::LocalHeap;
use std::alloc::{Allocator, Global};

/// Makes a `session` case: the steps after `heap SIZE CLOCK`, up to the first that doesn't come out, which the error
/// names.
pub fn follow_session(alloc: Global, steps: &str) -> Result<()> {
    let (made, steps) = steps.split_once(';').context("no steps")?;
    let made = made.trim().strip_prefix("heap ").context("no heap")?;
    let (size, clock) = made.split_once(' ').context("no clock")?;
    let size = size.parse::<usize>().ok().context("no size")?;
    let heap = LocalHeap::new(alloc, size)?;
    follow_in_heap(alloc, &heap, number(Some(clock))?, steps)
}

/// Makes the steps of a session that begins at a clock and lists copies of its board in this heap, by which it can go
/// back.
fn follow_in_heap(alloc: Global, heap: &LocalHeap, clock: u64, steps: &str) -> Result<()> {
    let board = board_at(alloc, clock)?;
    let mut session = Session::with_checkpoints_in(heap, board)?;
    let came_out = follow_steps(alloc, &mut session, steps);
    drop(session);
    came_out
}

/// The board that plays a tone, run to a clock, from which a session begins.
fn board_at(alloc: Global, clock: u64) -> Result<Board> {
    let mut board = tone_board(alloc)?;
    match board.run(clock) {
        Ok(()) => Ok(board),
        Err(fault) => {
            drop(board);
            Err(fault.into())
        }
    }
}

/// Makes the steps of a session, up to the first that doesn't come out; the caller drops the session.
fn follow_steps<A: Allocator>(alloc: Global, session: &mut Session<A>, steps: &str) -> Result<()> {
    for step in steps.split(';') {
        ensure!(comes_out(alloc, session, step.trim())?, "{step}");
    }
    Ok(())
}

/// Makes a step of a `session` case, and returns whether what it expects is so: a command with its reply, `as run`
/// (the board stands as an unbroken run of the same clocks leaves it), or a count of keys or copies.
fn comes_out<A: Allocator>(alloc: Global, session: &mut Session<A>, step: &str) -> Result<bool> {
    if let Some((command, reply)) = step.split_once(" = ") {
        return replies(alloc, session, command, reply);
    }
    if step == "as run" {
        return stands_as_run(alloc, session.board());
    }
    counts(session, step)
}

/// Whether the session's lost keys or kept copies of its board are as many as the step `lost` or `kept` says.
fn counts<A: Allocator>(session: &Session<A>, step: &str) -> Result<bool> {
    let mut words = step.split(' ');
    let verb = words.next();
    let least = number(words.next())?;
    match verb {
        Some("lost") => Ok(session.board().lost() == least),
        Some("kept") => {
            let most = number(words.next())?;
            let kept = session.checkpoints() as u64;
            Ok(least <= kept && kept <= most)
        }
        _ => bail!("no such step"),
    }
}

/// The number that a word of a step gives in decimal.
fn number(word: Option<&str>) -> Result<u64> {
    word.unwrap_or("").parse::<u64>().ok().context("no number")
}

/// Gives the session a command and compares its answer, or the name of its refusal, with a case's reply.
fn replies<A: Allocator>(
    alloc: Global,
    session: &mut Session<A>,
    command: &str,
    reply: &str,
) -> Result<bool> {
    match session.command(alloc, command) {
        Ok(answer) => reads(alloc, &answer, reply),
        Err(fault) => Ok(fault.name() == reply),
    }
}

/// Whether this is an answer's text, but for blanks and lines at its end.
fn reads(alloc: Global, answer: &Answer, reply: &str) -> Result<bool> {
    let text = format!(in alloc; "{answer}")?;
    Ok(text.as_str().trim_end() == reply)
}

/// Whether a session's board, wherever it has gone back to, shows what a board shows that is run to its clock from
/// power-on, for the step `as run`.
fn stands_as_run(alloc: Global, board: &Board) -> Result<bool> {
    let mut other = tone_board(alloc)?;
    let same = shows_after(&mut other, board.clock().get(), board);
    drop(other);
    same
}

/// Whether a board shows after `count` clocks what `wanted` shows: clock, lost keys and the speaker's changes.
fn shows_after(board: &mut Board, count: u64, wanted: &Board) -> Result<bool> {
    board.run(count)?;
    let is_there = board.clock() == wanted.clock() && board.lost() == wanted.lost();
    Ok(is_there && board.speaker_changes() == wanted.speaker_changes())
}
