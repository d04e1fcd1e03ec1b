//! Runs beside a board that makes each clock as a turn of its own.
ghost use Rattle.std.specs.Prelude.{All};
ghost use Rattle.board_plain.specs.Stops.{HasAddress};

use crate::program::{Shape, random_image};
use crate::shown::difference;
use anyhow::{Context, Result, bail};
use board::board::Board;
use board_plain::config::Config;
use board_plain::stop::{Condition, Stop, Stops};
use board_types::choice::{ClockTable, TimerKind};
use board_types::clock::Clock;
use board_types::image::Image;
use board_types::keys::Keys;
use std::alloc::Global;

/// The segment of the random code.
const CODE_SEGMENT: u16 = 0x100;

/// A key is stamped at least this many clocks before the last one.
const AFTER_KEYS: u64 = 300;

/// At most this many clocks lead from a run to a stop.
const TO_STOPS: u64 = 2_000;

/// The first offset of a stop: before it the random code gives the timer a count.
const FIRST_OFFSET: u16 = 9;

/// Stops are at this many offsets.
const OFFSETS: u64 = 100;

/// The address of a byte of ROM that isn't 0.
const IN_ROM: u32 = 0xF_0000;

/// The code of a key that is struck.
const STRUCK: u8 = 0x1E;

/// A board at power-on with a random program's image, with a key stamped with a clock, if one is given, for each run to
/// begin afresh. Even seeds count by table C1, odd ones by C2.
fn board_at_power_on(
    alloc: Global,
    image: &Image,
    seed: u64,
    struck: Option<u64>,
) -> Result<Board> {
    let mut keys = Keys::new(alloc);
    if let Some(clock) = struck {
        keys.push(Clock::new(clock).context("no clock")?, STRUCK)?;
    }
    let config = Config {
        ram_kb: 16,
        sw1: 0,
        sw2: 0,
        timer: TimerKind::I8253,
        clocks: if seed % 2 == 0 {
            ClockTable::C1
        } else {
            ClockTable::C2
        },
    };
    Ok(Board::new(alloc, image, config, keys)?)
}

/// Judges a `budgets` case: compares a run from power-on of each number of clocks, from `clocks - width` to `clocks`,
/// with a board that makes them one by one. Fails with the first that differs.
pub fn compare_budgets(
    alloc: Global,
    shape: Shape,
    seed: u64,
    clocks: u64,
    width: u64,
) -> Result<()> {
    let image = random_image(alloc, shape, seed)?;
    let mut ticking = board_at_power_on(alloc, &image, seed, None)?;
    let answer = compare_from(alloc, &image, seed, &mut ticking, clocks, width);
    drop(ticking);
    answer
}

/// Runs a board of each length of a `budgets` case, while `ticking` is brought to the same clock one clock at a time,
/// and compares them.
fn compare_from(
    alloc: Global,
    image: &Image,
    seed: u64,
    ticking: &mut Board,
    clocks: u64,
    width: u64,
) -> Result<()> {
    let first = clocks.saturating_sub(width);
    tick(ticking, first)?;
    for count in first..=clocks {
        if count > first {
            tick(ticking, 1)?;
        }
        let mut board = board_at_power_on(alloc, image, seed, None)?;
        let answer = compare_run(&mut board, count, ticking, count == clocks);
        drop(board);
        answer?;
    }
    Ok(())
}

/// Runs a board `count` clocks and compares it with `other`, which stands there after single clocks; `whole` compares
/// all its RAM.
fn compare_run(board: &mut Board, count: u64, other: &Board, whole: bool) -> Result<()> {
    board.run(count)?;
    match difference(board, other, whole) {
        None => Ok(()),
        Some(what) => bail!("after {count} clocks {what} differ"),
    }
}

/// Judges a `keys` case: compares runs of `clocks` clocks, with a key stamped at each of the `width` clocks before the
/// last 300, with boards that make them one by one.
pub fn compare_keys(alloc: Global, seed: u64, clocks: u64, width: u64) -> Result<()> {
    let image = random_image(alloc, Shape::Mixed, seed)?;
    let last = clocks.saturating_sub(AFTER_KEYS);
    for stamp in last.saturating_sub(width)..last {
        let mut ticking = board_at_power_on(alloc, &image, seed, Some(stamp))?;
        let answer = compare_struck(alloc, &image, seed, &mut ticking, clocks, stamp);
        drop(ticking);
        answer?;
    }
    Ok(())
}

/// Compares, for a `keys` case, a run of `clocks` clocks with a key stamped at a clock with `ticking`, which makes them
/// one by one. Fails with the stamp.
fn compare_struck(
    alloc: Global,
    image: &Image,
    seed: u64,
    ticking: &mut Board,
    clocks: u64,
    stamp: u64,
) -> Result<()> {
    tick(ticking, clocks)?;
    let mut board = board_at_power_on(alloc, image, seed, Some(stamp))?;
    let answer = compare_run(&mut board, clocks, ticking, false);
    drop(board);
    match answer {
        Ok(()) => Ok(()),
        Err(fault) => bail!("with a key at {stamp}: {fault}"),
    }
}

/// Judges a `stops` case: compares runs of `clocks` clocks that go on until the processor is free at an offset of the
/// code, for `width` offsets, with boards that go on one clock at a time.
pub fn compare_stops(alloc: Global, seed: u64, clocks: u64, width: u64) -> Result<()> {
    let image = random_image(alloc, Shape::Mixed, seed)?;
    let mut ticking = board_at_power_on(alloc, &image, seed, None)?;
    let answer = compare_stops_after(alloc, &image, seed, &mut ticking, clocks, width);
    drop(ticking);
    answer
}

/// Brings `ticking` to clock `clocks`, and compares from there, for each offset of a `stops` case, how a copy of it and
/// another board go on to the stop.
fn compare_stops_after(
    alloc: Global,
    image: &Image,
    seed: u64,
    ticking: &mut Board,
    clocks: u64,
    width: u64,
) -> Result<()> {
    tick(ticking, clocks)?;
    for number in 0..width {
        let offset = FIRST_OFFSET + ((seed.wrapping_add(number)) % OFFSETS) as u16;
        let mut stopping = ticking.copy()?;
        let answer = compare_stopped(alloc, image, seed, &mut stopping, clocks, offset);
        drop(stopping);
        answer?;
    }
    Ok(())
}

/// Compares a board that has made `clocks` clocks and goes on to a stop at an offset with `ticking`, which goes on to
/// it clock by clock. Fails with the offset.
fn compare_stopped(
    alloc: Global,
    image: &Image,
    seed: u64,
    ticking: &mut Board,
    clocks: u64,
    offset: u16,
) -> Result<()> {
    let stops = stop_at(offset);
    let wanted = tick_to(ticking, TO_STOPS, &stops)?;
    let mut board = board_at_power_on(alloc, image, seed, None)?;
    let answer = compare_stop(&mut board, clocks, &stops, wanted, ticking);
    drop(board);
    match answer {
        Ok(()) => Ok(()),
        Err(fault) => bail!("with a stop at {offset}: {fault}"),
    }
}

/// Runs a board `clocks` clocks and on to a stop, and fails unless it ends by the stop that is wanted and shows what
/// `other` shows.
fn compare_stop(
    board: &mut Board,
    clocks: u64,
    stops: &Stops,
    wanted: Option<Stop>,
    other: &Board,
) -> Result<()>
    requires { All HasAddress stops.now.items }
{
    board.run(clocks)?;
    if board.run_until(TO_STOPS, stops)? != wanted {
        bail!("the stops differ");
    }
    match difference(board, other, false) {
        None => Ok(()),
        Some(what) => bail!("{what} differ"),
    }
}

/// A stop that holds once the processor is free at an offset of the random code's segment, to which a `stops` case's
/// boards run.
fn stop_at(offset: u16) -> Stops
    ensures { All HasAddress result.items }
{
    let mut stops = Stops::new();
    stops.push(Condition::At(CODE_SEGMENT, offset));
    stops
}

/// Makes clocks one by one, each as a run of its own up to a stop that never holds: so none is part of a longer leap on
/// the board with which runs are compared.
fn tick(board: &mut Board, clocks: u64) -> Result<()> {
    tick_to(board, clocks, &stop_never())?;
    Ok(())
}

/// A stop that never holds, a byte of ROM that isn't what it says: with it every clock of a run is a turn of its own.
fn stop_never() -> Stops
    ensures { All HasAddress result.items }
{
    let mut stops = Stops::new();
    stops.push(Condition::Byte(IN_ROM, 0));
    stops
}

/// Makes at most `clocks` clocks one by one, up to the first one at which a stop holds, and returns that; `None` if
/// none held.
fn tick_to(board: &mut Board, clocks: u64, stops: &Stops) -> Result<Option<Stop>>
    requires { All HasAddress stops.now.items }
{
    for _ in 0..clocks {
        let stopped = board.run_until(1, stops)?;
        if stopped.is_some() {
            return Ok(stopped);
        }
    }
    Ok(None)
}
