//! How clocks pass: keys arrive, and the chips go on.
ghost use Rattle.std.specs.Prelude.{◌≡◌, ◌+◌, ◌<◌, ◌≤◌, ◌^◌, IsTrue};
ghost use Rattle.cached_chips.specs.QuietChips.{IsQuiet};
ghost use Rattle.board_plain.specs.Plain.{chips_after_clock};
ghost use Rattle.board_plain.specs.BoardLaws.{WiresHold};
ghost use Rattle.board.specs.UnseenClocks.{GoUnseen, PassBy, PassOver, WiresStay, last_before};
ghost use Rattle.board.specs.QuietBoard.{IsBoardQuietAhead};
ghost use Rattle.board.specs.Arrivals.{HaveArrived};
ghost use Rattle.board_types.specs.Keys.{IsInOrder};

use crate::arrivals::{Arrived, comes_after, pass_clock};
use board_types::clock::Clock;
use board_types::keys::StampedKey;
use cached_chips::cached::CachedChips;

/// The clock up to which a leap may go that ends by `end`: the last one before `at`, the next key's stamp or an edge of
/// the timer, if that is earlier.
#[inline(always)]
pub(crate) fn last_before(at: Option<Clock>, end: u64) -> u64
    ensures { result ≡ last_before at end }
{
    match at {
        Some(at) => end.min(at.get().saturating_sub(1)),
        None => end,
    }
}

/// The clock up to which it is known that nothing comes to the processor, no request and no key, so that the run's loop
/// may make steps; 0 while it is busy for `busy` clocks.
#[inline(always)]
pub(crate) fn board_quiet_to(busy: u16, chips: &CachedChips, arrived: &Arrived) -> u64
    ensures { IsBoardQuietAhead result busy chips.now arrived.now.next }
{
    if busy != 0 {
        return 0;
    }
    last_before(arrived.next, chips.unrequested_to())
}

/// Makes the chips' part of the last step of a run by slots, of `busy` clocks, which leads past the run's bound: up to
/// `end`, over edges of the timer, too. Sets `quiet_to` to what is known then. Answers how many clocks of the step are
/// left.
#[inline(never)]
pub(crate) fn pass_beyond(
    chips: &mut CachedChips,
    keys: &[StampedKey],
    arrived: &mut Arrived,
    quiet_to: &mut u64,
    busy: u16,
    end: u64,
) -> u16
    requires within { end ≤ 2 ^ 40 }
    requires before_end { chips.old.clock < end }
    requires in_order { IsInOrder keys.now }
    requires arrived { HaveArrived arrived.old (chips.old.clock + 1) keys.now }
    requires wires { WiresHold (chips_after_clock chips.old keys.now) }
    ensures passed { PassOver end busy chips.old keys.now result chips.new }
    ensures arrived { HaveArrived arrived.new (chips.new.clock + 1) keys.now }
    ensures quiet { IsBoardQuietAhead quiet_to.new result chips.new arrived.new.next }
{
    let left = pass_over(chips, keys, arrived, busy, true, end);
    *quiet_to = board_quiet_to(left, chips, arrived);
    left
}

/// Makes the chips' part of a step of `busy` clocks: all of them if they end by `end` and are known to be unseen, else
/// the first one. Then it looks ahead for how long the chips stay quiet. Answers how many clocks are left.
#[inline(always)]
pub(crate) fn pass_over(
    chips: &mut CachedChips,
    keys: &[StampedKey],
    arrived: &mut Arrived,
    busy: u16,
    over_edges: bool,
    end: u64,
) -> u16
    requires within { end ≤ 2 ^ 40 }
    requires before_end { chips.old.clock < end }
    requires in_order { IsInOrder keys.now }
    requires arrived { HaveArrived arrived.old (chips.old.clock + 1) keys.now }
    requires wires { WiresHold (chips_after_clock chips.old keys.now) }
    ensures passed { PassOver end busy chips.old keys.now result chips.new }
    ensures steady { ¬ (IsTrue over_edges) → PassBy WiresStay busy chips.old keys.now result chips.new }
    ensures arrived { HaveArrived arrived.new (chips.new.clock + 1) keys.now }
{
    let now = chips.clock();
    let clocks = busy.max(1);
    let free = now.get() + u64::from(clocks);
    if free <= end && comes_after(free, arrived.next) && goes_unseen(chips, free, over_edges) {
        chips.sync(now.after(clocks));
        chips.look_ahead();
        return 0;
    }
    pass_clock(chips, keys, arrived);
    chips.look_ahead();
    busy.saturating_sub(1)
}

/// Whether it is known that nothing is seen of the chips up to the clock `to`, so that these clocks may pass in one go:
/// they are quiet, or, if edges of the timer may be leapt over, they go on alone.
#[inline(always)]
pub(crate) fn goes_unseen(chips: &CachedChips, to: u64, over_edges: bool) -> bool
    requires { chips.now.clock < to }
    ensures unseen { IsTrue result → GoUnseen chips.now to }
    ensures quiet { ¬ (IsTrue over_edges) → IsTrue result → IsQuiet chips.now to }
{
    chips.stays_quiet(to) || (over_edges && chips.goes_on_alone())
}
