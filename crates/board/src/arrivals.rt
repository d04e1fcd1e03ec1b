//! Keys that reach the keyboard at their clocks.
ghost use Rattle.std.specs.Prelude.{ℕ, ◌≡◌, ◌+◌, ◌<◌, ◌≤◌, ◌^◌, All, IsTrue, drop, length};
ghost use Rattle.board_types.specs.Keys.{IsInOrder};
ghost use Rattle.board.specs.Arrivals.{Awaits, HaveArrived};
ghost use Rattle.wiring.specs.Wires.{after_arrivals};
ghost use Rattle.board.specs.UneventfulClocks.{ComesAfter};
ghost use Rattle.board_plain.specs.Plain.{chips_after_clock, codes_at};

use board_types::clock::Clock;
use board_types::keys::StampedKey;
use cached_chips::cached::CachedChips;

/// How many of the keys have arrived, and the stamp of the next one, if one is to come.
#[derive(Clone, Copy)]
pub(crate) struct Arrived {
    pub(crate) count: usize,
    pub(crate) next: Option<Clock>,
}

/// What an engine keeps of its keys once the first `count` of them have arrived: that number and the next stamp.
pub(crate) fn so_far(keys: &[StampedKey], count: usize) -> Arrived
    requires { IsInOrder keys.now }
    ensures { (clock : ℕ) → Awaits count (clock + 1) keys.now → HaveArrived result (clock + 1) keys.now }
{
    match keys.get(count) {
        Some(key) => Arrived {
            count,
            next: Some(key.stamp),
        },
        None => Arrived { count, next: None },
    }
}

/// Lets the keys that are stamped `clock` reach the keyboard, `next` keys having arrived before. Answers how many have
/// arrived then. Kept out of line, since few clocks have a key.
#[inline(never)]
pub(crate) fn arrive_at(
    chips: &mut CachedChips,
    keys: &[StampedKey],
    next: usize,
    clock: u64,
) -> usize
    requires in_order { IsInOrder keys.now }
    requires awaits { Awaits next clock keys.now }
    ensures chips { chips.new ≡ after_arrivals chips.old (codes_at keys.now clock) }
    ensures clock { chips.new.clock ≡ chips.old.clock }
    ensures awaits { Awaits result (clock + 1) keys.now }
{
    for index in next..keys.len() {
        let key = keys[index];
        if key.stamp.get() != clock {
            return index;
        }
        chips.arrive(key.code);
    }
    keys.len()
}

/// Lets the keys that are stamped `clock` reach the keyboard, if there are any; mostly there are none, which one
/// comparison tells.
#[inline(always)]
fn let_arrive(chips: &mut CachedChips, keys: &[StampedKey], arrived: &mut Arrived, clock: u64)
    requires some { 1 ≤ clock }
    requires in_order { IsInOrder keys.now }
    requires arrived { HaveArrived arrived.old clock keys.now }
    ensures chips { chips.new ≡ after_arrivals chips.old (codes_at keys.now clock) }
    ensures clock { chips.new.clock ≡ chips.old.clock }
    ensures arrived { HaveArrived arrived.new (clock + 1) keys.now }
{
    if comes_after(clock, arrived.next) {
        return;
    }
    let count = arrive_at(chips, keys, arrived.count, clock);
    *arrived = so_far(keys, count);
}

/// Makes the chips' part of one clock, after the processor's: brings them there, lets the keys that are stamped with it
/// arrive, and settles keyboard and wires.
#[inline(never)]
#[tactic(auto, unfolding(board_plain::specs::Plain::chips_after_clock))]
pub(crate) fn pass_clock(chips: &mut CachedChips, keys: &[StampedKey], arrived: &mut Arrived)
    requires within { chips.old.clock < 2 ^ 40 }
    requires in_order { IsInOrder keys.now }
    requires arrived { HaveArrived arrived.old (chips.old.clock + 1) keys.now }
    ensures chips { chips.new ≡ chips_after_clock chips.old keys.now }
    ensures clock { chips.new.clock ≡ chips.old.clock + 1 }
    ensures arrived { HaveArrived arrived.new (chips.old.clock + 2) keys.now }
{
    let clock = chips.clock().get() + 1;
    chips.sync(Clock::new(clock).unwrap());
    let_arrive(chips, keys, arrived, clock);
    chips.settle();
}

/// Whether the next key, if there is one, comes later than `clock`, so that no key stops clocks from passing in one go.
#[inline(always)]
pub(crate) fn comes_after(clock: u64, stamp: Option<Clock>) -> bool
    ensures { IsTrue result → ComesAfter clock stamp }
{
    match stamp {
        Some(at) => clock < at.get(),
        None => true,
    }
}

/// How many keys are stamped before `clock`, to find the keys of a clock or the place for a typed one. All from number
/// `count` on are known not to be, so it looks backwards from there.
pub(crate) fn count_before(keys: &[StampedKey], count: usize, clock: u64) -> usize
    requires in_order { IsInOrder keys.now }
    requires within { count ≤ length keys.now }
    requires later { All (λ k. clock ≤ k.stamp) (drop count keys.now) }
    ensures awaits { Awaits result clock keys.now }
    ensures fewer { result ≤ count }
{
    let mut before = count;
    while before > 0 && keys[before - 1].stamp.get() >= clock {
        before -= 1;
    }
    before
}
