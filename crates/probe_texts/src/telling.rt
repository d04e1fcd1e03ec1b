//! The events of a clock, told one after another to what hears them.
ghost use Rattle.std.specs.Prelude.{◌≡◌, ◌≤◌, ◌++◌, [], ◌∷◌, IfOk, OnErr, OnOk, List, map};
ghost use Rattle.board_types.specs.declared.keys.StampedKey.{StampedKey};
ghost use Rattle.events.specs.Events.{is_same_state, latch_events};
ghost use Rattle.events.specs.declared.event.Event.{Event};
ghost use Rattle.probe_texts.specs.Told.{accesses_seen, arrivals_from, change_events, held_from, state_seen, wires_between, wires_seen};

use board_types::clock::Clock;
use board_types::keys::StampedKey;
use board_types::state::State;
use events::access::Access;
use events::event::{Event, KeyEvent, Wire};
use std::alloc::AllocError;

/// Whether each of the wires is high whose changes are events.
#[derive(Clone, Copy)]
pub struct Levels {
    pub out_0: bool,
    pub out_2: bool,
    pub ir_0: bool,
    pub ir_1: bool,
    pub int: bool,
    pub speaker: bool,
}

/// What hears the events of a run, one after another.
pub trait Listener {
    // what it does with them: which kinds it takes, say
    ghost Manner: { Type 0 };

    ghost manner: { Self → Manner };

    // it has heard these events
    ghost has: { Self → List Event → Type 0 };

    // whether it may find no memory
    ghost MayFail: { Type 0 };

    /// Hears one event more. Refused if there is no memory for what it makes of it.
    fn hear(&mut self, event: &Event) -> Result<(), AllocError>
        ensures heard { OnOk result ((events : List Event) → has self.old events → has self.new (events ++ event.now ∷ [])) }
        ensures manner { manner self.new ≡ manner self.old }
        ensures fault { OnErr result MayFail };
}

/// Tells the accesses of the clock that begins at `clock`, if accesses are asked for.
pub fn tell_accesses<L: Listener>(
    asked: bool,
    clock: Clock,
    accesses: &[Access],
    listener: &mut L,
) -> Result<(), AllocError>
    ensures told { OnOk result ((events : List Event) → L.has listener.old events
        → L.has listener.new (events ++ accesses_seen asked clock accesses.now)) }
    ensures manner { L.manner listener.new ≡ L.manner listener.old }
    ensures fault { OnErr result L.MayFail }
{
    if !asked {
        return Ok(());
    }
    for access in accesses {
        listener.hear(&Event::Reached(clock, *access))?;
    }
    Ok(())
}

/// Tells the processor's new state, if it has changed and states are asked for.
pub fn tell_state<L: Listener>(
    asked: bool,
    clock: Clock,
    before: State,
    after: State,
    listener: &mut L,
) -> Result<(), AllocError>
    ensures told { OnOk result ((events : List Event) → L.has listener.old events
        → L.has listener.new (events ++ state_seen asked clock before after)) }
    ensures manner { L.manner listener.new ≡ L.manner listener.old }
    ensures fault { OnErr result L.MayFail }
{
    if !asked || is_same_state(before, after) {
        return Ok(());
    }
    listener.hear(&Event::Became(clock, after))
}

/// Whether the processor's state is the same before and after a clock, so that there is no event of it.
fn is_same_state(before: State, after: State) -> bool
    ensures { result ≡ is_same_state before after }
{
    before == after
}

/// Tells of the codes that arrive, or are lost, at a clock at which `waiting` wait already. Returns how many wait then,
/// 16 at most.
pub fn tell_arrivals<L: Listener>(
    clock: Clock,
    waiting: usize,
    keys: &[StampedKey],
    listener: &mut L,
) -> Result<usize, AllocError>
    requires { waiting ≤ 16 }
    ensures told { OnOk result ((events : List Event) → L.has listener.old events
        → L.has listener.new (events ++ arrivals_from clock waiting (map (λ (k : StampedKey). k.code) keys.now))) }
    ensures held { IfOk result (λ held. held ≡ held_from waiting (map (λ (k : StampedKey). k.code) keys.now)) }
    ensures manner { L.manner listener.new ≡ L.manner listener.old }
    ensures fault { OnErr result L.MayFail }
{
    let mut held = waiting;
    for key in keys {
        if held < 16 {
            listener.hear(&Event::Keyed(clock, KeyEvent::Arrives, key.code))?;
            held += 1;
        } else {
            listener.hear(&Event::Keyed(clock, KeyEvent::IsLost, key.code))?;
        }
    }
    Ok(held)
}

/// Tells of the code that has moved into the latch, where it still is.
pub fn tell_latched<L: Listener>(
    clock: Clock,
    latch: Option<u8>,
    listener: &mut L,
) -> Result<(), AllocError>
    ensures told { OnOk result ((events : List Event) → L.has listener.old events
        → L.has listener.new (events ++ latch_events clock latch)) }
    ensures manner { L.manner listener.new ≡ L.manner listener.old }
    ensures fault { OnErr result L.MayFail }
{
    match latch {
        Some(code) => listener.hear(&Event::Keyed(clock, KeyEvent::IsLatched, code)),
        None => Ok(()),
    }
}

/// Tells which wires have changed, if they were looked at before and after the turn.
pub fn tell_wires<L: Listener>(
    clock: Clock,
    before: Option<Levels>,
    after: Option<Levels>,
    listener: &mut L,
) -> Result<(), AllocError>
    ensures told { OnOk result ((events : List Event) → L.has listener.old events
        → L.has listener.new (events ++ wires_seen clock before after)) }
    ensures manner { L.manner listener.new ≡ L.manner listener.old }
    ensures fault { OnErr result L.MayFail }
{
    match (before, after) {
        (Some(before), Some(after)) => tell_changes(clock, before, after, listener),
        (Some(_), None) | (None, _) => Ok(()),
    }
}

/// Tells which wires have changed between two looks, in the order in which events list them.
fn tell_changes<L: Listener>(
    clock: Clock,
    before: Levels,
    after: Levels,
    listener: &mut L,
) -> Result<(), AllocError>
    ensures told { OnOk result ((events : List Event) → L.has listener.old events
        → L.has listener.new (events ++ wires_between clock before after)) }
    ensures manner { L.manner listener.new ≡ L.manner listener.old }
    ensures fault { OnErr result L.MayFail }
{
    tell_change(clock, Wire::Out0, before.out_0, after.out_0, listener)?;
    tell_change(clock, Wire::Out2, before.out_2, after.out_2, listener)?;
    tell_change(clock, Wire::Ir0, before.ir_0, after.ir_0, listener)?;
    tell_change(clock, Wire::Ir1, before.ir_1, after.ir_1, listener)?;
    tell_change(clock, Wire::Int, before.int, after.int, listener)?;
    let (before, after) = (before.speaker, after.speaker);
    tell_change(clock, Wire::Speaker, before, after, listener)
}

/// Tells that a wire has taken another level, if it has.
fn tell_change<L: Listener>(
    clock: Clock,
    wire: Wire,
    before: bool,
    after: bool,
    listener: &mut L,
) -> Result<(), AllocError>
    ensures told { OnOk result ((events : List Event) → L.has listener.old events
        → L.has listener.new (events ++ change_events clock wire before after)) }
    ensures manner { L.manner listener.new ≡ L.manner listener.old }
    ensures fault { OnErr result L.MayFail }
{
    if before == after {
        return Ok(());
    }
    listener.hear(&Event::Wired(clock, wire, after))
}
