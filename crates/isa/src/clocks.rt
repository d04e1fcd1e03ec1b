//! How many processor clocks an instruction takes.
ghost use Rattle.std.specs.Prelude.{◌≡◌, ◌≤◌, ◌+◌};
ghost use Rattle.isa.specs.WordCounts.{clocks_in};
ghost use Rattle.isa.specs.Clocks.{address_clocks, base_clocks, can_repeat, clocks_of, first_clocks, is_counted, is_repeated, place_clocks, row_clocks};

use crate::form::{Base, Instr, Place};
use crate::outcome::{Cost, Outcome};
use crate::row::Clocks;
use crate::words::word_clocks;
use board_types::choice::ClockTable;

/// The clocks that a step of `instr` takes if it found `outcome`, by the manual's clock table or by the 8088's, which
/// adds 4 for each word of data in memory.
#[tactic(auto, unfolding(crate::specs::WordCounts::clocks_in))]
pub fn cost(instr: &Instr, outcome: &Outcome, table: ClockTable) -> Cost
    ensures value { result.0 ≡ clocks_in table instr.now outcome.now }
    ensures bound { result.0 ≤ 1414 }
{
    Cost(step_clocks(instr, outcome) + word_clocks(table, instr.data_words(outcome)))
}

/// The clocks that a step of `instr` takes if it found `outcome`, by the manual's table: the first step of a repeat
/// also pays for setting it up, and a division without a quotient for its interrupt.
#[tactic(auto, unfolding(crate::specs::Clocks::clocks_of))]
pub fn step_clocks(instr: &Instr, outcome: &Outcome) -> u16
    ensures value { result ≡ clocks_of instr.now outcome.now }
    ensures bound { result ≤ 1374 }
{
    let repeated = instr.is_repeated();
    if repeated && outcome.cx_zero {
        return first_clocks(instr);
    }
    let first = if outcome.first_step {
        first_clocks(instr)
    } else {
        0
    };
    let fault = if outcome.fault { 51 } else { 0 };
    row_clocks(instr.form.row.clocks, instr.form.place, repeated, outcome) + first + fault
}

impl Instr {
    /// Whether the instruction is a string instruction under a repeat prefix, which runs one iteration a step.
    pub fn is_repeated(&self) -> bool
        ensures { result ≡ is_repeated self.now }
    {
        self.form.row.clocks.can_repeat() && self.repeat().is_some()
    }

    /// Whether the instruction is a shift or rotate by CL, so that its clocks depend on CL.
    pub fn is_counted(&self) -> bool
        ensures { result ≡ is_counted self.now }
    {
        matches!(self.form.row.clocks, Clocks::Counted(..))
    }
}

impl Clocks {
    /// Whether the clocks are a string instruction's, so that a repeat prefix matters to it.
    fn can_repeat(self) -> bool
        ensures { result ≡ can_repeat self }
    {
        matches!(self, Clocks::Repeated(..))
    }
}

/// The clocks that only the first step of an instruction takes: 2 for each prefix, and 9 to set up a repeat.
fn first_clocks(instr: &Instr) -> u16
    ensures value { result ≡ first_clocks instr.now }
    ensures bound { result ≤ 23 }
{
    2 * instr.prefixes.len() as u16 + if instr.is_repeated() { 9 } else { 0 }
}

/// The clocks of a step by the row's entry in the table, without prefixes, set-up of a repeat and interrupt, which
/// `step_clocks` adds.
fn row_clocks(clocks: Clocks, place: Place, repeated: bool, outcome: &Outcome) -> u16
    ensures value { result ≡ row_clocks clocks place repeated outcome.now }
    ensures bound { result ≤ 1300 }
{
    match clocks {
        Clocks::Always(clocks) => u16::from(clocks),
        Clocks::Place(register, memory) => place_clocks(place, register, memory),
        Clocks::Memory(clocks) => u16::from(clocks) + address_clocks(place),
        Clocks::Counted(register, memory) => {
            place_clocks(place, register, memory) + 4 * u16::from(outcome.cl)
        }
        Clocks::Taken(taken, not_taken) => u16::from(if outcome.taken { taken } else { not_taken }),
        Clocks::Repeated(once, each) => u16::from(if repeated { each } else { once }),
    }
}

/// The clocks of an instruction with an operand that mod and r/m name: `register` for one in a register, `memory` and
/// its address's clocks for one in memory.
fn place_clocks(place: Place, register: u8, memory: u8) -> u16
    ensures value { result ≡ place_clocks place register memory }
    ensures bound { result ≤ 266 }
{
    match place {
        Place::Register(_) => u16::from(register),
        _ => u16::from(memory) + address_clocks(place),
    }
}

/// The clocks that it takes besides to work out the address of an operand in memory (the manual's EA), 0 for a
/// register.
fn address_clocks(place: Place) -> u16
    ensures value { result ≡ address_clocks place }
    ensures bound { result ≤ 11 }
{
    match place {
        Place::Absent | Place::Register(_) => 0,
        Place::Direct => 6,
        Place::Base(base) => base_clocks(base),
        Place::BaseByte(base) | Place::BaseWord(base) => base_clocks(base) + 4,
    }
}

/// The clocks that the base of an operand's address costs: 7 for two registers, 5 for one.
fn base_clocks(base: Base) -> u16
    ensures value { result ≡ base_clocks base }
    ensures bound { result ≤ 7 }
{
    match base {
        Base::BxSi | Base::BxDi | Base::BpSi | Base::BpDi => 7,
        Base::Si | Base::Di | Base::Bp | Base::Bx => 5,
    }
}
