//! What holds of the events of a plain board's clocks.
ghost use Rattle.events.specs.EventLaws.{MakesAccesses, MakesFewAccesses};

use bus::Bus;

/// A step, the next iteration of a repeat and the entry of an interrupt do over a bus that notes accesses what they do
/// over the bus alone, and the noted accesses, made in order, are all that they do to it; each byte read of a port is
/// the one that the bus gives then. So the debugger's event lists may be taken from noted runs.
pub fn accesses_are_made<B: Bus>()
    ensures { MakesAccesses B.meaning }
{}

/// A step, the next iteration of a repeat and the entry of an interrupt make at most six accesses each (three words
/// pushed), so that an array of six holds those of any clock.
pub fn accesses_are_few<B: Bus>()
    ensures { MakesFewAccesses B.meaning }
{}
