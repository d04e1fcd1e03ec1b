//! The deadlines of a board's parts.
ghost use Rattle.std.specs.Prelude.{◌≡◌, None, MatchOption};
ghost use Rattle.board_types.specs.declared.clock.Clock.{Clock};
ghost use Rattle.scheduler.specs.declared.deadlines.Source.{Source};
ghost use Rattle.scheduler.specs.Deadlines.{no_deadlines, deadline_of, with_deadline, IsNext};
ghost use Rattle.scheduler.specs.Sooner.{sooner, next_of};

use board_types::clock::Clock;
use std::marker::Model;

/// What may be due. Of those that are due at one clock, the first in this order comes first.
#[derive(Clone, Copy, Debug, PartialEq, Eq)]
pub enum Source {
    /// OUT0 of the timer takes another level.
    Counter0,
    /// OUT2 of the timer takes another level.
    Counter2,
    /// A key code arrives.
    Keys,
    /// The processor becomes free.
    Processor,
    /// The run ends.
    End,
}

/// The clock at which each source is due next, if it is.
#[derive(Clone, Copy)]
pub struct Deadlines {
    counter_0: Option<Clock>,
    counter_2: Option<Clock>,
    keys: Option<Clock>,
    processor: Option<Clock>,
    end: Option<Clock>,
}

impl Model for Deadlines {
    ghost use Rattle.scheduler.specs.Deadlines.{DeadlinesState};

    ghost Value = { DeadlinesState };

    ghost view = { λ d. record {
      counter_0 = d.counter_0;
      counter_2 = d.counter_2;
      keys = d.keys;
      processor = d.processor;
      end = d.end;
    } };

    ghost inverse = { λ d. record {
      counter_0 = d.counter_0;
      counter_2 = d.counter_2;
      keys = d.keys;
      processor = d.processor;
      end = d.end;
    } };
}

impl Deadlines {
    /// Deadlines of which none is set, for a board to set those of its parts.
    pub fn new() -> Deadlines
        ensures { result ≡ no_deadlines }
    {
        Deadlines {
            counter_0: None,
            counter_2: None,
            keys: None,
            processor: None,
            end: None,
        }
    }

    /// Sets the clock at which `source` is due next; `None` says that it isn't due.
    pub fn set(&mut self, source: Source, at: Option<Clock>)
        ensures { self.new ≡ with_deadline self.old source at }
    {
        match source {
            Source::Counter0 => self.counter_0 = at,
            Source::Counter2 => self.counter_2 = at,
            Source::Keys => self.keys = at,
            Source::Processor => self.processor = at,
            Source::End => self.end = at,
        }
    }

    /// The earliest clock at which a source is due, up to which the board may leap, and that source, the first in the
    /// sources' order if several are due then; `None` if no source has a deadline.
    pub fn next(&self) -> Option<(Clock, Source)>
        ensures { MatchOption result ((source : Source) → deadline_of self.now source ≡ None) (λ first. IsNext self.now
            first.0 first.1) }
    {
        self.least()
    }

    /// The soonest deadline, found by comparing one source after the other in order: the body of `next`.
    fn least(&self) -> Option<(Clock, Source)>
        ensures { result ≡ next_of self.now }
    {
        let least = sooner(None, self.counter_0, Source::Counter0);
        let least = sooner(least, self.counter_2, Source::Counter2);
        let least = sooner(least, self.keys, Source::Keys);
        let least = sooner(least, self.processor, Source::Processor);
        sooner(least, self.end, Source::End)
    }
}

/// The sooner of the best deadline so far and that of `source`, which is due at `at` or not at all; the best so far if
/// both are at one clock, since its source comes earlier in order.
fn sooner(
    first: Option<(Clock, Source)>,
    at: Option<Clock>,
    source: Source,
) -> Option<(Clock, Source)>
    ensures { result ≡ sooner first at source }
{
    let Some(at) = at else {
        return first;
    };
    match first {
        Some((clock, kept)) if clock.get() <= at.get() => Some((clock, kept)),
        _ => Some((at, source)),
    }
}
