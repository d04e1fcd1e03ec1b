//! What a board is built with, as far as there is a choice.

/// Which chip the timer is.
#[derive(Clone, Copy, Debug, PartialEq, Eq)]
pub enum TimerKind {
    /// The Intel 8253.
    I8253,
    /// The Intel 8254: an 8253 with the read-back command, whose mode 3 counts odd numbers differently.
    I8254,
}

/// The table by which the clocks of a step, and of an interrupt's entry, are counted.
#[derive(Clone, Copy, Debug, PartialEq, Eq)]
pub enum ClockTable {
    /// The clocks of the encoding table, those of an interrupt's entry among them.
    C1,
    /// The clocks of C1, and 4 more for each word of data that a step or an entry reads or writes in memory, as on an
    /// 8088 (8086 Family User's Manual, "Instruction Set Reference Data").
    C2,
}
