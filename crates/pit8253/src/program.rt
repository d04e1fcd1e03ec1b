//! What a control word programs a counter to do (Intel 8253 data sheet, "Control Word Format").

/// The mode: what a counter does with its count, its gate and its output.
#[derive(Clone, Copy, PartialEq)]
pub enum Mode {
    /// Mode 0, interrupt on terminal count.
    TerminalCount,
    /// Mode 1, programmable one-shot.
    OneShot,
    /// Mode 2, rate generator.
    RateGenerator,
    /// Mode 3, square wave rate generator.
    SquareWave,
    /// Mode 4, software triggered strobe.
    SoftwareStrobe,
    /// Mode 5, hardware triggered strobe.
    HardwareStrobe,
}

/// Which bytes of the count are written and read.
#[derive(Clone, Copy)]
pub enum Access {
    LowByte,
    HighByte,
    /// Two bytes, the low one first.
    LowThenHigh,
}

/// How a count is written in its sixteen bits.
#[derive(Clone, Copy)]
pub enum Radix {
    Binary,
    /// Four decimal digits, each in four bits.
    Decimal,
}

/// How far a count has come since the control word.
#[derive(Clone, Copy, PartialEq)]
pub enum Progress {
    /// No full count has been written.
    Awaited,
    /// A full count has been written, and none loaded.
    Written,
    /// A count has been loaded.
    Loaded,
}
