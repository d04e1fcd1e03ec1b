//! The words of a step.
ghost use Rattle.std.specs.Prelude.{◌<◌, ◌^◌, IfSome};

use board_types::address::ADDRESS_COUNT;
use board_types::choice::{ClockTable, TimerKind};
use board_types::clock::Clock;

/// The words of a step that are still to be read.
#[derive(Clone, Copy)]
pub struct Words<'a>(pub &'a str);

impl<'a> Words<'a> {
    /// Reads the next word of a step, and leaves those after it to be read; `None` if there is none.
    pub fn word(&mut self) -> Option<&'a str> {
        let text = self.0.trim();
        if text.is_empty() {
            return None;
        }
        let (word, rest) = text.split_once(' ').unwrap_or((text, ""));
        self.0 = rest;
        Some(word)
    }

    /// Reads the next word as a port, or CS or IP, in hexadecimal.
    pub fn port(&mut self) -> Option<u16> {
        u16::from_str_radix(self.word()?, 16).ok()
    }

    /// Reads the next word as a byte, in hexadecimal.
    pub fn byte(&mut self) -> Option<u8> {
        u8::from_str_radix(self.word()?, 16).ok()
    }

    /// Reads the next word as a physical address, in hexadecimal; `None` if it isn't below 100000h.
    pub fn address(&mut self) -> Option<u32>
        ensures { IfSome result (λ addr. addr < 2 ^ 20) }
    {
        let addr = u32::from_str_radix(self.word()?, 16).ok()?;
        (addr < ADDRESS_COUNT).then_some(addr)
    }

    /// Reads the next word as a count, of clocks or keys for example, in decimal.
    pub fn count(&mut self) -> Option<u64> {
        self.word()?.parse::<u64>().ok()
    }

    /// Reads the next word as a size of RAM in KB, in decimal.
    pub fn size(&mut self) -> Option<u16> {
        u16::try_from(self.count()?).ok()
    }

    /// Reads the next word as an index or a number of bytes, in decimal.
    pub fn index(&mut self) -> Option<usize> {
        self.word()?.parse::<usize>().ok()
    }

    /// Reads the next word as a clock, in decimal; `None` if there is no such clock.
    pub fn clock(&mut self) -> Option<Clock> {
        Clock::new(self.count()?)
    }

    /// Reads the next word as a level: whether it is high (`H`) and not low (`L`).
    pub fn high(&mut self) -> Option<bool> {
        match self.word()? {
            "H" => Some(true),
            "L" => Some(false),
            _ => None,
        }
    }

    /// Reads the next word as a timer, by its number, for the step that chooses the board's timer.
    pub fn timer(&mut self) -> Option<TimerKind> {
        match self.word()? {
            "8253" => Some(TimerKind::I8253),
            "8254" => Some(TimerKind::I8254),
            _ => None,
        }
    }

    /// Reads the next word as a table of clocks, by its name, for the step that chooses the board's table.
    pub fn clocks(&mut self) -> Option<ClockTable> {
        match self.word()? {
            "C1" => Some(ClockTable::C1),
            "C2" => Some(ClockTable::C2),
            _ => None,
        }
    }

    /// Whether the screen's text has 25 lines of 80 characters, and the line of this number, from 0, is the quoted text
    /// and spaces, as the step `screen` says.
    pub fn are_shown(&mut self, screen: &str) -> Option<bool> {
        let number = usize::try_from(self.count()?).ok()?;
        let wanted = self.0.trim().strip_prefix('\'')?.strip_suffix('\'')?;
        let line = screen.split('\n').nth(number)?;
        Some(screen.len() == 2025 && line.len() == 80 && line.trim_end() == wanted)
    }

    /// Whether the screen has the quoted text in the line of this number and no other text, as the step `alone` says.
    pub fn are_alone(&mut self, screen: &str) -> Option<bool> {
        let mut words = *self;
        let _number = words.word()?;
        let wanted = words.0.trim().strip_prefix('\'')?.strip_suffix('\'')?;
        Some(screen.trim() == wanted.trim() && self.are_shown(screen)?)
    }
}
