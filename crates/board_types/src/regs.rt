//! The 8086's register file (8086 Family User's Manual, "General Registers" to "Flags").
ghost use Rattle.std.specs.Prelude.{◌≡◌, ◌≤◌};
ghost use Rattle.board_types.specs.FlagsWord.{flag_bit, flags_word};

/// The nine flags.
#[derive(Clone, Copy, Debug, PartialEq, Eq, Default)]
pub struct Flags {
    /// CF
    pub carry: bool,
    /// PF
    pub parity: bool,
    /// AF
    pub auxiliary_carry: bool,
    /// ZF
    pub zero: bool,
    /// SF
    pub sign: bool,
    /// TF
    pub trap: bool,
    /// IF
    pub interrupt_enable: bool,
    /// DF
    pub direction: bool,
    /// OF
    pub overflow: bool,
}

impl Flags {
    /// The flags word as PUSHF or an interrupt pushes it, and as reports show it: bits 15 to 12 and 1 are set, 5 and 3
    /// clear.
    pub fn word(self) -> u16
        ensures { result ≡ flags_word self }
    {
        0xF002
            + flag_bit(self.carry, 1)
            + flag_bit(self.parity, 1 << 2)
            + flag_bit(self.auxiliary_carry, 1 << 4)
            + flag_bit(self.zero, 1 << 6)
            + flag_bit(self.sign, 1 << 7)
            + flag_bit(self.trap, 1 << 8)
            + flag_bit(self.interrupt_enable, 1 << 9)
            + flag_bit(self.direction, 1 << 10)
            + flag_bit(self.overflow, 1 << 11)
    }
}

/// What a flag adds to the flags word: `value`, the worth of its bit, if it is set, else 0.
fn flag_bit(flag: bool, value: u16) -> u16
    ensures value { result ≡ flag_bit flag value }
    ensures bound { result ≤ value }
{
    if flag { value } else { 0 }
}

/// The general registers, the segment registers, IP and the flags.
#[derive(Clone, Copy, Debug, PartialEq, Eq, Default)]
pub struct Regs {
    pub ax: u16,
    pub cx: u16,
    pub dx: u16,
    pub bx: u16,
    pub sp: u16,
    pub bp: u16,
    pub si: u16,
    pub di: u16,
    pub es: u16,
    pub cs: u16,
    pub ss: u16,
    pub ds: u16,
    pub ip: u16,
    pub flags: Flags,
}
