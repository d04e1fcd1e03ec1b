//! The registers that an instruction can name (8086 Family User's Manual, "REG field encoding").
ghost use Rattle.std.specs.Prelude.{◌≡◌, ◌<◌};
ghost use Rattle.isa.specs.RegisterNumbers.{byte_register_number, byte_register_of, segment_register_number, segment_register_of, word_register_number, word_register_of};

/// A byte register, numbered 0 to 7 in this order.
#[derive(Clone, Copy)]
pub enum ByteRegister {
    Al,
    Cl,
    Dl,
    Bl,
    Ah,
    Ch,
    Dh,
    Bh,
}

impl ByteRegister {
    /// The byte register with this number in an instruction; BH if the number is over 7.
    pub fn numbered(number: u8) -> ByteRegister
        ensures value { result ≡ byte_register_of number }
        ensures again { number < 8 → byte_register_number result ≡ number }
    {
        match number {
            0 => ByteRegister::Al,
            1 => ByteRegister::Cl,
            2 => ByteRegister::Dl,
            3 => ByteRegister::Bl,
            4 => ByteRegister::Ah,
            5 => ByteRegister::Ch,
            6 => ByteRegister::Dh,
            _ => ByteRegister::Bh,
        }
    }

    /// The number by which an instruction's bytes name the register.
    pub fn number(self) -> u8
        ensures { result ≡ byte_register_number self }
    {
        match self {
            ByteRegister::Al => 0,
            ByteRegister::Cl => 1,
            ByteRegister::Dl => 2,
            ByteRegister::Bl => 3,
            ByteRegister::Ah => 4,
            ByteRegister::Ch => 5,
            ByteRegister::Dh => 6,
            ByteRegister::Bh => 7,
        }
    }
}

/// A word register, numbered 0 to 7 in this order.
#[derive(Clone, Copy)]
pub enum WordRegister {
    Ax,
    Cx,
    Dx,
    Bx,
    Sp,
    Bp,
    Si,
    Di,
}

impl WordRegister {
    /// The word register with this number in an instruction; DI if the number is over 7.
    pub fn numbered(number: u8) -> WordRegister
        ensures value { result ≡ word_register_of number }
        ensures again { number < 8 → word_register_number result ≡ number }
    {
        match number {
            0 => WordRegister::Ax,
            1 => WordRegister::Cx,
            2 => WordRegister::Dx,
            3 => WordRegister::Bx,
            4 => WordRegister::Sp,
            5 => WordRegister::Bp,
            6 => WordRegister::Si,
            _ => WordRegister::Di,
        }
    }

    /// The number by which an instruction's bytes name the register.
    pub fn number(self) -> u8
        ensures { result ≡ word_register_number self }
    {
        match self {
            WordRegister::Ax => 0,
            WordRegister::Cx => 1,
            WordRegister::Dx => 2,
            WordRegister::Bx => 3,
            WordRegister::Sp => 4,
            WordRegister::Bp => 5,
            WordRegister::Si => 6,
            WordRegister::Di => 7,
        }
    }
}

/// A segment register, numbered 0 to 3 in this order.
#[derive(Clone, Copy)]
pub enum SegmentRegister {
    Es,
    Cs,
    Ss,
    Ds,
}

impl SegmentRegister {
    /// The segment register with this number in an instruction; DS if the number is over 3.
    pub fn numbered(number: u8) -> SegmentRegister
        ensures value { result ≡ segment_register_of number }
        ensures again { number < 4 → segment_register_number result ≡ number }
    {
        match number {
            0 => SegmentRegister::Es,
            1 => SegmentRegister::Cs,
            2 => SegmentRegister::Ss,
            _ => SegmentRegister::Ds,
        }
    }

    /// The number by which an instruction's bytes name the register.
    pub fn number(self) -> u8
        ensures { result ≡ segment_register_number self }
    {
        match self {
            SegmentRegister::Es => 0,
            SegmentRegister::Cs => 1,
            SegmentRegister::Ss => 2,
            SegmentRegister::Ds => 3,
        }
    }
}
