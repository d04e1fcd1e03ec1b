//! The two widths of an operand.
ghost use Rattle.std.specs.Prelude.{◌≡◌, ◌<◌, ◌%◌};
ghost use Rattle.execute_machine.specs.Widths.{half_size, is_negative, size_of};

/// A byte or a word.
#[derive(Clone, Copy)]
pub enum Width {
    Byte,
    Word,
}

impl Width {
    /// How many values a width has, 256 or 65,536, so that arithmetic can tell what doesn't fit it.
    pub fn size(self) -> u32
        ensures { result ≡ size_of self }
    {
        match self {
            Width::Byte => 256,
            Width::Word => 65536,
        }
    }

    /// Half of a width's values, 128 or 32,768: from there on a value is negative as a signed one.
    pub fn half_size(self) -> u16
        ensures { result ≡ half_size self }
    {
        match self {
            Width::Byte => 128,
            Width::Word => 32768,
        }
    }

    /// Whether a value of this width is negative as a signed one, by which SF and OF are worked out.
    pub fn is_negative(self, value: u16) -> bool
        ensures { result ≡ is_negative self value }
    {
        value >= self.half_size()
    }

    /// Cuts a sum or a difference to this width, modulo 256 or 65,536, as an operand takes it.
    pub fn cut(self, number: u32) -> u16
        ensures value { result ≡ number % size_of self }
        ensures bound { result < size_of self }
    {
        match self {
            Width::Byte => (number % 256) as u16,
            Width::Word => (number % 65536) as u16,
        }
    }
}
