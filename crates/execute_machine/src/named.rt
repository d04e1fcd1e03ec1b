//! The registers by their names.
ghost use Rattle.std.specs.Prelude.{◌≡◌};

use crate::registers::{Registers, segment, set_segment, set_word, word};
use isa::register::{SegmentRegister, WordRegister};

#[tactic(auto, unfolding(crate::specs::Registers::word_register, crate::specs::Registers::with_word_register, crate::specs::Registers::segment_register, crate::specs::Registers::with_segment_register))]
impl Registers {
    /// AX, which products, adjustments, strings, XLAT and OUT use without naming it as an operand.
    #[inline(always)]
    pub fn ax(&self) -> u16
        ensures { result ≡ self.now.ax }
    {
        word(self, WordRegister::Ax)
    }

    /// Puts a word into AX, for products, adjustments, LODS and IN.
    #[inline(always)]
    pub fn set_ax(&mut self, word: u16)
        ensures { self.new ≡ record self.old { ax = word } }
    {
        set_word(self, WordRegister::Ax, word);
    }

    /// CX, which counts loops and repeats, and whose low byte counts the places of a shift.
    #[inline(always)]
    pub fn cx(&self) -> u16
        ensures { result ≡ self.now.cx }
    {
        word(self, WordRegister::Cx)
    }

    /// Puts a word into CX, which loops and repeats count down.
    #[inline(always)]
    pub fn set_cx(&mut self, word: u16)
        ensures { self.new ≡ record self.old { cx = word } }
    {
        set_word(self, WordRegister::Cx, word);
    }

    /// DX, the port of an IN or OUT, and the high word of a dividend.
    #[inline(always)]
    pub fn dx(&self) -> u16
        ensures { result ≡ self.now.dx }
    {
        word(self, WordRegister::Dx)
    }

    /// Puts a word into DX, for a product's high word, a remainder, and CWD.
    #[inline(always)]
    pub fn set_dx(&mut self, word: u16)
        ensures { self.new ≡ record self.old { dx = word } }
    {
        set_word(self, WordRegister::Dx, word);
    }

    /// BX, a base of addresses, and where XLAT's table begins.
    #[inline(always)]
    pub fn bx(&self) -> u16
        ensures { result ≡ self.now.bx }
    {
        word(self, WordRegister::Bx)
    }

    /// SP, the offset of the stack's top word.
    #[inline(always)]
    pub fn sp(&self) -> u16
        ensures { result ≡ self.now.sp }
    {
        word(self, WordRegister::Sp)
    }

    /// Puts a word into SP, for pushes and pops.
    #[inline(always)]
    pub fn set_sp(&mut self, word: u16)
        ensures { self.new ≡ record self.old { sp = word } }
    {
        set_word(self, WordRegister::Sp, word);
    }

    /// BP, a base of addresses, mostly of those in the stack segment.
    #[inline(always)]
    pub fn bp(&self) -> u16
        ensures { result ≡ self.now.bp }
    {
        word(self, WordRegister::Bp)
    }

    /// SI, an index of addresses, and the offset of a string's source.
    #[inline(always)]
    pub fn si(&self) -> u16
        ensures { result ≡ self.now.si }
    {
        word(self, WordRegister::Si)
    }

    /// Puts a word into SI, for string instructions, which move it on.
    #[inline(always)]
    pub fn set_si(&mut self, word: u16)
        ensures { self.new ≡ record self.old { si = word } }
    {
        set_word(self, WordRegister::Si, word);
    }

    /// DI, an index of addresses, and the offset of a string's destination.
    #[inline(always)]
    pub fn di(&self) -> u16
        ensures { result ≡ self.now.di }
    {
        word(self, WordRegister::Di)
    }

    /// Puts a word into DI, for string instructions, which move it on.
    #[inline(always)]
    pub fn set_di(&mut self, word: u16)
        ensures { self.new ≡ record self.old { di = word } }
    {
        set_word(self, WordRegister::Di, word);
    }

    /// ES, the segment of a string's destination.
    #[inline(always)]
    pub fn es(&self) -> u16
        ensures { result ≡ self.now.es }
    {
        segment(self, SegmentRegister::Es)
    }

    /// CS, the segment of the next instruction.
    #[inline(always)]
    pub fn cs(&self) -> u16
        ensures { result ≡ self.now.cs }
    {
        segment(self, SegmentRegister::Cs)
    }

    /// Puts a word into CS, for far jumps, calls and returns, and for the entry of an interrupt.
    #[inline(always)]
    pub fn set_cs(&mut self, word: u16)
        ensures { self.new ≡ record self.old { cs = word } }
    {
        set_segment(self, SegmentRegister::Cs, word);
    }

    /// SS, the segment of the stack.
    #[inline(always)]
    pub fn ss(&self) -> u16
        ensures { result ≡ self.now.ss }
    {
        segment(self, SegmentRegister::Ss)
    }
}
