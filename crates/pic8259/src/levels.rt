//! A set of interrupt levels.
ghost use Rattle.std.specs.Prelude.{◌≡◌, ◌<◌, ◌&&◌, ◌↔◌, IsTrue, length, map, not};
ghost use Rattle.pic8259.specs.Levels.{all_levels, no_levels, contains, with_level, without_level, byte_of, levels_of};
ghost use Rattle.pic8259.specs.Masks.{in_both};

use board_types::bits::bit;
use std::marker::Model;

/// A set of the eight levels IR0 to IR7.
#[derive(Clone, Copy)]
pub struct LevelSet {
    /// Bit n is 1 if level n is in the set.
    mask: u8,
}

impl Model for LevelSet {
    ghost use Rattle.std.specs.Prelude.{◌<◌};
    ghost use Rattle.pic8259.specs.Levels.{Levels, levels_of, byte_of};
    ghost use Rattle.pic8259.specs.Masks.{byte_of-levels_of};
    ghost use Rattle.std.proofs.Common.{ap};

    ghost Value = { Levels };

    ghost view = { λ s. levels_of s.mask };

    ghost invariant = { λ s. s.mask < 256 };

    ghost inverse = { λ set. record { mask = byte_of set } };

    ghost inverse_ok = { λ s h. ap (λ n. record { mask = n }) (byte_of-levels_of s.mask h) };
}

impl LevelSet {
    /// Makes the set of the levels whose bits are 1 in `byte`: of a mask that a program writes, or a set in an image.
    pub fn from_byte(byte: u8) -> LevelSet
        ensures { result ≡ levels_of byte }
    {
        LevelSet { mask: byte }
    }

    /// The byte whose bits at the levels of this set are 1, and the others 0: what a read of the mask, the requests or
    /// the levels in service gives.
    #[tactic(auto, using(crate::proofs::Masks::byte_of_levels))]
    pub fn byte(self) -> u8
        ensures byte { result ≡ byte_of self }
        ensures levels { levels_of result ≡ self }
    {
        self.mask
    }

    /// Tells the proofs of `Pic::write` and `Pic::acknowledge` that the set has a place for each of the eight levels;
    /// the code does nothing.
    #[inline(always)]
    pub(crate) fn has_eight(self)
        ensures { length self ≡ 8 }
    {
        let _ = &self.mask;
    }

    /// Whether `level` is in the set.
    #[tactic(auto, using(crate::proofs::Masks::contains_levels))]
    pub fn contains(self, level: u8) -> bool
        requires { level < 8 }
        ensures { result ≡ contains self level }
    {
        bit(self.mask, level)
    }

    /// Puts `level`, below 8, into the set, such as that of the levels in service.
    #[tactic(auto, using(crate::proofs::Masks::levels_with))]
    pub fn insert(&mut self, level: u8)
        requires { level < 8 }
        ensures { self.new ≡ with_level self.old level }
    {
        self.mask |= 1 << level;
    }

    /// Takes `level`, below 8, out of the set, such as that of the levels in service.
    #[tactic(auto, using(crate::proofs::Masks::levels_without))]
    pub fn remove(&mut self, level: u8)
        requires { level < 8 }
        ensures { self.new ≡ without_level self.old level }
    {
        self.mask &= !(1 << level);
    }

    /// The levels that are in both sets: in edge mode those that are high and have risen are the requests.
    #[tactic(auto, using(crate::proofs::Masks::levels_in_both))]
    pub fn intersection(self, other: LevelSet) -> LevelSet
        ensures { result ≡ in_both self other }
    {
        LevelSet {
            mask: self.mask & other.mask,
        }
    }

    /// The levels of this set that aren't in `other`: of the requests, those that aren't masked.
    #[tactic(auto, using(crate::proofs::Masks::levels_in_first))]
    pub fn difference(self, other: LevelSet) -> LevelSet
        ensures { result ≡ map (λ level. contains self level && not (contains other level)) all_levels }
    {
        LevelSet {
            mask: self.mask & !other.mask,
        }
    }

    /// Whether no level is in the set; if none requests or is in service, the controller needn't go through the order
    /// of priority.
    #[tactic(auto, using(crate::proofs::Masks::levels_of_none))]
    pub fn is_empty(self) -> bool
        ensures { IsTrue result ↔ self ≡ no_levels }
    {
        self.mask == 0
    }
}
