//! Executes the words that move or select the pointers P and Q.

ghost use Rattle.std.specs.Prelude.{◌≡◌, ◌<◌};
ghost use Rattle.h41_nut.specs.Pointers as spec;

use crate::cpu::Cpu;
use h41_digits::PLACES;
use h41_fields::Pointer;

impl Cpu {
    /// Returns the digit position, 0 (the rightmost) to 13, to which the active pointer is set.
    pub(crate) fn pointer(&self) -> usize
        ensures place { result ≡ spec.pointer_of self.now }
        ensures bound { result < 14 }
    {
        match self.active {
            Pointer::P => self.p,
            Pointer::Q => self.q,
        }
    }

    /// Executes `R= n`, `R=R+1` and `R=R-1`: sets the active pointer to a digit position, 0 (the rightmost) to 13.
    pub(crate) fn set_pointer(&mut self, place: usize)
        requires { place < 14 }
        ensures { self.new ≡ spec.with_pointer place self.old }
    {
        match self.active {
            Pointer::P => self.p = place,
            Pointer::Q => self.q = place,
        }
    }

    /// Executes `SLCT P` and `SLCT Q`: makes a pointer the active one.
    pub(crate) fn select_pointer(&mut self, pointer: Pointer)
        ensures { self.new ≡ spec.with_active pointer self.old }
    {
        self.active = pointer;
    }
}

/// Returns the digit position to the left of another, 0 to 13. To the left of 13 it is 0.
pub(crate) fn place_above(place: usize) -> usize
    requires { place < 14 }
    ensures value { result ≡ spec.place_above place }
    ensures bound { result < 14 }
{
    if place == PLACES - 1 { 0 } else { place + 1 }
}

/// Returns the digit position to the right of another, 0 to 13. To the right of 0 it is 13.
pub(crate) fn place_below(place: usize) -> usize
    requires { place < 14 }
    ensures value { result ≡ spec.place_below place }
    ensures bound { result < 14 }
{
    if place == 0 { PLACES - 1 } else { place - 1 }
}
