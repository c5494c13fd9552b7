//! Integers of 32 bits, up to the first that needs more.
ghost use Rattle.std.specs.Prelude.{◌≡◌, ◌<◌, ◌≤◌, ◌-◌, ◌^◌, ◌++◌, ◌∷◌, [], nat_eq, length, pos, take, get_or, OnOk};
ghost use Rattle.proof_trim.specs.Integers.{part};

use std::alloc::{AllocError, Global};
use std::marker::Model;

/// Integers each of which takes 32 bits, up to the first that needs more.
#[derive(Drop)]
pub(crate) struct LongerIntegers {
    /// Those before the first that 32 bits do not hold.
    narrow: Vec<i32>,
    /// That one and those after it.
    wide: Vec<i64>,
}

impl Model for LongerIntegers {
    ghost use Rattle.std.specs.Prelude.{List, ℤ, ◌++◌, ◌+◌, ◌<◌, ◌^◌, length};

    ghost Value = { List ℤ };

    ghost view = { λ a. a.narrow.items ++ a.wide.items };

    ghost invariant = { λ a. length a.narrow.items + length a.wide.items < 2 ^ 63 };
}

/// Copies integers of 32 bits to the first places of a list.
fn copy_narrow(from: &[i32], into: &mut [i64])
    requires room { length from.now ≤ length into.old }
    ensures copied { take (length from.now) into.new ≡ from.now }
{
    for place in 0..from.len() {
        into[place] = i64::from(from[place]);
    }
}

impl LongerIntegers {
    /// No integer yet.
    pub(crate) fn new(alloc: Global) -> LongerIntegers
        ensures { result ≡ [] }
    {
        LongerIntegers {
            narrow: Vec::new(alloc),
            wide: Vec::new(alloc),
        }
    }

    /// How many there are.
    #[inline(always)]
    pub(crate) fn len(&self) -> usize
        ensures count { result ≡ length self.now }
        ensures few { result < 2 ^ 63 }
    {
        self.narrow.len() + self.wide.len()
    }

    /// Whether there is none.
    #[inline(always)]
    pub(crate) fn is_empty(&self) -> bool
        ensures { result ≡ nat_eq (length self.now) 0 }
    {
        self.narrow.is_empty() && self.wide.is_empty()
    }

    /// Puts an integer after the others.
    #[inline(always)]
    pub(crate) fn push(&mut self, integer: i64) -> Result<(), AllocError>
        ensures { OnOk result (self.new ≡ self.old ++ integer ∷ []) }
    {
        if self.wide.is_empty() && -2147483648 <= integer && integer < 2147483648 {
            self.narrow.push(integer as i32)?;
            Ok(())
        } else if self.len() < 1 << 62 {
            // No memory holds more of them, and so their number always fits.
            self.wide.push(integer)?;
            Ok(())
        } else {
            Err(AllocError)
        }
    }

    /// The integer at a place, from 0.
    #[inline(always)]
    pub(crate) fn at(&self, place: usize) -> i64
        requires { place < length self.now }
        ensures { result ≡ get_or self.now place (pos 0) }
    {
        if place < self.narrow.len() {
            i64::from(self.narrow[place])
        } else {
            self.wide[place - self.narrow.len()]
        }
    }

    /// Copies the integers from start up to end to the first places of a list.
    pub(crate) fn copy(&self, start: usize, end: usize, into: &mut Vec<i64>)
        requires low { start ≤ end }
        requires high { end ≤ length self.now }
        requires room { end - start ≤ length into.old.items }
        ensures copied { take (end - start) into.new.items ≡ part self.now start end }
        ensures room { length into.new.items ≡ length into.old.items }
    {
        if end <= self.narrow.len() {
            copy_narrow(&self.narrow[start..end], into);
        } else {
            for place in start..end {
                into[place - start] = self.at(place);
            }
        }
    }

    /// Takes all out.
    pub(crate) fn clear(&mut self)
        ensures { self.new ≡ [] }
    {
        self.narrow.clear();
        self.wide.clear();
    }
}
