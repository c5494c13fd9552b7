//! Integers, packed: each takes 16 bits, up to the first that needs more, and 32 bits up to the first that needs more still.
ghost use Rattle.std.specs.Prelude.{◌≡◌, ◌<◌, ◌≤◌, ◌-◌, ◌++◌, ◌∷◌, [], length, map, pos, take, get_or, OnOk};
ghost use Rattle.proof_trim.specs.Integers.{part, signed, unsigned};

use crate::longer::LongerIntegers;
use std::alloc::{AllocError, Global};
use std::marker::Model;

/// Integers, nearly always small.
#[derive(Drop)]
pub(crate) struct Integers {
    /// Those before the first that 16 bits do not hold.
    short: Vec<i16>,
    /// That one and those after it.
    longer: LongerIntegers,
}

impl Model for Integers {
    ghost use Rattle.std.specs.Prelude.{List, ℤ, ◌++◌};

    ghost Value = { List ℤ };

    ghost view = { λ a. a.short.items ++ a.longer };
}

/// An id as an integer.
#[inline(always)]
pub(crate) fn signed(id: u64) -> i64
    ensures { result ≡ signed id }
{
    if id < 1 << 63 {
        id as i64
    } else {
        -((id - (1 << 63)) as i64) - 1
    }
}

/// The id of an integer.
#[inline(always)]
pub(crate) fn unsigned(integer: i64) -> u64
    ensures { result ≡ unsigned integer }
{
    if integer < 0 {
        ((-(integer + 1)) as u64) + (1 << 63)
    } else {
        integer as u64
    }
}

/// Copies integers of 16 bits to the first places of a list.
fn copy_short(from: &[i16], into: &mut [i64])
    requires room { length from.now ≤ length into.old }
    ensures copied { take (length from.now) into.new ≡ from.now }
{
    for place in 0..from.len() {
        into[place] = i64::from(from[place]);
    }
}

impl Integers {
    /// No integer yet.
    pub(crate) fn new(alloc: Global) -> Integers
        ensures { result ≡ [] }
    {
        Integers {
            short: Vec::new(alloc),
            longer: LongerIntegers::new(alloc),
        }
    }

    /// How many there are.
    pub(crate) fn len(&self) -> usize
        ensures { result ≡ length self.now }
    {
        self.short.len() + self.longer.len()
    }

    /// Puts an integer after the others.
    #[inline(always)]
    pub(crate) fn push(&mut self, integer: i64) -> Result<(), AllocError>
        ensures { OnOk result (self.new ≡ self.old ++ integer ∷ []) }
    {
        if self.longer.is_empty() && -32768 <= integer && integer < 32768 {
            self.short.push(integer as i16)?;
            Ok(())
        } else {
            self.longer.push(integer)
        }
    }

    /// Puts an id after the others.
    #[inline(always)]
    pub(crate) fn push_id(&mut self, id: u64) -> Result<(), AllocError>
        ensures { OnOk result (self.new ≡ self.old ++ signed id ∷ []) }
    {
        self.push(signed(id))
    }

    /// Puts integers after the others.
    // Most lists are so short that a call would cost as much.
    #[inline(always)]
    pub(crate) fn extend(&mut self, more: &[i64]) -> Result<(), AllocError>
        ensures { OnOk result (self.new ≡ self.old ++ more.now) }
    {
        for integer in more {
            self.push(*integer)?;
        }
        Ok(())
    }

    /// Puts ids after the others.
    pub(crate) fn extend_ids(&mut self, ids: &[u64]) -> Result<(), AllocError>
        ensures { OnOk result (self.new ≡ self.old ++ map signed ids.now) }
    {
        for id in ids {
            self.push_id(*id)?;
        }
        Ok(())
    }

    /// The integer at a place, from 0.
    #[inline(always)]
    pub(crate) fn at(&self, place: usize) -> i64
        requires { place < length self.now }
        ensures { result ≡ get_or self.now place (pos 0) }
    {
        if place < self.short.len() {
            i64::from(self.short[place])
        } else {
            self.longer.at(place - self.short.len())
        }
    }

    /// The id at a place, from 0.
    #[inline(always)]
    pub(crate) fn id_at(&self, place: usize) -> u64
        requires { place < length self.now }
        ensures { result ≡ unsigned (get_or self.now place (pos 0)) }
    {
        unsigned(self.at(place))
    }

    /// Takes all out.
    pub(crate) fn clear(&mut self)
        ensures { self.new ≡ [] }
    {
        self.short.clear();
        self.longer.clear();
    }

    /// Copies the integers from start up to end to the first places of a list.
    pub(crate) fn copy(&self, start: usize, end: usize, into: &mut Vec<i64>)
        requires low { start ≤ end }
        requires high { end ≤ length self.now }
        requires room { end - start ≤ length into.old.items }
        ensures copied { take (end - start) into.new.items ≡ part self.now start end }
        ensures room { length into.new.items ≡ length into.old.items }
    {
        let short = self.short.len();
        if end <= short {
            copy_short(&self.short[start..end], into);
        } else if short <= start {
            self.longer.copy(start - short, end - short, into);
        } else {
            for place in start..end {
                into[place - start] = self.at(place);
            }
        }
    }

    /// Copies the ids from start up to end to the first places of a list.
    pub(crate) fn copy_ids(&self, start: usize, end: usize, into: &mut Vec<u64>)
        requires low { start ≤ end }
        requires high { end ≤ length self.now }
        requires room { end - start ≤ length into.old.items }
        ensures copied { take (end - start) into.new.items ≡ map unsigned (part self.now start end) }
        ensures room { length into.new.items ≡ length into.old.items }
    {
        for place in start..end {
            into[place - start] = self.id_at(place);
        }
    }
}
