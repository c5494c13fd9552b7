//! Variables by their scores.
ghost use Rattle.std.specs.Prelude.{◌≡◌, ◌<◌, ◌≤◌, ◌+◌, ◌-◌, ℕ, List, length, IfOk};
ghost use Rattle.cx_base.specs.declared.literal.TheConstants.{MAX_VARIABLE};
ghost use Rattle.cx_trail.specs.Sequence.{TrailState, TakesBack};
ghost use Rattle.search_policy.specs.Scores.{Picks};
ghost use Rattle.search_policy.specs.Standing.{OrderState, AllStand, new_order, bumped, bumped_times, grown};
ghost use Rattle.search_policy.specs.Heaps.{item_at};

use crate::heap::{Heap, put_back, rebuild, settle, sift_up};
use crate::scan::scan;
use crate::scores::{MAX_BUMPS, raise};
use cx_base::Var;
use cx_trail::Trail;
use std::alloc::{AllocError, Global};
use std::marker::Model;

/// The weight that an order begins with.
const FIRST_WEIGHT: u32 = 1024;

/// What part of the weight it grows by at a conflict.
const GROWTH: u32 = 32;

/// A score for each variable, a heap of variables by score, and the weight that bumps have by now.
///
/// A weight that grows lets later conflicts count for more than earlier ones (VSIDS with whole numbers, `MiniSat` 2003).
/// It takes its memory when it is made.
#[derive(Drop)]
pub struct Order {
    scores: Vec<u32>,
    heap: Heap,
    count: usize,
    weight: u32,
}

impl Model for Order {
    ghost use Rattle.std.specs.Prelude.{List, ℕ, length, map, nat_lt, ◌≤◌, ◌<◌};
    ghost use Rattle.std.specs.List.{All};
    ghost use Rattle.cx_base.specs.declared.literal.TheConstants.{MAX_VARIABLE};
    ghost use Rattle.search_policy.specs.Standing.{OrderState};

    ghost Value = { OrderState };

    ghost use Rattle.search_policy.specs.declared.scores.TheConstants.{SCORE_LIMIT, MAX_BUMPS};
    ghost use Rattle.search_policy.specs.Heaps.{IsOrder};

    ghost view = { λ o. record { scores = o.scores.items; standing = map (λ p. nat_lt p o.count) o.heap.places.items; weight = o.weight } };

    ghost invariant = { λ o. (length o.scores.items ≤ MAX_VARIABLE) × All (λ s. s < SCORE_LIMIT) o.scores.items
        × IsOrder o.scores.items o.heap.cells.items o.heap.places.items o.count × (o.weight ≤ MAX_BUMPS) };
}

impl Order {
    /// All scores 0, and all variables in the heap.
    pub fn make(alloc: Global, vars: u32) -> Result<Order, AllocError>
        requires { vars ≤ MAX_VARIABLE }
        ensures { IfOk result (λ o. o ≡ new_order vars) }
    {
        let scores = vec![in alloc; 0; vars as usize]?;
        let mut cells = Vec::with_capacity(alloc, vars as usize)?;
        let mut places = Vec::with_capacity(alloc, vars as usize)?;
        for index in 0..vars {
            cells.push(index)?;
            places.push(index)?;
        }
        Ok(Order {
            scores,
            heap: Heap { cells, places },
            count: vars as usize,
            weight: FIRST_WEIGHT,
        })
    }

    /// The unassigned variable of the greatest score, of several the least, by a look at each variable.
    pub fn pick(&self, trail: &Trail) -> Option<Var>
        requires { length self.now.scores ≡ trail.now.variables }
        ensures { Picks (length self.now.scores) self.now.scores trail.now.entries result }
    {
        scan(self.scores.as_slice(), trail)
    }

    /// The variable that `pick` gives, from the heap. Assigned variables that come before it leave the heap.
    pub fn pick_from_heap(&mut self, trail: &Trail) -> Option<Var>
        requires { AllStand self.old trail.now }
        ensures picks { Picks (length self.old.scores) self.old.scores trail.now.entries result }
        ensures scores { self.new.scores ≡ self.old.scores }
        ensures weight { self.new.weight ≡ self.old.weight }
        ensures stand { AllStand self.new trail.now }
    {
        let count = settle(self.scores.as_slice(), &mut self.heap, self.count, trail);
        self.count = count;
        if count == 0 {
            None
        } else {
            Some(Var::new(self.heap.cells[0] + 1))
        }
    }

    /// Puts the variables of higher levels back into the heap. It is called before the trail goes back.
    ///
    /// Its time is in what the trail will take back.
    pub fn back_to(&mut self, trail: &Trail, level: u32)
        requires { AllStand self.old trail.now }
        ensures scores { self.new.scores ≡ self.old.scores }
        ensures weight { self.new.weight ≡ self.old.weight }
        ensures stand { AllStand self.new trail.now }
        ensures back { (t : TrailState) → TakesBack level trail.now t → AllStand self.new t }
    {
        self.count = put_back(
            self.scores.as_slice(),
            &mut self.heap,
            self.count,
            trail,
            level,
        );
    }

    /// Adds 1 to a score. Where it reaches 1,000,000,000 all scores and the weight are halved, rounded down.
    pub fn bump(&mut self, variable: Var)
        requires low { 1 ≤ variable }
        requires high { variable ≤ length self.old.scores }
        ensures { self.new ≡ bumped self.old variable }
    {
        self.bump_by(variable, 1);
    }

    /// Bumps a variable this many times, up to 250,000,000, as if one by one.
    ///
    /// Its time is that of one bump.
    pub fn bump_by(&mut self, variable: Var, times: u32)
        requires low { 1 ≤ variable }
        requires high { variable ≤ length self.old.scores }
        requires few { times ≤ MAX_BUMPS }
        ensures bumped { self.new ≡ bumped_times self.old variable times }
        ensures standing { self.new.standing ≡ self.old.standing }
        ensures count { length self.new.scores ≡ length self.old.scores }
    {
        let index = variable.number() as usize - 1;
        if raise(&mut self.scores, index, times) {
            self.weight /= 2;
            rebuild(self.scores.as_slice(), &mut self.heap, self.count);
            return;
        }
        let place = self.heap.places[index] as usize;
        if place < self.count {
            sift_up(self.scores.as_slice(), &mut self.heap, self.count, place);
        }
    }

    /// How many bumps a variable of the next conflict is given: 1,024 at first, and at most 250,000,000.
    pub fn weight(&self) -> u32
        ensures weight { result ≡ self.now.weight }
        ensures few { result ≤ MAX_BUMPS }
    {
        self.weight
    }

    /// The weight grows by a thirty-second, rounded down. It is called after each conflict.
    pub fn grow(&mut self)
        ensures { self.new ≡ record self.old { weight = grown self.old.weight } }
    {
        self.weight = (self.weight + self.weight / GROWTH).min(MAX_BUMPS);
    }
}
