//! What keeps each unassigned variable in the heap, and what has one answer.
ghost use Rattle.std.specs.Prelude.{◌≡◌, ◌+◌, ◌++◌, ◌≤◌, ℕ, [], ◌∷◌, List, Option};
ghost use Rattle.cx_base.specs.Literals.{Literal};
ghost use Rattle.cx_trail.specs.Sequence.{TrailState, pushed};
ghost use Rattle.cx_trail.specs.declared.entry.Reason.{Reason};
ghost use Rattle.cx_trail.specs.declared.entry.Entry.{Entry};
ghost use Rattle.search_policy.specs.Scores.{Picks};
ghost use Rattle.search_policy.specs.Restarts.{IsLuby};
ghost use Rattle.search_policy.specs.Standing.{OrderState, AllStand, new_order};

/// A new order has all variables.
pub fn new_order_stands()
    ensures { (t : TrailState) → AllStand (new_order t.variables) t }
{}

/// A literal more on the trail.
pub fn longer_trail_stands()
    ensures { (o : OrderState) (t : TrailState) (level : ℕ) (l : Literal) (reason : Reason)
        → AllStand o t → AllStand o (pushed t level l reason) }
{}

/// There is one best variable: the scan and the heap pick the same.
pub fn picks_are_one()
    ensures { (n : ℕ) (scores : List ℕ) (entries : List Entry) (a b : Option ℕ)
        → Picks n scores entries a → Picks n scores entries b → a ≡ b }
{}

/// Luby's sequence has one number at each place.
pub fn luby_is_one()
    ensures { (i a b : ℕ) → IsLuby i a → IsLuby i b → a ≡ b }
{}
