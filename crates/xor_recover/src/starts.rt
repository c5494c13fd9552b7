//! Where clauses start: at their two least variables.
//!
//! The clauses of one parity start alike. Clauses in order of their starts are in order of all their variables, but for
//! those that start alike; where there are no parities most clauses start like no other.
ghost use Rattle.std.specs.Prelude.{◌≡◌, ◌<◌, ◌≤◌, ℕ, min, max, length, slice_index_or, MatchOption, []};
ghost use Rattle.std.specs.List.{AllByRecursion};
ghost use Rattle.cx_base.specs.Problem.{AreWithin};
ghost use Rattle.cx_base.specs.declared.literal.TheConstants.{MAX_VARIABLE};
ghost use Rattle.xor_recover.specs.Rows.{rows_if, gathered};
ghost use Rattle.xor_recover.specs.Starts.{Begins, pair_of};
ghost use Rattle.xor_recover.specs.declared.starts.Start.{Start};

use cx_base::Lit;

/// A clause's two least variables, and its number.
#[derive(Clone, Copy, Drop)]
pub(crate) struct Start {
    // The second variable is stored before the first, so that both are read at once as `pair`.
    pub second: u32,
    pub first: u32,
    pub number: u64,
}

/// The lesser of two variables.
fn lesser(a: u32, b: u32) -> u32
    ensures { result ≡ min a b }
{
    a.min(b)
}

/// The greater of two variables.
fn greater(a: u32, b: u32) -> u32
    ensures { result ≡ max a b }
{
    a.max(b)
}

impl Start {
    /// The start of a clause of two or more variables.
    pub fn of(lits: &[Lit], number: u64) -> Option<Start>
        requires { AreWithin MAX_VARIABLE lits.now }
        ensures { MatchOption result (rows_if (gathered [] lits.now) number ≡ []) (λ s. (s.number ≡ number) × (s.second < 4294967296) × AllByRecursion (Begins s) (rows_if (gathered [] lits.now) number)) }
    {
        let mut first = u32::MAX;
        let mut second = u32::MAX;
        for lit in lits {
            let variable = lit.var().number();
            if variable != first {
                second = lesser(second, greater(first, variable));
                first = lesser(first, variable);
            }
        }
        if second == u32::MAX {
            None
        } else {
            Some(Start {
                first,
                second,
                number,
            })
        }
    }

    /// Both variables as one number, which a sort compares at once.
    pub fn pair(self) -> u64
        ensures { result ≡ pair_of self }
    {
        self.first as u64 * 4_294_967_296 + self.second as u64
    }
}

/// Where the clauses that start no later than a pair of variables end, from a place on.
pub(crate) fn starts_end(starts: &[Start], at: usize, pair: u64) -> usize
    requires { at ≤ length starts.now }
    ensures ahead { at ≤ result }
    ensures inside { result ≤ length starts.now }
    ensures upto { (k : ℕ) (d : Start) → at ≤ k → k < result → pair_of (slice_index_or starts.now k d) ≤ pair }
    ensures beyond { (d : Start) → result < length starts.now → pair < pair_of (slice_index_or starts.now result d) }
{
    let mut end = at;
    while end < starts.len() && starts[end].pair() <= pair {
        end += 1;
    }
    end
}
