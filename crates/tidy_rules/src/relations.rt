//! What one clause says of another, by looking at each of their literals.
ghost use Rattle.std.specs.Prelude.{◌≡◌, IsTrue, IsFalse, MatchOption};
ghost use Rattle.cx_semantics.specs.Chain.{has_literal, is_inside};
ghost use Rattle.cx_semantics.specs.Fresh.{is_tautology};
ghost use Rattle.tidy_rules.specs.Relations.{is_inside_but, strengthens_at, strengthens, bears_on};

use cx_base::Lit;

/// Whether the literal is one of these.
pub fn has(lits: &[Lit], lit: Lit) -> bool
    ensures { result ≡ has_literal lits.now lit }
{
    for other in lits {
        if *other == lit {
            return true;
        }
    }
    false
}

/// Whether it has a literal and its negation.
pub fn has_both(lits: &[Lit]) -> bool
    ensures { result ≡ is_tautology lits.now }
{
    for lit in lits {
        if has(lits, lit.negate()) {
            return true;
        }
    }
    false
}

/// Whether each literal of the first clause is in the second.
pub fn lies_inside(clause: &[Lit], other: &[Lit]) -> bool
    ensures { result ≡ is_inside clause.now other.now }
{
    for lit in clause {
        if !has(other, *lit) {
            return false;
        }
    }
    true
}

/// Whether each literal of the first clause but this one is in the second.
fn lies_inside_but(clause: &[Lit], but: Lit, other: &[Lit]) -> bool
    ensures { result ≡ is_inside_but clause.now but other.now }
{
    for lit in clause {
        if *lit != but && !has(other, *lit) {
            return false;
        }
    }
    true
}

/// Whether the first clause strengthens the second at this literal of its own.
fn strengthens_by(clause: &[Lit], lit: Lit, other: &[Lit]) -> bool
    ensures { result ≡ strengthens_at clause.now other.now lit }
{
    has(other, lit.negate()) && lies_inside_but(clause, lit, other)
}

/// A literal of the first clause at which it strengthens the second.
pub fn strengthening(clause: &[Lit], other: &[Lit]) -> Option<Lit>
    ensures { MatchOption result (IsFalse (strengthens clause.now other.now)) (λ l. IsTrue (has_literal clause.now l) × IsTrue (strengthens_at clause.now other.now l)) }
{
    for lit in clause {
        if strengthens_by(clause, *lit, other) {
            return Some(*lit);
        }
    }
    None
}

/// Whether the first clause lies inside the second or strengthens it.
pub fn bears_on(clause: &[Lit], other: &[Lit]) -> bool
    ensures { result ≡ bears_on clause.now other.now }
{
    lies_inside(clause, other) || strengthening(clause, other).is_some()
}
