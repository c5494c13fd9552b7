//! Marks of a clause's literals.
ghost use Rattle.std.specs.Prelude.{◌≡◌, ◌<◌, ◌≤◌, ◌||◌, IsTrue, List, cond, length, count_by};
ghost use Rattle.std.specs.List.{list_any};
ghost use Rattle.cx_base.specs.Literals.{Literal, code_of, negate, same_literal};
ghost use Rattle.tidy_rules.specs.Relations.{bears_on};
ghost use Rattle.clause_tidy.specs.Marks.{is_marked, AreMarksOf, AreClear, HaveRoom, HasSoMany};

use cx_base::Lit;

/// Whether a literal is marked.
fn is_marked(marks: &[bool], lit: Lit) -> bool
    ensures { result ≡ is_marked marks.now lit }
{
    lit.code() < marks.len() && marks[lit.code()]
}

/// Marks a literal, and counts it where it was not marked.
fn mark_one(marks: &mut [bool], lit: Lit) -> usize
    requires { code_of lit < length marks.old }
    ensures marked { (l : Literal) → is_marked marks.new l ≡ (same_literal l lit || is_marked marks.old l) }
    ensures counted { result ≡ cond (is_marked marks.old lit) 0 1 }
    ensures room { length marks.new ≡ length marks.old }
{
    if is_marked(marks, lit) {
        return 0;
    }
    marks[lit.code()] = true;
    1
}

/// Marks the literals of a clause. The number of different ones.
pub(crate) fn mark(marks: &mut [bool], lits: &[Lit]) -> usize
    requires clear { AreClear marks.old }
    requires room { HaveRoom marks.old lits.now }
    ensures marks { AreMarksOf marks.new lits.now }
    ensures many { HasSoMany lits.now result }
    ensures room { length marks.new ≡ length marks.old }
{
    let mut count = 0;
    for lit in lits {
        count += mark_one(marks, *lit);
    }
    count
}

/// Takes the marks of a clause's literals away.
pub(crate) fn clear(marks: &mut [bool], lits: &[Lit])
    requires marks { AreMarksOf marks.old lits.now }
    requires room { HaveRoom marks.old lits.now }
    ensures clear { AreClear marks.new }
    ensures room { length marks.new ≡ length marks.old }
{
    for lit in lits {
        marks[lit.code()] = false;
    }
}

/// How many literals of a clause are marked.
fn count_marked(marks: &[bool], lits: &[Lit]) -> usize
    ensures { result ≡ count_by (is_marked marks.now) lits.now }
{
    let mut count = 0;
    for lit in lits {
        if is_marked(marks, *lit) {
            count += 1;
        }
    }
    count
}

/// Whether the negation of a literal of a clause is marked.
fn has_turned(marks: &[bool], lits: &[Lit]) -> bool
    ensures { result ≡ list_any (λ l. is_marked marks.now (negate l)) lits.now }
{
    for lit in lits {
        if is_marked(marks, lit.negate()) {
            return true;
        }
    }
    false
}

/// Whether the clause that is marked, of so many different literals, can lie inside this one or strengthen it: it does where
/// no literal is repeated.
pub(crate) fn may_bear(marks: &[bool], many: usize, lits: &[Lit]) -> bool
    ensures { (part : List Literal) → AreMarksOf marks.now part → HasSoMany part many → IsTrue (bears_on part lits.now) → IsTrue result }
{
    let same = count_marked(marks, lits);
    same >= many || (same + 1 == many && has_turned(marks, lits))
}
