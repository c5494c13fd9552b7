//! How many hints of a list it takes to a right chain.
ghost use Rattle.std.specs.Prelude.{IfOk};
ghost use Rattle.rup_finder.specs.Front.{IsChainLength, Takes};

use cx_base::Lit;
use proof_rules::{LeftOf, LiteralSet, Live, left_of};
use std::alloc::AllocError;

/// What a hint does to a chain.
#[derive(Clone, Copy, Drop)]
pub enum Taken {
    /// It gives one more literal.
    Goes,
    /// The chain ends with it, and is right.
    Ends,
    /// It is negative, or its clause has more than one literal left or is not live.
    Stops,
}

/// Takes one more hint.
fn take_hint(assumed: &mut LiteralSet, live: &Live, hint: i64) -> Result<Taken, AllocError>
    ensures { IfOk result (λ taken. Takes live.now.clauses hint assumed.old assumed.new taken) }
{
    if hint < 0 {
        return Ok(Taken::Stops);
    }
    let Some(clause) = live.clause(hint.unsigned_abs()) else {
        return Ok(Taken::Stops);
    };
    match left_of(assumed, clause) {
        LeftOf::Nothing => Ok(Taken::Ends),
        LeftOf::One(lit) => {
            assumed.insert(lit)?;
            Ok(Taken::Goes)
        }
        LeftOf::More => Ok(Taken::Stops),
    }
}

/// How many of the hints, from the first on, are a right chain of live clauses for the target: the fewest that are one. None
/// where no prefix without a negative hint is one.
pub fn chain_length(
    assumed: &mut LiteralSet,
    live: &Live,
    target: &[Lit],
    hints: &[i64],
) -> Result<Option<usize>, AllocError>
    ensures { IfOk result (IsChainLength live.now.clauses target.now hints.now) }
{
    assumed.set_to_negations(target)?;
    for place in 0..hints.len() {
        match take_hint(assumed, live, hints[place])? {
            Taken::Goes => {}
            Taken::Ends => return Ok(Some(place + 1)),
            Taken::Stops => return Ok(None),
        }
    }
    Ok(None)
}
