//! Signatures: 64 bits that tell of a clause's variables.
ghost use Rattle.std.specs.Prelude.{IsFalse};
ghost use Rattle.clause_tidy.specs.Signatures.{IsSignature, HasOther};

use cx_base::Lit;

/// The signature of a clause.
pub(crate) fn signature(lits: &[Lit]) -> u64
    ensures { IsSignature result lits.now }
{
    let mut signature = 0;
    for lit in lits {
        signature |= 1 << (lit.var().number() % 64);
    }
    signature
}

/// Whether each bit of the first is set in the second.
pub(crate) fn is_within(part: u64, whole: u64) -> bool
    ensures { IsFalse result → HasOther part whole }
{
    part & !whole == 0
}
