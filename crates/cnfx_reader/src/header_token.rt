//! The header of a formula, token by token.
ghost use Rattle.std.specs.Prelude.{◌≡◌, ◌≤◌, ◌∷◌, ℕ, List, IfOk};
ghost use Rattle.cx_texts.specs.Tokens.{Token};
ghost use Rattle.cnfx_reader.specs.HeaderParts.{header_from, header_behind, IsPartWithin, IsStepWithin};

use cx_base::MAX_VARIABLE;
use cx_texts::{Offence, TokenAt, read_natural};

/// The token of a header that comes next.
#[derive(Clone, Copy, Drop)]
pub(crate) enum HeaderPart {
    P,
    Cnf,
    Vars,
    /// The number of constraints, after this number of variables.
    Count(u32),
}

/// What comes after a token of a header.
#[derive(Clone, Copy, Drop)]
pub(crate) enum HeaderStep {
    Lacks(HeaderPart),
    /// The header is whole, with this number of variables.
    Whole(u32),
}

/// The number of variables that a token says.
fn take_vars(token: TokenAt) -> Result<HeaderStep, Offence>
    ensures within { IfOk result IsStepWithin }
    ensures read { (len : ℕ) (rest : List Token) → header_from HeaderPart.Vars len (record { place = token.entry.place; text = token.entry.text.now } ∷ rest) ≡ header_behind result len rest }
{
    match read_natural(token.text) {
        Some(vars) => {
            if vars > u64::from(MAX_VARIABLE) {
                return Err(Offence::VarLimit(token.place as u64));
            }
            Ok(HeaderStep::Lacks(HeaderPart::Count(vars as u32)))
        }
        None => Err(Offence::BadHeader(token.place as u64)),
    }
}

/// Takes the next token of a header.
pub(crate) fn take_header_token(part: HeaderPart, token: TokenAt) -> Result<HeaderStep, Offence>
    requires { IsPartWithin part }
    ensures within { IfOk result IsStepWithin }
    ensures read { (len : ℕ) (rest : List Token) → header_from part len (record { place = token.entry.place; text = token.entry.text.now } ∷ rest) ≡ header_behind result len rest }
{
    let place = token.place as u64;
    match part {
        HeaderPart::P => {
            if token.text == b"p".as_slice() {
                Ok(HeaderStep::Lacks(HeaderPart::Cnf))
            } else {
                Err(Offence::NoHeader(place))
            }
        }
        HeaderPart::Cnf => {
            if token.text == b"cnf".as_slice() {
                Ok(HeaderStep::Lacks(HeaderPart::Vars))
            } else {
                Err(Offence::BadHeader(place))
            }
        }
        HeaderPart::Vars => take_vars(token),
        HeaderPart::Count(vars) => match read_natural(token.text) {
            Some(_) => Ok(HeaderStep::Whole(vars)),
            None => Err(Offence::BadHeader(place)),
        },
    }
}
