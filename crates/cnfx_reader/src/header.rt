//! The header of a formula.
ghost use Rattle.std.specs.Prelude.{◌≡◌, ◌≤◌, [], IfOk, MatchResult, Ok, Err};
ghost use Rattle.cx_base.specs.declared.literal.TheConstants.{MAX_VARIABLE};
ghost use Rattle.cx_texts.specs.FormulaText.{header};
ghost use Rattle.cnfx_reader.specs.HeaderParts.{header_from, IsPartWithin};

use crate::header_token::{HeaderPart, HeaderStep, take_header_token};
use cx_texts::{Offence, TokenReader};

/// The offence of a text that ends where this part of its header is to come. `len` is the text's length.
fn lacking(part: HeaderPart, len: u64) -> Offence
    ensures { header_from part len [] ≡ Err result }
{
    match part {
        HeaderPart::P => Offence::NoHeader(len),
        _ => Offence::BadHeader(len),
    }
}

/// Reads the header from one of its tokens on, and gives its number of variables. `len` is the text's length.
pub(crate) fn read_header_from(
    tokens: &mut TokenReader,
    part: HeaderPart,
    len: u64,
) -> Result<u32, Offence>
    requires { IsPartWithin part }
    ensures within { IfOk result (λ v. v ≤ MAX_VARIABLE) }
    ensures read { MatchResult result (λ v. header_from part len tokens.old ≡ Ok (v, tokens.new)) (λ o. header_from part len tokens.old ≡ Err o) }
{
    let mut lacks = part;
    while let Some(token) = tokens.next_token() {
        match take_header_token(lacks, token)? {
            HeaderStep::Lacks(next) => lacks = next,
            HeaderStep::Whole(vars) => return Ok(vars),
        }
    }
    Err(lacking(lacks, len))
}

/// Reads the header, and gives its number of variables. `len` is the text's length.
#[inline(never)]
pub(crate) fn read_header(tokens: &mut TokenReader, len: u64) -> Result<u32, Offence>
    ensures within { IfOk result (λ v. v ≤ MAX_VARIABLE) }
    ensures read { MatchResult result (λ v. header len tokens.old ≡ Ok (v, tokens.new)) (λ o. header len tokens.old ≡ Err o) }
{
    read_header_from(tokens, HeaderPart::P, len)
}
