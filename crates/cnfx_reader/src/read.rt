//! A formula from its text.
ghost use Rattle.cnfx_reader.specs.ReadsTo.{ReadsTo};

use crate::body::read_body;
use crate::header::read_header;
use crate::pending::Pending;
use crate::refusal::ReadRefusal;
use cx_base::{Formula, FormulaBuilder};
use cx_texts::{EndLines, TokenReader};
use std::alloc::Global;

/// Reads a formula of clauses and parities: DIMACS CNF with x-lines.
///
/// The text is read once, in order, and nothing of it is kept but the literals. At the first token that does not fit,
/// the refusal says what is wrong and at which byte. Without memory it is `Memory`, which says nothing of the text.
// Apart from its caller, the loop over the tokens has the registers for itself.
#[inline(never)]
pub fn read_formula(alloc: Global, text: &[u8]) -> Result<Formula, ReadRefusal>
    ensures { ReadsTo text.now result }
{
    let len = text.len() as u64;
    let mut tokens = TokenReader::new(text, EndLines::End);
    let vars = read_header(&mut tokens, len)?;
    let mut builder = FormulaBuilder::new(alloc);
    read_body(&mut tokens, &mut builder, Pending::Nothing, len)?;
    Ok(builder.finish(vars))
}
