//! Laws of the definitions. Each function's contract is the law, and its body is empty.
ghost use Rattle.cnfx_reader.specs.PrintedFormula.{PrintedFormulasRead};

/// A printed formula is read as the formula.
pub fn printed_formulas_read()
    ensures { PrintedFormulasRead }
{}
