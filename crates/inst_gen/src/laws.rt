//! Laws of planted instances. Each function's contract is the law, and its body is empty.
ghost use Rattle.inst_gen.specs.Laws.{EvenIsMet, OddIsUnmet};

/// The planted values meet an instance of kind `Even`.
pub fn even_is_met()
    ensures { EvenIsMet }
{}

/// No values meet an instance of kind `Odd`.
pub fn odd_is_unmet()
    ensures { OddIsUnmet }
{}
