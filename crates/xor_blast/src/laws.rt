//! Laws of the definitions. Each function's contract is the law, and its body is empty.
ghost use Rattle.xor_blast.specs.Extending.{BlastedExtendInOneWay};

/// Values that meet a formula are the beginning of exactly one list of values that meets its clauses, and others of none.
pub fn blasted_extend_in_one_way()
    ensures { BlastedExtendInOneWay }
{}
