//! The formula of a command, read from its slot piece by piece, and an answer, read whole.
ghost use Rattle.std.specs.Prelude.{◌≡◌, ◌≤◌, List, ℕ, None, Some, true, length, IfOk};
ghost use Rattle.cx_desk.specs.Outside.{asked_in, started_in};
ghost use Rattle.cx_desk.specs.declared.desk.Slot.TheVariants.{Second};
ghost use Rattle.cx_words.specs.declared.plans.Plan.{Plan as PlanOf};
ghost use Rattle.solve_cli.specs.Seen.{seen};
ghost use Rattle.solve_cli.specs.Commands.{Unasked, formula_of, second_of, proof_of};
ghost use Rattle.solve_cli.specs.Steps.{Acts, Ready, StartsSlot, ReadsSlot, ReadsFormula, LoadsFormula, GivesFile, Loads, Prepares, unread_as, refused_as};

use crate::{Ending, Outcome};
use cnfx_reader::{FromRefusal, read_formula_from};
use cx_base::Formula;
use cx_desk::{Desk, Failed, ReadErr, Slot, Text, read_whole};
use cx_texts::Offence;
use cx_words::Name;
use std::alloc::Global;

/// The texts of a command: the formula that was read of the first, and the bytes of the second.
#[derive(Drop)]
pub(crate) struct Texts {
    /// The formula that the first text reads to.
    pub formula: Formula,
    /// The second text.
    pub second: Text,
}

/// The names of two texts that a command reads: a formula, and what is judged by it.
#[derive(Drop)]
pub(crate) struct TextNames {
    pub formula: Name,
    pub second: Name,
}

/// Starts a slot on a file.
fn start_slot<D: Desk>(desk: &mut D, slot: Slot, name: Name) -> Result<(), Outcome>
    requires unasked { asked_in slot (D.outside desk.old).asked ≡ None }
    ensures { StartsSlot slot name (D.outside desk.old) result (D.outside desk.new) }
{
    match desk.start(slot, name.into_string()) {
        Ok(()) => Ok(()),
        Err(Failed) => Err(Outcome::ReadFault),
    }
}

/// Reads a started slot to its end.
fn read_slot<D: Desk>(alloc: Global, desk: &mut D, slot: Slot, limit: u64) -> Result<Text, Outcome>
    requires started { started_in slot (D.outside desk.old).started ≡ true }
    ensures { (name : List ℕ) → Ready slot name (D.outside desk.old) → Acts limit (D.outside desk.old) (D.outside desk.new) (λ w. ReadsSlot slot name limit (seen w (D.outside desk.old)) result (seen w (D.outside desk.new))) }
{
    match read_whole(alloc, desk, slot, limit) {
        Ok(text) => Ok(text),
        Err(why) => Err(unread(slot, why)),
    }
}

/// The outcome where a text is not read.
fn unread(slot: Slot, why: ReadErr) -> Outcome
    ensures { result ≡ unread_as slot why }
{
    match why {
        ReadErr::TooLong => Outcome::Ended(Ending::TooLong(slot)),
        ReadErr::Failed => Outcome::ReadFault,
        ReadErr::Memory => Outcome::Memory,
    }
}

/// The formula of a file.
pub(crate) fn read_formula_of<D: Desk>(
    alloc: Global,
    desk: &mut D,
    name: Name,
    limit: u64,
) -> Result<Formula, Outcome>
    requires unasked { (D.outside desk.old).asked.formula ≡ None }
    requires limit { limit ≤ 4294967295 }
    ensures reads { Acts limit (D.outside desk.old) (D.outside desk.new) (λ w. ReadsFormula name limit (seen w (D.outside desk.old)) result (seen w (D.outside desk.new))) }
    ensures few { IfOk result (λ f. length f.constraints ≤ limit) }
{
    start_slot(desk, Slot::Formula, name)?;
    match read_formula_from(alloc, desk, Slot::Formula, limit) {
        Ok(formula) => Ok(formula),
        Err(why) => Err(refused(why)),
    }
}

/// The outcome where a formula is not read.
fn refused(why: FromRefusal) -> Outcome
    ensures { result ≡ refused_as why }
{
    let offence = match why {
        FromRefusal::NoHeader(place) => Offence::NoHeader(place),
        FromRefusal::BadHeader(place) => Offence::BadHeader(place),
        FromRefusal::BadToken(place) => Offence::BadToken(place),
        FromRefusal::Unterminated(place) => Offence::Unterminated(place),
        FromRefusal::VarLimit(place) => Offence::VarLimit(place),
        FromRefusal::Memory => return Outcome::Memory,
        FromRefusal::Failed => return Outcome::ReadFault,
        FromRefusal::TooLong => return Outcome::Ended(Ending::TooLong(Slot::Formula)),
    };
    Outcome::Ended(Ending::FormulaRefused(offence))
}

/// Reads the formula, and starts the second slot.
fn begin<D: Desk>(
    alloc: Global,
    desk: &mut D,
    names: TextNames,
    limit: u64,
) -> Result<Formula, Outcome>
    requires fresh { Unasked (D.outside desk.old).asked }
    requires limit { limit ≤ 4294967295 }
    ensures ready { IfOk result (λ _. Ready Second names.second (D.outside desk.new)) }
    ensures loads { (p : PlanOf) → formula_of p ≡ Some names.formula → second_of p ≡ Some names.second
        → Acts limit (D.outside desk.old) (D.outside desk.new) (λ w. LoadsFormula p limit (seen w (D.outside desk.old)) result (seen w (D.outside desk.new))) }
{
    let TextNames { formula, second } = names;
    let formula = read_formula_of(alloc, desk, formula, limit)?;
    start_slot(desk, Slot::Second, second)?;
    Ok(formula)
}

/// Gives the Proof port its file, where it is to have one.
pub(crate) fn create_proof<D: Desk>(desk: &mut D, proof: Option<Name>) -> Result<(), Outcome>
    requires unasked { (D.outside desk.old).asked.proof ≡ None }
    ensures { GivesFile proof (D.outside desk.old) result (D.outside desk.new) }
{
    let Some(name) = proof else {
        return Ok(());
    };
    match desk.create(name.into_string()) {
        Ok(()) => Ok(()),
        Err(Failed) => Err(Outcome::WriteFault),
    }
}

/// Reads the formula, starts the second slot, and gives the Proof port its file, where the command names one.
pub(crate) fn prepare<D: Desk>(
    alloc: Global,
    desk: &mut D,
    names: TextNames,
    proof: Option<Name>,
    limit: u64,
) -> Result<Formula, Outcome>
    requires fresh { Unasked (D.outside desk.old).asked }
    requires limit { limit ≤ 4294967295 }
    ensures ready { IfOk result (λ _. Ready Second names.second (D.outside desk.new)) }
    ensures prepares { (p : PlanOf) → formula_of p ≡ Some names.formula → second_of p ≡ Some names.second → proof_of p ≡ proof
        → Acts limit (D.outside desk.old) (D.outside desk.new) (λ w. Prepares p limit (seen w (D.outside desk.old)) result (seen w (D.outside desk.new))) }
{
    let formula = begin(alloc, desk, names, limit)?;
    create_proof(desk, proof)?;
    Ok(formula)
}

/// Reads the formula and the second text of a command that gives the Proof port no file.
pub(crate) fn load<D: Desk>(
    alloc: Global,
    desk: &mut D,
    formula: Name,
    second: Name,
    limit: u64,
) -> Result<Texts, Outcome>
    requires fresh { Unasked (D.outside desk.old).asked }
    requires limit { limit ≤ 4294967295 }
    ensures { (p : PlanOf) → formula_of p ≡ Some formula → second_of p ≡ Some second → proof_of p ≡ None
        → Acts limit (D.outside desk.old) (D.outside desk.new) (λ w. Loads p limit (seen w (D.outside desk.old)) result (seen w (D.outside desk.new))) }
{
    let formula = prepare(alloc, desk, TextNames { formula, second }, None, limit)?;
    let second = read_slot(alloc, desk, Slot::Second, limit)?;
    Ok(Texts { formula, second })
}
