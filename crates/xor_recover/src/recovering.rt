//! Parities from the clauses of a formula.
ghost use Rattle.std.specs.Prelude.{◌≡◌, ◌<◌, ◌≤◌, ◌+◌, ◌++◌, map, drop, length, Some, None, MatchOption, IfOk, OnOk};
ghost use Rattle.std.specs.List.{All, AllByRecursion, Contains, range_with_len};
ghost use Rattle.xor_recover.specs.declared.found.FoundParity.{FoundParity};
ghost use Rattle.std.specs.List.Sorted.{IsPermutation, IsNonDecreasing, IsStrictlySortedBy};
ghost use Rattle.xor_recover.specs.Finds.{HasLeastNumbers, IsJudgedRight, find_cmp};
ghost use Rattle.cx_base.specs.declared.literal.TheConstants.{MAX_VARIABLE};
ghost use Rattle.parity_engine.specs.Written.{literals_with, AreRising, IsWritten};
ghost use Rattle.cx_base.specs.Parity.{NormalForm, normal_form};
ghost use Rattle.cx_base.specs.Problem.{AreWithin, clauses_of};
ghost use Rattle.cx_semantics.specs.Recovered.{Recovered};
ghost use Rattle.xor_recover.specs.Rows.{IsProper};
ghost use Rattle.xor_recover.specs.Entries.{row_of};
ghost use Rattle.xor_recover.specs.Starts.{IsStart};
ghost use Rattle.xor_recover.specs.Groups.{AddsFound, group_of, IsFoundAt};
ghost use Rattle.xor_recover.specs.Wholes.{IsWhole, count_of, starts_of_all};

use crate::entry::{ClauseEntry, Key};
use crate::found::{FoundList, FoundParity};
use crate::gathering::Room;
use crate::ordered::{Ordered, in_order, next_pair};
use crate::starts::{Start, starts_end};
use crate::wholes::{Whole, wholes_end};
use cx_base::{Formula, IdList, Lit, LitList, Var};
use std::alloc::{AllocError, Global};

/// The parity's literals.
fn written(alloc: Global, key: &Key) -> Result<LitList, AllocError>
    requires { AreRising 1 MAX_VARIABLE key.now.vars.items }
    ensures { IfOk result (λ lits. lits ≡ literals_with key.now.right key.now.vars.items) }
{
    let mut lits = Vec::with_capacity(alloc, key.vars.len())?;
    for place in 0..key.vars.len() {
        let variable = Var::new(key.vars[place]);
        lits.push(Lit::new(variable, place == 0 && !key.right))?;
    }
    Ok(LitList::from_vec(lits))
}

/// The numbers of the entries, rising.
fn numbers(alloc: Global, group: &[ClauseEntry]) -> Result<IdList, AllocError>
    ensures same { IfOk result (λ ns. IsPermutation (map (λ e. e.number) group.now) ns) }
    ensures rising { IfOk result IsNonDecreasing }
{
    let mut numbers = Vec::with_capacity(alloc, group.len())?;
    for entry in group {
        numbers.push(entry.number)?;
    }
    numbers.sort_unstable();
    Ok(IdList::from_vec(numbers))
}

/// The clauses from the first entry on that exclude each wrong assignment of its variables, if all are there.
fn group_at(entries: &[ClauseEntry], start: usize) -> Option<&[ClauseEntry]>
    requires here { start < length entries.now }
    requires wide { All (λ e. 1 ≤ length e.key.vars.items) entries.now }
    ensures { MatchOption result (group_of (drop start (map row_of entries.now)) ≡ None) (λ g. group_of (drop start (map row_of entries.now)) ≡ Some (map row_of g.now)) }
{
    let first = &entries[start].key;
    let end = start + (1usize << (first.vars.len() - 1));
    if end <= entries.len() && entries[end - 1].key == *first {
        Some(&entries[start..end])
    } else {
        None
    }
}

/// The parity whose clauses begin at an entry, if all are there.
fn found_at(
    alloc: Global,
    entries: &[ClauseEntry],
    start: usize,
) -> Result<Option<FoundParity>, AllocError>
    requires here { start < length entries.now }
    requires proper { All (λ e. IsProper (row_of e)) entries.now }
    ensures { IfOk result (λ o. IsFoundAt (drop start (map row_of entries.now)) o) }
{
    match group_at(entries, start) {
        Some(group) => {
            let parity = written(alloc, &entries[start].key)?;
            let clauses = numbers(alloc, group)?;
            Ok(Some(FoundParity { parity, clauses }))
        }
        None => Ok(None),
    }
}

/// As many numbers from the first on.
fn neighbours(alloc: Global, first: u64, count: usize) -> Result<IdList, AllocError>
    requires { first + count ≤ u64.MAX + 1 }
    ensures { IfOk result (λ ns. ns ≡ range_with_len first count) }
{
    let mut numbers = Vec::with_capacity(alloc, count)?;
    for index in 0..count {
        numbers.push(first + index as u64)?;
    }
    Ok(IdList::from_vec(numbers))
}

/// The parity whose clauses follow one another.
fn found_whole(alloc: Global, whole: &Whole) -> Result<FoundParity, AllocError>
    requires rising { AreRising 1 MAX_VARIABLE whole.now.key.vars.items }
    requires some { 1 ≤ length whole.now.key.vars.items }
    requires fits { whole.now.start.number + count_of whole.now ≤ u64.MAX + 1 }
    ensures parity { IfOk result (λ find. find.parity ≡ literals_with whole.now.key.right whole.now.key.vars.items) }
    ensures clauses { IfOk result (λ find. find.clauses ≡ range_with_len whole.now.start.number (count_of whole.now)) }
{
    let parity = written(alloc, &whole.key)?;
    let clauses = neighbours(alloc, whole.start.number, whole.count())?;
    Ok(FoundParity { parity, clauses })
}

/// Clauses that start alike: those that were told one by one, and those that follow one another.
#[derive(Clone, Copy, Drop)]
struct Alike<'c> {
    starts: &'c [Start],
    wholes: &'c [Whole],
}

/// Adds the parities of clauses, put in order.
fn find_in_order(
    alloc: Global,
    formula: &Formula,
    alike: Alike<'_>,
    room: &mut Room,
    finds: &mut Vec<FoundParity>,
) -> Result<(), AllocError>
    requires starts { AllByRecursion (IsStart (clauses_of formula.now.constraints)) alike.starts.now }
    requires wholes { AllByRecursion (IsWhole (clauses_of formula.now.constraints)) alike.wholes.now }
    ensures { OnOk result (AddsFound (clauses_of formula.now.constraints) (alike.entry.starts.now ++ starts_of_all alike.entry.wholes.now) finds.old.items finds.new.items) }
{
    // that variables are within the range, which this call tells the proof
    let _vars = formula.vars();
    room.fill(formula, alike.starts, alike.wholes)?;
    for start in 0..room.entries.len() {
        match found_at(alloc, &room.entries, start)? {
            Some(find) => finds.push(find)?,
            None => {}
        }
    }
    Ok(())
}

/// Adds the parities of clauses that start alike.
fn find_among(
    alloc: Global,
    formula: &Formula,
    alike: Alike<'_>,
    room: &mut Room,
    finds: &mut Vec<FoundParity>,
) -> Result<(), AllocError>
    requires starts { AllByRecursion (IsStart (clauses_of formula.now.constraints)) alike.starts.now }
    requires wholes { AllByRecursion (IsWhole (clauses_of formula.now.constraints)) alike.wholes.now }
    ensures { OnOk result (AddsFound (clauses_of formula.now.constraints) (alike.entry.starts.now ++ starts_of_all alike.entry.wholes.now) finds.old.items finds.new.items) }
{
    // that variables are within the range, and that numbers fit, which these calls tell the proof
    let _vars = formula.vars();
    let _len = formula.clause_count();
    let Alike { starts, wholes } = alike;
    if starts.is_empty() && wholes.len() == 1 {
        finds.push(found_whole(alloc, &wholes[0])?)?;
        return Ok(());
    }
    if wholes.is_empty() && starts.len() < 2 {
        return Ok(());
    }
    find_in_order(alloc, formula, alike, room, finds)
}

/// The parities of 2 to 6 variables that the formula has as clauses, in order of their variables, with right
/// side 0 before 1.
pub fn recover(alloc: Global, formula: &Formula) -> Result<FoundList, AllocError>
    ensures sound { IfOk result (λ finds. All (λ find. Recovered formula.now (normal_form find.parity)) finds) }
    ensures written { IfOk result (λ finds. All (λ find. IsWritten (normal_form find.parity) find.parity) finds) }
    ensures in_order { IfOk result (λ finds. IsStrictlySortedBy find_cmp finds) }
    ensures complete { IfOk result (λ finds. (form : NormalForm) → Recovered formula.now form → (find : FoundParity) × Contains finds find × (normal_form find.parity ≡ form)) }
    ensures least { IfOk result (λ finds. All (HasLeastNumbers formula.now) finds) }
    ensures judged { IfOk result (λ finds. All (IsJudgedRight formula.now) finds) }
    ensures within { IfOk result (λ finds. All (λ find. AreWithin formula.now.variables find.parity) finds) }
    ensures few { IfOk result (λ finds. length finds ≤ length (clauses_of formula.now.constraints)) }
{
    // that variables are within the range, which this call tells the proof
    let _vars = formula.vars();
    let Ordered { starts, wholes } = in_order(alloc, formula)?;
    let mut room = Room::new(alloc)?;
    let mut finds = Vec::with_capacity(alloc, wholes.len())?;
    let mut at = 0;
    let mut whole = 0;
    while at < starts.len() || whole < wholes.len() {
        let pair = next_pair(&starts, at, &wholes, whole);
        let alike = Alike {
            starts: &starts[at..starts_end(&starts, at, pair)],
            wholes: &wholes[whole..wholes_end(&wholes, whole, pair)],
        };
        find_among(alloc, formula, alike, &mut room, &mut finds)?;
        at += alike.starts.len();
        whole += alike.wholes.len();
    }
    Ok(FoundList::from_vec(finds))
}
