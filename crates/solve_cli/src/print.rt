//! The lines of the endings.
ghost use Rattle.cx_desk.specs.declared.desk.Port.TheVariants as port;
ghost use Rattle.std.specs.Prelude.{◌≡◌, [], ◌∷◌, ◌++◌, Some, codes, decimal};
ghost use Rattle.cx_desk.specs.Calls.{PutsAll};
ghost use Rattle.cx_words.specs.PlainWords.{kind_word};
ghost use Rattle.solve_cli.specs.Failed.{unsatisfiable_text};
ghost use Rattle.solve_cli.specs.Endings.{answer_text, plain_answer, message_text, plain_message, cause_text, cause_code, log_cause_text, log_cause_code, place_text, wrong_text, offence_text, shown_text, demo_text, blasted_text, space_text, joined};
ghost use Rattle.solve_cli.specs.Trimming.{core_text, ids_line};

use crate::{Ending, Instance, Outcome, Shown, WrongAnswer};
use cx_base::IntList;
use cx_desk::{Desk, Failed, Port, Slot, put_all, put_pieces};
use cx_semantics::Cause;
use cx_texts::Offence;
use cx_words::InstanceKind;
use gf2_space::{Space, put_space};
use itoa::Buffer;
use model_out::put_answer;
use step_text::pieces::{put_ids, put_integers};

/// The lines of a step that was refused.
fn put_step<D: Desk>(desk: &mut D, step: u64, code: &[u8], last: &[u8]) -> Result<(), Failed>
    ensures { PutsAll port.Answer (joined (codes "c step " ∷ decimal step ∷ codes " " ∷ code.now ∷ last.now ∷ [])) (D.outside desk.old) result (D.outside desk.new) }
{
    let mut number = Buffer::new();
    let step = number.format(step).as_bytes();
    put_pieces(desk, Port::Answer, &[b"c step ", step, b" ", code, last])
}

/// The line of a step with a place after its code.
fn put_step_at<D: Desk>(
    desk: &mut D,
    step: u64,
    code: &[u8],
    place: u64,
    last: &[u8],
) -> Result<(), Failed>
    ensures { PutsAll port.Answer (joined (codes "c step " ∷ decimal step ∷ codes " " ∷ code.now ∷ decimal place ∷ last.now ∷ [])) (D.outside desk.old) result (D.outside desk.new) }
{
    let mut number = Buffer::new();
    let step = number.format(step).as_bytes();
    let mut place_number = Buffer::new();
    let place = place_number.format(place).as_bytes();
    put_pieces(
        desk,
        Port::Answer,
        &[b"c step ", step, b" ", code, place, last],
    )
}

/// The lines of a refusal by its cause, whose code this is.
fn put_refused<D: Desk>(
    desk: &mut D,
    step: u64,
    cause: Cause,
    code: &[u8],
    last: &[u8],
) -> Result<(), Failed>
    ensures { PutsAll port.Answer (joined (codes "c step " ∷ decimal step ∷ codes " " ∷ (code.now ++ place_text cause) ∷ last.now ∷ [])) (D.outside desk.old) result (D.outside desk.new) }
{
    match cause {
        Cause::TextRefused(place) => put_step_at(desk, step, code, place, last),
        _ => put_step(desk, step, code, last),
    }
}

/// The code of a cause of a proof's refusal.
fn cause_code(cause: Cause) -> &'static [u8]
    ensures { result.now ≡ cause_code cause }
{
    match cause {
        Cause::TextRefused(_) => b"P0 at byte ",
        Cause::VarUnknown => b"P1",
        Cause::IdInUse => b"P2",
        Cause::RatHint => b"P3",
        Cause::HintNotLive => b"P4",
        Cause::HintNotUnit => b"P5",
        Cause::HintsEnd => b"P6",
        Cause::SumDiffers => b"P7",
        Cause::NotImplied => b"P8",
        Cause::TooWide => b"P9",
        Cause::ClauseOutside => b"P10",
        Cause::NoEmptyClause => b"P11",
        Cause::NotInFormula | Cause::NotLive | Cause::NoChain => b"P",
    }
}

/// The code of a cause of a log's refusal.
fn log_cause_code(cause: Cause) -> &'static [u8]
    ensures { result.now ≡ log_cause_code cause }
{
    match cause {
        Cause::TextRefused(_) => b"E0 at byte ",
        Cause::VarUnknown => b"E1",
        Cause::IdInUse => b"E2",
        Cause::NotInFormula => b"E3",
        Cause::NotLive => b"E4",
        Cause::NoChain => b"E5",
        Cause::SumDiffers => b"E7",
        Cause::NotImplied => b"E8",
        Cause::TooWide => b"E9",
        Cause::ClauseOutside => b"E10",
        Cause::NoEmptyClause => b"E11",
        Cause::RatHint | Cause::HintNotLive | Cause::HintNotUnit | Cause::HintsEnd => b"E",
    }
}

/// The lines of a proof's refusal by its cause.
fn put_refusal<D: Desk>(desk: &mut D, step: u64, cause: Cause, last: &[u8]) -> Result<(), Failed>
    ensures { PutsAll port.Answer (joined (codes "c step " ∷ decimal step ∷ codes " " ∷ cause_text cause ∷ last.now ∷ [])) (D.outside desk.old) result (D.outside desk.new) }
{
    put_refused(desk, step, cause, cause_code(cause), last)
}

/// The lines of a log's refusal by its cause.
fn put_log_refusal<D: Desk>(
    desk: &mut D,
    step: u64,
    cause: Cause,
    last: &[u8],
) -> Result<(), Failed>
    ensures { PutsAll port.Answer (joined (codes "c step " ∷ decimal step ∷ codes " " ∷ log_cause_text cause ∷ last.now ∷ [])) (D.outside desk.old) result (D.outside desk.new) }
{
    put_refused(desk, step, cause, log_cause_code(cause), last)
}

/// The lines of values that are refused, with a number.
fn put_wrong_at<D: Desk>(desk: &mut D, front: &[u8], number: u64) -> Result<(), Failed>
    ensures { PutsAll port.Answer (joined (front.now ∷ decimal number ∷ codes "\ns MODEL WRONG\n" ∷ [])) (D.outside desk.old) result (D.outside desk.new) }
{
    let mut buffer = Buffer::new();
    let number = buffer.format(number).as_bytes();
    put_pieces(desk, Port::Answer, &[front, number, b"\ns MODEL WRONG\n"])
}

/// The lines of values that are refused.
fn put_wrong<D: Desk>(desk: &mut D, wrong: WrongAnswer) -> Result<(), Failed>
    ensures { PutsAll port.Answer (wrong_text wrong) (D.outside desk.old) result (D.outside desk.new) }
{
    match wrong {
        WrongAnswer::NoStatusLine => put_all(desk, Port::Answer, b"c A1\ns MODEL WRONG\n"),
        WrongAnswer::BadToken(place) => put_wrong_at(desk, b"c A2 at byte ", place),
        WrongAnswer::Missing(var) => put_wrong_at(desk, b"c A3 variable ", u64::from(var)),
        WrongAnswer::Twice(var) => put_wrong_at(desk, b"c A4 variable ", u64::from(var)),
        WrongAnswer::Unmet(number) => put_wrong_at(desk, b"c A5 constraint ", number),
    }
}

/// The lines of a search that counted this many conflicts.
fn put_unknown<D: Desk>(desk: &mut D, conflicts: u64) -> Result<(), Failed>
    ensures { PutsAll port.Answer (joined (codes "c conflicts " ∷ decimal conflicts ∷ codes "\ns UNKNOWN\n" ∷ [])) (D.outside desk.old) result (D.outside desk.new) }
{
    let mut buffer = Buffer::new();
    let number = buffer.format(conflicts).as_bytes();
    put_pieces(
        desk,
        Port::Answer,
        &[b"c conflicts ", number, b"\ns UNKNOWN\n"],
    )
}

/// The word for a kind of instance.
fn kind_word(kind: InstanceKind) -> &'static [u8]
    ensures { result.now ≡ kind_word kind }
{
    match kind {
        InstanceKind::Even => b"even",
        InstanceKind::Odd => b"odd",
    }
}

/// The last lines of a demonstration.
fn shown_text(shown: Shown) -> &'static [u8]
    ensures { result.now ≡ shown_text shown }
{
    match shown {
        Shown::Meet => b"s SATISFIABLE\nc values MEET\n",
        Shown::Verified => b"s UNSATISFIABLE\nc proof VERIFIED\n",
        Shown::Unknown => b"c conflicts 1000000000000000000\ns UNKNOWN\n",
    }
}

/// The lines of a demonstration.
fn put_demo<D: Desk>(desk: &mut D, instance: Instance, shown: Shown) -> Result<(), Failed>
    ensures { PutsAll port.Answer (demo_text instance shown) (D.outside desk.old) result (D.outside desk.new) }
{
    let (mut size, mut seed) = (Buffer::new(), Buffer::new());
    let (mut variables, mut clauses, mut parities) = (Buffer::new(), Buffer::new(), Buffer::new());
    put_pieces(
        desk,
        Port::Answer,
        &[
            b"c demo ",
            kind_word(instance.kind),
            b" ",
            size.format(instance.size).as_bytes(),
            b" ",
            seed.format(instance.seed).as_bytes(),
            b"\nc variables ",
            variables.format(instance.variables).as_bytes(),
            b"\nc clauses ",
            clauses.format(instance.clauses).as_bytes(),
            b"\nc parities ",
            parities.format(instance.parities).as_bytes(),
            b"\n",
            shown_text(shown),
        ],
    )
}

/// The lines of a formula that no values meet, with literals that fail.
fn put_failed<D: Desk>(desk: &mut D, failed: &[i64]) -> Result<(), Failed>
    ensures { PutsAll port.Answer (unsatisfiable_text (Some failed.now)) (D.outside desk.old) result (D.outside desk.new) }
{
    put_all(desk, Port::Answer, b"s UNSATISFIABLE\nc failed")?;
    put_integers(desk, Port::Answer, failed, b"\n")
}

/// The lines of a formula that no values meet.
fn put_unsatisfiable<D: Desk>(desk: &mut D, failed: &Option<IntList>) -> Result<(), Failed>
    ensures { PutsAll port.Answer (unsatisfiable_text failed.now) (D.outside desk.old) result (D.outside desk.new) }
{
    match failed {
        None => put_all(desk, Port::Answer, b"s UNSATISFIABLE\n"),
        Some(failed) => put_failed(desk, failed.as_slice()),
    }
}

/// A line of ids after its words.
fn put_ids_line<D: Desk>(desk: &mut D, words: &[u8], numbers: &[u64]) -> Result<(), Failed>
    ensures { PutsAll port.Answer (ids_line words.now numbers.now) (D.outside desk.old) result (D.outside desk.new) }
{
    put_all(desk, Port::Answer, words)?;
    put_ids(desk, Port::Answer, numbers)
}

/// The lines of a core.
fn put_core<D: Desk>(desk: &mut D, clauses: &[u64], parities: &[u64]) -> Result<(), Failed>
    ensures { PutsAll port.Answer (core_text (record { clauses = clauses.now; parities = parities.now })) (D.outside desk.old) result (D.outside desk.new) }
{
    put_ids_line(desk, b"c core clauses", clauses)?;
    put_ids_line(desk, b"c core parities", parities)?;
    put_all(desk, Port::Answer, b"s TRIMMED\n")
}

/// The lines of a formula in clauses.
fn put_blasted<D: Desk>(desk: &mut D, variables: u32, clauses: u64) -> Result<(), Failed>
    ensures { PutsAll port.Answer (blasted_text variables clauses) (D.outside desk.old) result (D.outside desk.new) }
{
    let mut buffer = Buffer::new();
    let variables = buffer.format(variables).as_bytes();
    let mut other = Buffer::new();
    let clauses = other.format(clauses).as_bytes();
    put_pieces(
        desk,
        Port::Answer,
        &[
            b"c variables ",
            variables,
            b"\nc clauses ",
            clauses,
            b"\ns BLASTED\n",
        ],
    )
}

/// The lines of the parities' solutions.
fn put_solutions<D: Desk>(desk: &mut D, space: &Option<Space>) -> Result<(), Failed>
    ensures { PutsAll port.Answer (space_text space.now) (D.outside desk.old) result (D.outside desk.new) }
{
    match space {
        None => put_all(desk, Port::Answer, b"s AFFINE NONE\n"),
        Some(space) => put_space(desk, space),
    }
}

/// What an ending that tells nothing but itself puts on the Answer port.
fn plain_answer(ending: &Ending) -> &'static [u8]
    ensures { result.now ≡ plain_answer ending.now }
{
    match ending {
        Ending::Verified(_) => b"s VERIFIED\n",
        Ending::ModelRight => b"s MODEL RIGHT\n",
        Ending::Elaborated(_) => b"s ELABORATED\n",
        _ => b"",
    }
}

/// Writes what an ending puts on the Answer port. It takes no memory.
#[tactic(auto, unfolding(crate::specs::Endings::answer_text))]
pub(crate) fn put_answer_text<D: Desk>(desk: &mut D, ending: &Ending) -> Result<(), Failed>
    ensures { PutsAll port.Answer (answer_text ending.now) (D.outside desk.old) result (D.outside desk.new) }
{
    match ending {
        Ending::NotVerified(step, cause) => {
            put_refusal(desk, *step, *cause, b"\ns NOT VERIFIED\n")
        }
        Ending::ModelWrong(wrong) => put_wrong(desk, *wrong),
        Ending::NotElaborated(step, cause) => {
            put_log_refusal(desk, *step, *cause, b"\ns NOT ELABORATED\n")
        }
        Ending::Satisfiable(values) => put_answer(desk, values.as_slice()),
        Ending::Unsatisfiable(failed) => put_unsatisfiable(desk, failed),
        Ending::Unknown(conflicts) => put_unknown(desk, *conflicts),
        Ending::Demonstrated(instance, shown) => put_demo(desk, *instance, *shown),
        Ending::Trimmed(core) => put_core(desk, core.clauses.as_slice(), core.parities.as_slice()),
        Ending::NotTrimmed(step, cause) => put_refusal(desk, *step, *cause, b"\ns NOT TRIMMED\n"),
        Ending::Blasted { variables, clauses } => put_blasted(desk, *variables, *clauses),
        Ending::Affine(space) => put_solutions(desk, space),
        _ => put_all(desk, Port::Answer, plain_answer(ending)),
    }
}

/// The message where the words are refused.
const USAGE: &[u8] =
    b"error: usage\nusage: cxsat solve FORMULA [--proof LOG] [--conflicts N] [--inprocess]\nusage: cxsat check FORMULA PROOF\nusage: cxsat elab FORMULA LOG PROOF\nusage: cxsat model FORMULA ANSWER\nusage: cxsat demo KIND SIZE SEED\nusage: cxsat trim FORMULA PROOF OUT\nusage: cxsat blast FORMULA OUT\nusage: cxsat affine FORMULA\n";

/// A line with a place.
fn put_place_line<D: Desk>(desk: &mut D, front: &[u8], place: u64) -> Result<(), Failed>
    ensures { PutsAll port.Message (joined (front.now ∷ decimal place ∷ codes "\n" ∷ [])) (D.outside desk.old) result (D.outside desk.new) }
{
    let mut number = Buffer::new();
    let place = number.format(place).as_bytes();
    put_pieces(desk, Port::Message, &[front, place, b"\n"])
}

/// The line of a formula's offence.
fn put_offence<D: Desk>(desk: &mut D, offence: Offence) -> Result<(), Failed>
    ensures { PutsAll port.Message (offence_text offence) (D.outside desk.old) result (D.outside desk.new) }
{
    match offence {
        Offence::NoHeader(place) => put_place_line(desk, b"error: formula F1 at byte ", place),
        Offence::BadHeader(place) => put_place_line(desk, b"error: formula F2 at byte ", place),
        Offence::BadToken(place) => put_place_line(desk, b"error: formula F3 at byte ", place),
        Offence::Unterminated(place) => put_place_line(desk, b"error: formula F4 at byte ", place),
        Offence::VarLimit(place) => put_place_line(desk, b"error: limit L1 at byte ", place),
    }
}

/// The message of an outcome that tells no number.
fn plain_message(outcome: &Outcome) -> &'static [u8]
    ensures { result.now ≡ plain_message outcome.now }
{
    match outcome {
        Outcome::Ended(Ending::TooLong(Slot::Formula)) => b"error: limit L2 formula\n",
        Outcome::Ended(Ending::TooLong(Slot::Second)) => b"error: limit L2 second\n",
        Outcome::Ended(_) => b"",
        Outcome::Usage => USAGE,
        Outcome::ReadFault => b"error: read fault\n",
        Outcome::WriteFault => b"error: write fault\n",
        Outcome::Memory => b"error: out of memory\n",
    }
}

/// Writes what an outcome puts on the Message port.
#[tactic(auto, unfolding(crate::specs::Endings::message_text))]
pub(crate) fn put_message_text<D: Desk>(desk: &mut D, outcome: &Outcome) -> Result<(), Failed>
    ensures { PutsAll port.Message (message_text outcome.now) (D.outside desk.old) result (D.outside desk.new) }
{
    match outcome {
        Outcome::Ended(Ending::FormulaRefused(offence)) => put_offence(desk, *offence),
        Outcome::Ended(Ending::TooManyVariables(number)) => {
            put_place_line(desk, b"error: limit L3 at constraint ", *number)
        }
        _ => put_all(desk, Port::Message, plain_message(outcome)),
    }
}
