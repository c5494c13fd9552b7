//! The laws of the search's steps. Each function's contract is the law, and its body is empty.
ghost use Rattle.search_steps.specs.Laws.{AnswersHold, AssignedValuesHold, AssumptionsAreNotTold, BegunIsRanged, BegunIsSearch, BoundsRise, ChainedClausesEnd, ClauseConflictsAreNow, ClauseStepsKeep, DecisionsKeep, DeletionsKeep, EndedIsUnmet, FalsifiedHasChain, FinalIsHinted, ForcedIsImplied, FreshEnginesHold, FullIsMet, HighIsNoReason, HighIsNotAmong, HighIsSpared, ImpliedClausesRest, JumpsKeep, JumpsStayTied, KnownIsTrue, LargerClausesRest, LastStepsEnd, LaterEntriesGo, LearnedClausesKeep, LearnedDeletionsKeep, LearnedIsHinted, LowIsCover, MarksKeep, NewLevelsHold, NextIdsAreFree, NoValueIsOpen, NothingIsBegun, OpenHasNoValue, OriginalClausesAreTold, OriginalParitiesAreTold, OtherTrailsKeepRanges, PropagationsKeep, RecoveredParitiesJoin, RecoveredTakesOne, RoundsAreTidy, RoundsKeep, RoundsKeepRanges, RoundsStayTied, RowClausesEnd, RowClausesKeep, RowConflictsAreNow, RowIdsAreTemporary, RowReasonsKeep, RowReasonsServe, RowStepsKeep, RowsAreOfParities, SearchesAreOpen, SettledWantsNoDecision, SilentIsQuiet, StepsAddFew, StoredForces, StoredIsFalse, StoredRests, SumDeletionsKeep, SumsAreFreeAgain, SumsAreFreeAtFirst, SumsKeep, TaughtIsLearned, TheirsAreHad, TidyLinesComeLate, TidyLinesGoOn, TidyStepsEnd, TidyStepsKeep, TidyStepsKeepCounts, TidyStepsKeepRanges, TidyStepsKeepSums, ToldStepsAddFew, ToldStepsKeepRanges, TrailStepsKeepRanges, TrailsHaveNoClash, UnitParitiesKeep, UnitsBesideKeep, UnitsKeep, ValuesTakenBackHold, WatchedIsQuiet};

/// At the start nothing is told.
pub fn nothing_is_begun()
    ensures { NothingIsBegun }
{}

/// The next clause of the formula is told under the next id.
pub fn original_clauses_are_told()
    ensures { OriginalClausesAreTold }
{}

/// The next parity of the formula is told under the next id of its own.
pub fn original_parities_are_told()
    ensures { OriginalParitiesAreTold }
{}

/// An assumption constraint is not told.
pub fn assumptions_are_not_told()
    ensures { AssumptionsAreNotTold }
{}

/// After the last constraint the search holds, with the parities of the formula, where its assumptions don't clash.
pub fn begun_is_search()
    ensures { BegunIsSearch }
{}

/// A recovered parity joins the engine's, before the first decision.
pub fn recovered_parities_join()
    ensures { RecoveredParitiesJoin }
{}

/// A literal that a live clause forces keeps the search, and the code's trail with that literal put on it is tied to the longer one.
pub fn clause_steps_keep()
    ensures { ClauseStepsKeep }
{}

/// A whole propagation keeps the search: entries that live clauses force one after another.
pub fn propagations_keep()
    ensures { PropagationsKeep }
{}

/// A literal that a clause of the parities forces keeps the search.
pub fn row_steps_keep()
    ensures { RowStepsKeep }
{}

/// A decision keeps the search, where both engines are quiet.
pub fn decisions_keep()
    ensures { DecisionsKeep }
{}

/// A jump back keeps the search, to a level up to which all levels are quiet.
pub fn jumps_keep()
    ensures { JumpsKeep }
{}

/// After a jump back the code's trail is that of the calculus.
pub fn jumps_stay_tied()
    ensures { JumpsStayTied }
{}

/// The steps of the reason that a row gave keep the search.
pub fn row_reasons_keep()
    ensures { RowReasonsKeep }
{}

/// Telling the sum of live parities keeps the search.
pub fn sums_keep()
    ensures { SumsKeep }
{}

/// Telling the parity of a live unit clause keeps the search.
pub fn unit_parities_keep()
    ensures { UnitParitiesKeep }
{}

/// Telling the clause of a row keeps the search, where the row's sum is live.
pub fn row_clauses_keep()
    ensures { RowClausesKeep }
{}

/// Deleting a sum keeps the search, where its id is above the engine's parities.
pub fn sum_deletions_keep()
    ensures { SumDeletionsKeep }
{}

/// Telling the unit clause of a literal of level 0 keeps the search, and the literal rests on it from then on.
pub fn units_keep()
    ensures { UnitsKeep }
{}

/// Telling the unit clause of a literal with right hints keeps the search at level 0, where the literal's negation is in a clause that a chain for the empty clause needs beside live ones.
pub fn units_beside_keep()
    ensures { UnitsBesideKeep }
{}

/// The mark of a counted conflict keeps the search.
pub fn marks_keep()
    ensures { MarksKeep }
{}

/// Telling the learned clause with right hints keeps the search, where one is owed.
pub fn learned_clauses_keep()
    ensures { LearnedClausesKeep }
{}

/// Deleting temporary clauses one after another keeps the search.
pub fn deletions_keep()
    ensures { DeletionsKeep }
{}

/// Deleting a learned clause that is no reason keeps the search, where the formula's clauses are covered without it and enough are left.
pub fn learned_deletions_keep()
    ensures { LearnedDeletionsKeep }
{}

/// A whole conflict keeps the search: the mark, the learned clause, the deletions, the jump back, and the literal that the clause forces.
pub fn rounds_keep()
    ensures { RoundsKeep }
{}

/// The reason of a row leaves no sum, and a search that may be marked stays so.
pub fn row_reasons_serve()
    ensures { RowReasonsServe }
{}

/// After a whole conflict the search is tidy.
pub fn rounds_are_tidy()
    ensures { RoundsAreTidy }
{}

/// The literal that the learned clause forces is open on the code's trail after the jump, and is added to it.
pub fn rounds_stay_tied()
    ensures { RoundsStayTied }
{}

/// The clause that an analysis answers is learned, asserting by its first literal.
pub fn taught_is_learned()
    ensures { TaughtIsLearned }
{}

/// The hints of a learned clause are right: the ids of the clauses that were resolved, the last one's first, and then the conflict's.
pub fn learned_is_hinted()
    ensures { LearnedIsHinted }
{}

/// The hints of what is left of a clause whose literals were traced to decisions are right.
pub fn final_is_hinted()
    ensures { FinalIsHinted }
{}

/// A clause that forced an entry in the calculus is one that implied its literal on the code's trail.
pub fn forced_is_implied()
    ensures { ForcedIsImplied }
{}

/// Above level 0 a clause with the literals of a live one has a literal that is false at the current level or not at all.
pub fn clause_conflicts_are_now()
    ensures { ClauseConflictsAreNow }
{}

/// Above level 0 a clause that the parities imply has such a literal.
pub fn row_conflicts_are_now()
    ensures { RowConflictsAreNow }
{}

/// The clause of a row of the engine is one that the parities imply.
pub fn rows_are_of_parities()
    ensures { RowsAreOfParities }
{}

/// Where the steps are right and the last one ends the log, no values meet the formula.
pub fn ended_is_unmet()
    ensures { EndedIsUnmet }
{}

/// A right step that ends a log makes it one that is right to its end; the negations of its clause's literals are assumed, and no values meet the clauses and parities with them.
pub fn last_steps_end()
    ensures { LastStepsEnd }
{}

/// A clause with right hints ends a log in this way, and the marks are as before where no clause is owed.
pub fn chained_clauses_end()
    ensures { ChainedClausesEnd }
{}

/// The clause of a row ends a log in this way, where its sum is live.
pub fn row_clauses_end()
    ensures { RowClausesEnd }
{}

/// A live clause that is false by older entries, which all rest on live clauses, gives the empty clause a right chain.
pub fn falsified_has_chain()
    ensures { FalsifiedHasChain }
{}

/// While no clause is owed the log is open, and marked once for each conflict.
pub fn searches_are_open()
    ensures { SearchesAreOpen }
{}

/// Where both engines are quiet, all is decided and each assumed literal is held, the values of the trail meet the formula.
pub fn full_is_met()
    ensures { FullIsMet }
{}

/// The engine's parities say what the formula's do, where these come first among them and then the recovered ones.
pub fn theirs_are_had()
    ensures { TheirsAreHad }
{}

/// Where both engines are quiet over a formula that is settled with the recovered parities, all is decided.
pub fn settled_wants_no_decision()
    ensures { SettledWantsNoDecision }
{}

/// Live clauses that each have a true literal, two open ones or a literal with its negation are quiet.
pub fn watched_is_quiet()
    ensures { WatchedIsQuiet }
{}

/// The trail has no literal together with its negation.
pub fn trails_have_no_clash()
    ensures { TrailsHaveNoClash }
{}

/// A clause rests where a stored list with the same literals has a true one or two open ones.
pub fn stored_rests()
    ensures { StoredRests }
{}

/// A clause forces what a stored list with the same literals forces.
pub fn stored_forces()
    ensures { StoredForces }
{}

/// A clause is false where each literal of a stored list with the same literals is.
pub fn stored_is_false()
    ensures { StoredIsFalse }
{}

/// A clause rests where one inside it does.
pub fn larger_clauses_rest()
    ensures { LargerClausesRest }
{}

/// Each clause that quiet parities imply rests.
pub fn implied_clauses_rest()
    ensures { ImpliedClausesRest }
{}

/// Where the engine is silent, the parities are quiet over the trail.
pub fn silent_is_quiet()
    ensures { SilentIsQuiet }
{}

/// A fresh engine holds the values of an empty trail.
pub fn fresh_engines_hold()
    ensures { FreshEnginesHold }
{}

/// An engine that is assigned the literal of the next entry holds the values of the longer trail.
pub fn assigned_values_hold()
    ensures { AssignedValuesHold }
{}

/// An engine that opens a level holds what it held.
pub fn new_levels_hold()
    ensures { NewLevelsHold }
{}

/// An engine that answers an event holds what it held.
pub fn answers_hold()
    ensures { AnswersHold }
{}

/// An engine that takes levels back holds the values of the trail that is left.
pub fn values_taken_back_hold()
    ensures { ValuesTakenBackHold }
{}

/// Newer entries above a level do not count in a jump back to it.
pub fn later_entries_go()
    ensures { LaterEntriesGo }
{}

/// What the engine knows is true on the code's trail, which may have newer entries.
pub fn known_is_true()
    ensures { KnownIsTrue }
{}

/// An unassigned literal has no value.
pub fn open_has_no_value()
    ensures { OpenHasNoValue }
{}

/// A variable without a value is open on the code's trail.
pub fn no_value_is_open()
    ensures { NoValueIsOpen }
{}

/// The ranges of ids hold at the start.
pub fn begun_is_ranged()
    ensures { BegunIsRanged }
{}

/// Steps of the trail keep the ranges: a decision, a literal that a row or a clause forces, a jump back, and a literal that rests on its unit.
pub fn trail_steps_keep_ranges()
    ensures { TrailStepsKeepRanges }
{}

/// Steps that are told keep the ranges: a clause for good, the reason of a row, deletions, a recovered parity, a mark.
pub fn told_steps_keep_ranges()
    ensures { ToldStepsKeepRanges }
{}

/// Any other trail whose reasons are below the bound keeps the ranges.
pub fn other_trails_keep_ranges()
    ensures { OtherTrailsKeepRanges }
{}

/// A whole conflict keeps the ranges, and the ids of rows begin anew.
pub fn rounds_keep_ranges()
    ensures { RoundsKeepRanges }
{}

/// Once no clause of a row is left, the bound may rise, and their ids begin there.
pub fn bounds_rise()
    ensures { BoundsRise }
{}

/// The next ids are free.
pub fn next_ids_are_free()
    ensures { NextIdsAreFree }
{}

/// Without a clause from the bound on each clause of the formula is covered still.
pub fn high_is_spared()
    ensures { HighIsSpared }
{}

/// A clause below the bound covers each that it lies inside.
pub fn low_is_cover()
    ensures { LowIsCover }
{}

/// Clauses of rows may go: none is a reason, and none is learned.
pub fn row_ids_are_temporary()
    ensures { RowIdsAreTemporary }
{}

/// No clause from the bound on is a reason where reasons are below it.
pub fn high_is_no_reason()
    ensures { HighIsNoReason }
{}

/// No id from the bound on is among ids below it.
pub fn high_is_not_among()
    ensures { HighIsNotAmong }
{}

/// At the start the ids above the formula's parities are free for sums.
pub fn sums_are_free_at_first()
    ensures { SumsAreFreeAtFirst }
{}

/// A recovered parity takes the next of them.
pub fn recovered_takes_one()
    ensures { RecoveredTakesOne }
{}

/// After the reason of a row the id of its sum is free again.
pub fn sums_are_free_again()
    ensures { SumsAreFreeAgain }
{}

/// What the steps of a search add to its log.
pub fn steps_add_few()
    ensures { StepsAddFew }
{}

/// Any steps add at most one each to its log.
pub fn told_steps_add_few()
    ensures { ToldStepsAddFew }
{}

/// At a restart the steps of a tidying keep the search, where they delete no reason.
pub fn tidy_steps_keep()
    ensures { TidyStepsKeep }
{}

/// Where the last of them ends the log, it is right to its end, marked as before, on schedule and hinted, and the negations of the last clause's literals are assumed.
pub fn tidy_steps_end()
    ensures { TidyStepsEnd }
{}

/// A learned clause that none of them deletes is learned still, and no reduction begins.
pub fn tidy_steps_keep_counts()
    ensures { TidyStepsKeepCounts }
{}

/// They keep the ranges of ids, where what was free is free in the end.
pub fn tidy_steps_keep_ranges()
    ensures { TidyStepsKeepRanges }
{}

/// They keep the ids of sums free.
pub fn tidy_steps_keep_sums()
    ensures { TidyStepsKeepSums }
{}

/// Lines that are tidied in time go on by one that fits them.
pub fn tidy_lines_go_on()
    ensures { TidyLinesGoOn }
{}

/// A log that is tidied in time has no tidy line before its hundredth mark.
pub fn tidy_lines_come_late()
    ensures { TidyLinesComeLate }
{}
