//! Laws of the definitions. Each function's contract is the law, and its body is empty.
ghost use Rattle.cx_texts.specs.Laws.{EventsGiveSteps, EventsReadInOneWay, FormulasReadInOneWay, LinesGiveEvents, LinesReadInOneWay, LogsReadInOneWay, PrintedLinesRead, PrintedLogsRead, PrintedProofsRead, ProofsReadInOneWay};

/// A text is one formula, or has one first offence.
pub fn formulas_read_in_one_way()
    ensures { FormulasReadInOneWay }
{}

/// A text is one list of proof steps with one ending.
pub fn proofs_read_in_one_way()
    ensures { ProofsReadInOneWay }
{}

/// A text is one list of log steps with one ending.
pub fn logs_read_in_one_way()
    ensures { LogsReadInOneWay }
{}

/// A text is one list of log events with one ending.
pub fn events_read_in_one_way()
    ensures { EventsReadInOneWay }
{}

/// The steps of a log's events are the steps of its text.
pub fn events_give_steps()
    ensures { EventsGiveSteps }
{}

/// A text has at most one list of lines: log events, and tidy lines between them.
pub fn lines_read_in_one_way()
    ensures { LinesReadInOneWay }
{}

/// The events of a log's lines are the events of its text.
pub fn lines_give_events()
    ensures { LinesGiveEvents }
{}

/// Printed lines are read as these lines.
pub fn printed_lines_read()
    ensures { PrintedLinesRead }
{}

/// A printed log is read as its events.
pub fn printed_logs_read()
    ensures { PrintedLogsRead }
{}

/// A printed proof is read as its steps.
pub fn printed_proofs_read()
    ensures { PrintedProofsRead }
{}
