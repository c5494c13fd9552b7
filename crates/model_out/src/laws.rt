//! Laws of answers. Each function's contract is the law, and its body is empty.
ghost use Rattle.model_out.specs.Laws.{AnswersAreJudgedInOneWay, LineTokensAreOfLines, PrintedAnswersRead};

/// A text gives one list of values, or is refused for one cause, unless memory runs out.
pub fn answers_are_judged_in_one_way()
    ensures { AnswersAreJudgedInOneWay }
{}

/// A printed answer is read as the values that were printed, where they meet the formula.
pub fn printed_answers_read()
    ensures { PrintedAnswersRead }
{}

/// The tokens of an answer are those of its lines, and the first of each begins it.
pub fn tokens_are_of_lines()
    ensures { LineTokensAreOfLines }
{}
