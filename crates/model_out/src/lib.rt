//! Answers: the values of a formula's variables, printed and read.
#![tactic(auto)]

mod laws;
mod line_tokens;
mod mentions;
mod put;
mod read;
mod refusal;

pub use laws::{answers_are_judged_in_one_way, printed_answers_read, tokens_are_of_lines};
pub use put::put_answer;
pub use read::read_answer;
pub use refusal::AnswerRefusal;
