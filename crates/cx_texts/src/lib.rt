//! What texts mean: tokens, words and grammars, and what is read by them and printed; the reading of tokens and of
//! the numbers in them.
#![tactic(auto)]

mod front;
mod integer;
mod laws;
mod line_state;
mod natural;
mod offence;
mod pieces;
mod places;
mod textual;
mod token_reader;

pub use front::{Front, FrontToken, SaidAt};
pub use integer::{Integer, has_minus, read_integer, small_integer};
pub use laws::{
    events_give_steps, events_read_in_one_way, formulas_read_in_one_way, logs_read_in_one_way,
    printed_logs_read, printed_proofs_read, proofs_read_in_one_way,
};
pub use line_state::{EndLines, LineState};
pub use natural::{is_digit_byte, read_natural};
pub use offence::Offence;
pub use pieces::{PlaceIn, line_behind, pass_blanks, whole_front};
pub use places::{begin_behind, begin_of_next, run_len};
pub use textual::Textual;
pub use token_reader::{TokenAt, TokenReader, is_blank_byte};
