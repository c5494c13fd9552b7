//! Steps from a text, by any grammar; where steps come from and where they go; the pieces of their printed form.
#![tactic(auto)]

pub mod ahead;
pub mod fields;
mod grammar;
mod lay_out;
mod line;
pub mod pieces;
mod short_integer;
mod short_moves;
mod sink;
mod slot_reader;
mod slot_text;
mod source;
mod spare;
mod step_text;
pub mod token_word;
mod unmade;

pub use grammar::StepGrammar;
pub use sink::{Sink, SinkFault};
pub use slot_reader::SlotReader;
pub use slot_text::SlotText;
pub use source::{StepSource, TextRefusal};
pub use spare::SpareLists;
pub use step_text::StepText;
pub use unmade::Unmade;
