//! The rules of proof steps, each judged exactly, over the tables of live clauses and parities.
#![tactic(auto)]

mod added;
mod chain;
mod clauses_parity;
mod content;
mod first;
mod hints;
mod id_map;
mod judge;
mod kept;
mod literal_set;
mod live;
mod marks;
mod moving;
mod named;
mod page;
mod parity_clause;
mod parity_sum;
mod refusal;
mod sum;
mod table;

pub use added::admit_into;
pub use chain::{LeftOf, left_of};
pub use content::{fill_clause_content, fill_parity_content};
pub use hints::ids_of;
pub use id_map::IdMap;
pub use judge::{judge_chain, judge_clause_of_parity, judge_parity_of_clauses, judge_sum};
pub use literal_set::LiteralSet;
pub use live::{Kind, Live};
pub use marks::JudgeMarks;
pub use named::{judge_clause_of_named_parity, judge_named_sum, judge_parity_of_named_clauses};
pub use page::Filler;
pub use refusal::JudgeRefusal;
