//! Logs: where their events go, their printed form, and their steps from a text.
#![tactic(auto)]

mod desk_log;
mod list_log;
mod log_list;
mod no_log;
mod plain;
mod print;
mod steps;

pub use cx_base::{LogEvent, LogStep};
pub use desk_log::DeskLog;
pub use list_log::ListLog;
pub use log_list::LogList;
pub use no_log::NoLog;
pub use print::{put_log, put_log_step};
pub use steps::{LogGrammar, LogText};
