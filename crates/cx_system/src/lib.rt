//! The desk over the system's files and streams. It tells what its reads gave and what its writes took.
//!
//! Each of its reads and writes goes through `read_on` or `put_on`. They note what came and what was taken; and of every reader
//! and writer that tells its bytes, that is what it gave and what it took.
#![tactic(auto)]

mod real_desk;
mod source;
mod streams;

pub use real_desk::RealDesk;
