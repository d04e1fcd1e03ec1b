//! Inquiries into a session's board beyond the debugger's commands: what its chips hold, what stands in its memory as
//! instructions, and what happens in its clocks; and stops on events and on changes of bytes.
#![tactic(auto)]

mod board_bytes;
mod bytes;
mod chips;
mod counts;
mod edits;
mod event_lines;
pub mod lab;
pub mod laws;
mod levels;
mod looking;
mod making;
mod met;
mod moments;
pub mod probe;
mod running;
mod seen;
mod session;
mod telling;
mod typed;
mod watched;
