//! What the program `pcboard` reads and prints, as far as it needs no board: files and typed lines, what sources, HEX
//! texts and run files give, HEX texts and listings, replies, refusals and exit statuses; and, as definitions, its
//! whole answer. A crate of its own beside `pcboard_program`, so that it can be proved without waiting for `board`.
#![tactic(auto)]

pub mod assembled;
pub mod debugging;
pub mod fault;
pub mod input;
mod listing;
pub mod system;
pub mod telling;
pub mod texts;
pub mod unanswered;
