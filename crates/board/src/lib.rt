//! The system board, run: its engine leaps over time, and its view is the plain board at each clock. `run_from` is the
//! run's loop over single steps: what is rare is kept out of it by `#[inline(never)]`, so that its values stay in
//! registers.
#![tactic(auto)]

mod acts;
mod arrivals;
mod block_steps;
pub mod board;
pub mod change;
mod chips;
mod doing;
mod engine;
pub mod one_turn;
mod pass;
mod quietly;
mod stop;
mod trail;
pub mod typed;
mod waiting;
mod watch;
