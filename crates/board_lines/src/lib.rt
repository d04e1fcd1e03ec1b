//! What texts of a board have in common that needs no board: the lines of its registers, its clock, its state and the
//! speaker's changes; and, as definitions, the whole report. A crate of its own, so that what needs no board that
//! runs can be proved without waiting for `board`.
#![tactic(auto)]

pub mod lines;
