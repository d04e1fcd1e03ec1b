//! The words of a probe's session: how its lines are read, and how what it shows is written. No board runs here.
#![tactic(auto)]

pub mod asked;
pub mod chips_text;
pub mod controller_text;
pub mod counter_text;
pub mod event_text;
mod forms_text;
pub mod inquiry;
pub mod kinds;
pub mod laws;
pub mod list_text;
pub mod moments_text;
pub mod shown;
pub mod stops;
pub mod telling;
pub mod wishes;
