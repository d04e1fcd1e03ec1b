//! The program `pcprobe`, over any files, standard input and writers: `pcboard`'s program with other words, and with
//! sessions that answer inquiries too.
#![tactic(auto)]

pub mod program;
pub mod tool;
