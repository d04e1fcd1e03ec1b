//! The steps of a case, one after another.
use crate::words::Words;
use anyhow::{Result, ensure};

/// What the steps of a case are made on.
pub trait Bench {
    /// Makes a step of a case, its verb on the board or chips with the other words. Returns whether it came out as the
    /// case says, or `None` if there is no such step.
    fn make(&mut self, verb: &str, words: Words) -> Option<bool>;
}

/// Makes the steps of a case, separated by semicolons, up to the first that doesn't come out, which the error names.
/// Then drops the bench, here for any bench: for one that has boards that would take long to prove.
pub fn follow<B: Bench + Drop>(mut bench: B, steps: &str) -> Result<()> {
    follow_on(&mut bench, steps)
}

/// Makes the steps of a case on a lent bench, so that `follow` drops it in one place, whether or not a step fails.
fn follow_on<B: Bench>(bench: &mut B, steps: &str) -> Result<()> {
    for step in steps.split(';') {
        let mut words = Words(step);
        let verb = words.word().unwrap_or("");
        ensure!(bench.make(verb, words) == Some(true), "{step}");
    }
    Ok(())
}
