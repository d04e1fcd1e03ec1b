//! The steps of a case, one after another.
use crate::verb::{Verb, number, verb_of};
use anyhow::{Context, Result, ensure};

/// What the steps of a case are made on.
pub trait Bench {
    /// Makes one access of a step to the chip: writes `value`, or reads if a value is wanted. Returns what is read, to
    /// be compared with the wanted value, or `value` if nothing is, or `None` if there is no such access.
    fn access(&mut self, verb: Verb, place: u64, value: u64) -> Option<u64>;
}

/// Makes the steps of a case, separated by semicolons, on a chip's bench, up to the first that fails, which the error
/// names. Then drops the bench.
pub fn follow<B: Bench + Drop>(mut bench: B, steps: &str) -> Result<()> {
    follow_on(&mut bench, steps)
}

/// Makes the steps of a case on a lent bench, so that `follow` drops it in one place, whether or not a step fails.
fn follow_on<B: Bench>(bench: &mut B, steps: &str) -> Result<()> {
    for step in steps.split(';') {
        make(bench, step).context(step.trim())?;
    }
    Ok(())
}

/// Makes a step of a case: one access for each of its values, or the one of a verb that has none. Fails if it can't be
/// read, is refused by the bench, or reads another value.
fn make<B: Bench>(bench: &mut B, step: &str) -> Result<()> {
    let (verb, place, values, radix) = read(step).context("no such verb or place")?;
    ensure!(
        values.is_empty() == (radix == 0),
        "values, or a value is missing"
    );
    if radix == 0 {
        bench.access(verb, place, 0).context("refused")?;
        return Ok(());
    }
    make_accesses(bench, verb, place, values, radix)
}

/// A step's verb, its place, its values as text, and their radix (0 for a verb that has none); `None` if there is no
/// such verb or place.
fn read(step: &str) -> Option<(Verb, u64, &str, u32)> {
    let (name, operands) = first_word(step);
    let (verb, place_radix, radix) = verb_of(name)?;
    let (place, values) = place_in(operands, place_radix)?;
    Some((verb, place, values, radix))
}

/// Makes an access for each of a step's values, in order, so that one step can write or expect many; fails with the
/// first that differs or can't be read.
fn make_accesses<B: Bench>(
    bench: &mut B,
    verb: Verb,
    place: u64,
    values: &str,
    radix: u32,
) -> Result<()> {
    for word in values.split_whitespace() {
        let value = number(word, radix).context("no such value")?;
        make_access(bench, verb, place, value, word)?;
    }
    Ok(())
}

/// The place of a step, as a port or an address, and the text of the values after it; 0 if its verb has no place.
/// `None` if the place is no number of this radix.
fn place_in(operands: &str, radix: u32) -> Option<(u64, &str)> {
    if radix == 0 {
        return Some((0, operands));
    }
    let (place, values) = first_word(operands);
    Some((number(place, radix)?, values))
}

/// Makes the access of one of a step's values, and fails if another value comes; the step has the value as `word`,
/// which the error names.
fn make_access<B: Bench>(
    bench: &mut B,
    verb: Verb,
    place: u64,
    value: u64,
    word: &str,
) -> Result<()> {
    let came = bench.access(verb, place, value).context("refused")?;
    ensure!(came == value, "wanted {word}, came {came:02X}");
    Ok(())
}

/// The first word of a step's text, and what follows it.
fn first_word(text: &str) -> (&str, &str) {
    let text = text.trim();
    text.split_once(' ').unwrap_or((text, ""))
}
