//! Keys that are typed in a session.
ghost use Rattle.std.specs.Prelude.{◌≡◌, IfOk, MatchResult};
ghost use Rattle.std.specs.String.{string_bytes};
ghost use Rattle.probe.specs.Typed.{AnswersKey, IsRefused, IsToCome, key_text, stamp_of, typed_key};

use board_types::clock::Clock;
use board_types::digits::HexByte;
use board_types::keys::{StampedKey, is_scan_code};
use debugger::session::Session;
use debugger_meaning::answer::Answer;
use debugger_meaning::fault::DebugFault;
use std::alloc::{AllocError, Global};

/// Answers the inquiry `key`: takes a key's code, stamped `at`, or with the next clock, as if it had been there when
/// the session began. Refused in this order, with nothing changed: as `ClockLimit` if the stamp is past the last clock,
/// as `BadScan` if no key sends the code, as `StampsFall` if the stamp isn't later than the present clock, and as
/// `Memory` if there is none.
pub(crate) fn type_key(
    session: &mut Session,
    alloc: Global,
    code: u8,
    at: Option<u64>,
) -> Result<Answer, DebugFault>
    ensures { AnswersKey code at session.old result session.new }
{
    let key = key_to_come(session.board().clock(), code, at)?;
    // its text first: what follows is refused before it changes anything
    let text = key_text(alloc, &key)?;
    session.take_key(alloc, &key)?;
    Ok(Answer::Text(text))
}

/// Checks a typed key, before it is taken, and stamps it: it must be sent by some key, and still to come. Refused as
/// `type_key` says.
fn key_to_come(clock: Clock, code: u8, at: Option<u64>) -> Result<StampedKey, DebugFault>
    ensures { MatchResult result (λ key. (key ≡ typed_key clock code at) × IsToCome clock key)
        (IsRefused clock (typed_key clock code at)) }
{
    let Some(stamp) = Clock::new(stamp_of(clock, at)) else {
        return Err(DebugFault::ClockLimit);
    };
    if !is_scan_code(code) {
        return Err(DebugFault::BadScan);
    }
    if stamp <= clock {
        return Err(DebugFault::StampsFall);
    }
    Ok(StampedKey { stamp, code })
}

/// Returns the stamp of a typed key: the clock that was asked for, or the next one.
fn stamp_of(clock: Clock, at: Option<u64>) -> u64
    ensures { result ≡ stamp_of clock at }
{
    match at {
        Some(at) => at,
        None => clock.get() + 1,
    }
}

/// Returns the answer to the inquiry `key`: a line with the key's code and its stamp.
#[tactic(auto, unfolding(crate::specs::Typed::key_text))]
fn key_text(alloc: Global, key: &StampedKey) -> Result<String, AllocError>
    ensures { IfOk result (λ text. string_bytes text ≡ key_text key.now) }
{
    let code = HexByte(key.code);
    let stamp = key.stamp.get();
    format!(in alloc; "key {code} {stamp}\n")
}
