//! What callers in C call.
ghost use Rattle.std.specs.Prelude.{◌≡◌, false, true, None, Some, option_map, IfErr, IfOk, MatchResult};
ghost use Rattle.zebludor_program.specs.Sessions.{Answers, Begins, BeginsSession, IsBegun, IsRefusal, IsRefused, Repeats, TellsReply, refusal_told};

use crate::buffer::put;
use crate::handle::Handle;
use crate::parts::Parts;
use crate::session::OpenSession;
use pcboard_program::ready::board_of;
use pcboard_texts::fault::Fault;
use std::alloc::{AllocError, Global};

/// There is no session.
pub const NO_SESSION: u8 = 1;

/// There is no memory for the text.
pub const NO_MEMORY: u8 = 3;

/// What the beginning of a session came to.
#[repr(C)]
#[derive(Clone, Copy)]
pub struct Begun {
    /// The refused line of the source or of the HEX text, from 1 on; 0 if there is none.
    pub line: u64,
    /// The fault's number; 0 if the session has begun.
    pub fault: u8,
}

/// How a line was answered.
#[repr(C)]
#[derive(Clone, Copy)]
pub struct Told {
    /// How many bytes the text has; 0 at statuses 1 and 3.
    pub length: u64,
    /// 0: `out` begins with the text, and what comes after it is as it was. 1: there is no session. 2: the text is
    /// longer than `out`. 3: there is no memory to write the text. Unless it is 0, all of `out` is as it was.
    pub status: u8,
    /// The number of the fault with which the line was refused; 0 if it was answered.
    pub fault: u8,
}

/// What is told if there is no session.
const NONE: Told = Told {
    length: 0,
    status: NO_SESSION,
    fault: 0,
};

/// Begins a session of `pcprobe` for a caller in C, at clock 0 of the board that a source and the text of a run file
/// give, and hands it over in `session`; the one that was there is ended first. If it is refused, there is none after
/// it, and `begun` says why.
#[unsafe(no_mangle)]
pub extern "C" fn zebludor_session_new(
    alloc: Global,
    session: &mut Handle,
    source: &[u8],
    run: &[u8],
    begun: &mut Begun,
)
    ensures { Begins true false source.now run.now session.new.session begun.new }
{
    drop(taken(alloc, session));
    *begun = hand_over(session, begin(alloc, true, false, source, run));
}

/// Begins a session of `pcprobe` of a text of Intel HEX, as `zebludor_session_new` does of a source.
#[unsafe(no_mangle)]
pub extern "C" fn zebludor_session_new_hex(
    alloc: Global,
    session: &mut Handle,
    text: &[u8],
    run: &[u8],
    begun: &mut Begun,
)
    ensures { Begins true true text.now run.now session.new.session begun.new }
{
    drop(taken(alloc, session));
    *begun = hand_over(session, begin(alloc, true, true, text, run));
}

/// Begins a session of `pcboard debug`, as `zebludor_session_new` does one of `pcprobe`; the same calls answer its lines
/// and end it.
#[unsafe(no_mangle)]
pub extern "C" fn zebludor_debug_new(
    alloc: Global,
    session: &mut Handle,
    source: &[u8],
    run: &[u8],
    begun: &mut Begun,
)
    ensures { Begins false false source.now run.now session.new.session begun.new }
{
    drop(taken(alloc, session));
    *begun = hand_over(session, begin(alloc, false, false, source, run));
}

/// Begins a session of `pcboard debug` of a text of Intel HEX, as `zebludor_debug_new` does of a source.
#[unsafe(no_mangle)]
pub extern "C" fn zebludor_debug_new_hex(
    alloc: Global,
    session: &mut Handle,
    text: &[u8],
    run: &[u8],
    begun: &mut Begun,
)
    ensures { Begins false true text.now run.now session.new.session begun.new }
{
    drop(taken(alloc, session));
    *begun = hand_over(session, begin(alloc, false, true, text, run));
}

/// Does what a caller's line commands, as the session's program does, keeps the reply, and writes its text into `out` if
/// that has room. The command is done even if it hasn't.
#[unsafe(no_mangle)]
pub extern "C" fn zebludor_session_command(
    alloc: Global,
    session: &mut Handle,
    line: &[u8],
    out: &mut [u8],
    told: &mut Told,
)
    ensures { Answers line.now session.old.session session.new.session out.old out.new told.new }
{
    *told = match taken(alloc, session) {
        None => NONE,
        Some(mut one) => {
            one.answer(alloc, line);
            let told = tell(alloc, &one, out);
            hold(session, one);
            told
        }
    };
}

/// Writes the text of the last reply into `out` again, for a caller in C whose buffer was too small for it.
#[unsafe(no_mangle)]
pub extern "C" fn zebludor_session_text(
    alloc: Global,
    session: &mut Handle,
    out: &mut [u8],
    told: &mut Told,
)
    ensures { Repeats session.old.session session.new.session out.old out.new told.new }
{
    *told = match taken(alloc, session) {
        None => NONE,
        Some(one) => {
            let told = tell(alloc, &one, out);
            hold(session, one);
            told
        }
    };
}

/// Ends the caller's session, if there is one, and gives all of its memory back.
#[unsafe(no_mangle)]
pub extern "C" fn zebludor_session_drop(alloc: Global, session: &mut Handle)
    ensures { session.new.session ≡ None }
{
    drop(taken(alloc, session));
}

/// Takes the session out of the caller's handle, so that a call can work on it or end it; `None` if there is none. The
/// handle is left without one.
fn taken(alloc: Global, session: &mut Handle) -> Option<Box<OpenSession>>
    ensures session { option_map (λ session. session.value) result ≡ session.old.session }
    ensures none { session.new.session ≡ None }
{
    let (is_there, old) = std::mem::replace(session, Handle::none()).with_flag();
    if is_there {
        Some(old.into_parts(alloc).into_box())
    } else {
        None
    }
}

/// Puts a session into the caller's handle, which has none: a new one, or one that a call took out and has worked on.
fn hold(session: &mut Handle, one: Box<OpenSession>)
    ensures { session.new.session ≡ Some one.value }
{
    *session = Handle::holding(Parts::of(one));
}

/// Makes a session of `pcprobe`, if `probes`, else of `pcboard debug`, about the board at power-on of a HEX text, if
/// `hex`, else of a source, under the text of a run file, or gives the fault with which the texts are refused.
fn begin(
    alloc: Global,
    probes: bool,
    hex: bool,
    bytes: &[u8],
    run: &[u8],
) -> Result<Box<OpenSession>, Fault>
    ensures session { IfOk result (λ session. BeginsSession probes hex bytes.now run.now session.value) }
    ensures fault { IfErr result (IsRefusal hex bytes.now run.now) }
{
    let board = board_of(alloc, hex, bytes, run)?;
    match OpenSession::new(alloc, probes, board) {
        Ok(session) => Ok(session),
        Err(fault) => Err(Fault::Session(fault)),
    }
}

/// Ends a call that begins a session: puts it into the caller's handle, which has none, or gives the refusal to tell
/// the caller.
fn hand_over(session: &mut Handle, one: Result<Box<OpenSession>, Fault>) -> Begun
    requires { session.old.session ≡ None }
    ensures { MatchResult one (λ one. IsBegun one.value session.new.session result)
        (λ fault. IsRefused fault session.new.session result) }
{
    match one {
        Ok(one) => {
            hold(session, one);
            Begun { line: 0, fault: 0 }
        }
        Err(fault) => refused(&fault),
    }
}

/// The refusal of a session as a caller in C gets it: the fault's number, and the line of the source or HEX text, or
/// 0.
fn refused(fault: &Fault) -> Begun
    ensures { result ≡ refusal_told fault.now }
{
    let line = fault.line().unwrap_or(0);
    let fault = fault.number();
    Begun { line, fault }
}

/// Writes the text of a session's last reply into the caller's buffer, and gives the result of the call: how long the
/// text is, whether it was written, and the fault with which the line was refused, or 0.
fn tell(alloc: Global, session: &OpenSession, out: &mut [u8]) -> Told
    ensures { TellsReply session.now.reply out.old out.new result }
{
    let fault = session.fault();
    match session.text(alloc) {
        Ok(text) => Told {
            length: text.len() as u64,
            status: put(text.as_slice(), out),
            fault,
        },
        Err(AllocError) => Told {
            length: 0,
            status: NO_MEMORY,
            fault,
        },
    }
}
