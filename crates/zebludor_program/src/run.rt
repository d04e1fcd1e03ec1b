//! Runs of sources and of HEX texts.
ghost use Rattle.std.specs.Prelude.{◌≡◌, true, false, length, MatchResult, string_bytes};
ghost use Rattle.pcboard_texts.specs.Answer.{IsReport, IsTrueRefusal};
ghost use Rattle.pcboard_texts.specs.RunFaults.{IsWantOfMemory};
ghost use Rattle.zebludor_program.specs.Buffers.{buffer_after};
ghost use Rattle.zebludor_program.specs.RunOutcomes.{Accepts, Tells, fault_outcome, text_outcome};

use crate::buffer::put;
use pcboard_program::report::Report;
use pcboard_program::run::run_texts;
use pcboard_texts::fault::Fault;
use std::alloc::Global;

/// The run was refused.
pub const REFUSED: u8 = 1;

/// How a run ended.
#[repr(C)]
#[derive(Clone, Copy)]
pub struct Outcome {
    /// How many bytes the report has; 0 if the run was refused.
    pub length: u64,
    /// The refused line of the source or of the HEX text, from 1 on; 0 if there is none.
    pub line: u64,
    /// 0: `out` begins with the report, and what comes after it is as it was. 1: the run was refused. 2: the report is
    /// longer than `out`. Unless it is 0, all of `out` is as it was.
    pub status: u8,
    /// The fault's number; 0 if the run wasn't refused.
    pub fault: u8,
}

/// Runs a source under the text of a run file, for a caller in C, and writes the report into `out` if that has room;
/// the outcome says how long it is, or why the run was refused.
#[unsafe(no_mangle)]
pub extern "C" fn zebludor_run(
    alloc: Global,
    source: &[u8],
    run: &[u8],
    out: &mut [u8],
    outcome: &mut Outcome,
)
    ensures told { Tells (IsReport false source.now run.now) (IsTrueRefusal false source.now run.now) out.old out.new
        outcome.new }

    // If the source gives an image and the run file a board that can have it, only the want of memory refuses them.
    ensures accepted { Accepts false source.now run.now → Tells (IsReport false source.now run.now) IsWantOfMemory
        out.old out.new outcome.new }
{
    *outcome = tell(run_texts(alloc, false, source, run), out);
}

/// Runs a text of Intel HEX under the text of a run file, for a caller in C, and writes the report into `out` if that
/// has room; the outcome says how long it is, or why the run was refused.
#[unsafe(no_mangle)]
pub extern "C" fn zebludor_run_hex(
    alloc: Global,
    text: &[u8],
    run: &[u8],
    out: &mut [u8],
    outcome: &mut Outcome,
)
    ensures told { Tells (IsReport true text.now run.now) (IsTrueRefusal true text.now run.now) out.old out.new
        outcome.new }

    // If the text gives an image and the run file a board that can have it, only the want of memory refuses them.
    ensures accepted { Accepts true text.now run.now → Tells (IsReport true text.now run.now) IsWantOfMemory
        out.old out.new outcome.new }
{
    *outcome = tell(run_texts(alloc, true, text, run), out);
}

/// Ends a call of a run: writes its report into the caller's buffer if it has room, or leaves the buffer as it is if
/// the run was refused, and gives the outcome that the caller gets.
fn tell(report: Result<Report, Fault>, out: &mut [u8]) -> Outcome
    ensures outcome { MatchResult report (λ report. result ≡ text_outcome (string_bytes report.text) (length out.old))
        (λ fault. result ≡ fault_outcome fault) }
    ensures buffer { MatchResult report (λ report. out.new ≡ buffer_after (string_bytes report.text) out.old)
        (λ fault. out.new ≡ out.old) }
{
    match report {
        Ok(report) => {
            let text = report.text.as_bytes();
            Outcome {
                length: text.len() as u64,
                line: 0,
                status: put(text, out),
                fault: 0,
            }
        }
        Err(fault) => refused(&fault),
    }
}

/// The outcome of a run that was refused, as a caller in C gets it: the fault's number, and the line of the source or
/// HEX text, or 0.
fn refused(fault: &Fault) -> Outcome
    ensures { result ≡ fault_outcome fault.now }
{
    let line = fault.line().unwrap_or(0);
    let number = fault.number();
    Outcome {
        length: 0,
        line,
        status: REFUSED,
        fault: number,
    }
}
