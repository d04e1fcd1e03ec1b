//! What a program of cases prints.
use crate::{Judged, judge_from};
use anyhow::{Result, bail};
use std::alloc::Global;
use std::io::Cursor;
use std::test::Fail;

/// Cases and settings, among lines that are neither.
const LINES: &str = "# a head\nset\nso\n\nnot so\n  \nset\nnot so\nso\n";

fn judge(_: Global, case: &str) -> Result<Judged> {
    match case {
        "set" => Ok(Judged::Setting),
        "so" => Ok(Judged::Case),
        _ => bail!("{case}"),
    }
}

#[test]
fn prints_cases_that_differ(rt: HostRuntime) -> Result<(), Fail> {
    let alloc = rt.alloc();
    let mut out = Vec::new(alloc);
    judge_from(alloc, Cursor::new(LINES.as_bytes()), &mut out, judge)?;
    assert_eq!(rt;
        out.as_slice(),
        b"line 5: not so\nline 8: not so\n4 cases, 2 differ\n".as_slice()
    );
    Ok(())
}

#[test]
fn joins_broken_lines(rt: HostRuntime) -> Result<(), Fail> {
    let alloc = rt.alloc();
    let mut out = Vec::new(alloc);
    let cases = "# a head \\\nso\ns\\\n  o\nnot \\\n# \\\n\t so\nnot so\nso \\\n";
    judge_from(alloc, Cursor::new(cases.as_bytes()), &mut out, judge)?;
    assert_eq!(rt;
        out.as_slice(),
        b"line 5: not # so\nline 8: not so\nline 9: goes on in no line\n4 cases, 2 differ\n".as_slice()
    );
    Ok(())
}

#[test]
fn counts_cases_that_are_not_printed(rt: HostRuntime) -> Result<(), Fail> {
    let alloc = rt.alloc();
    let mut out = Vec::new(alloc);
    let cases = "not so\n".repeat(alloc, 22)?;
    judge_from(alloc, Cursor::new(cases.as_bytes()), &mut out, judge)?;
    assert_eq!(rt; out.iter().filter(|byte| **byte == b'\n').count(), 21);
    assert!(rt; out.ends_with(b"line 20: not so\n22 cases, 22 differ\n".as_slice()));
    Ok(())
}
