//! Whole conversations with the program in memory, as files. They say what is run, the bytes that
//! come, and the bytes that have to be written. README.md says which files a case has.
//! Promises nothing upward: it prints a line for each case that goes as written, says what differs
//! in any other, and then exits with the status 1. It runs the cases that need no more than
//! streams and connections, each with whole bytes and byte by byte; `tools/cases` runs all.
//! The standards are RFC 4825 and RFC 9112.
#![tactic(auto)]

mod case_files;
mod case_options;
mod hall_moves;
mod run;
mod shared_stream;
mod streams;

use crate::case_files::read_case_file;
use crate::case_options::{CaseOptions, parse_runs};
use crate::run::run_passes;
use anyhow::Result;
use std::env;
use std::process::ExitCode;

// The size of a piece that is larger than any input.
const WHOLE: usize = 1_000_000;

// Whether a run of a case goes as written, with whole bytes and byte by byte.
fn passes_at_all_sizes(rt: &HostRuntime, name: &str, options: &CaseOptions) -> Result<bool> {
    let whole = run_passes(rt, name, options, WHOLE)?;
    Ok(run_passes(rt, name, options, 1)? && whole)
}

// The options of each run of a case.
fn read_runs(rt: &HostRuntime, name: &str) -> Result<Vec<CaseOptions>> {
    let bytes = read_case_file(rt, name, "case")?;
    parse_runs(rt.alloc(), str::from_utf8(&bytes)?)
}

// Whether all runs of a case go as written.
fn case_passes(rt: &HostRuntime, name: &str) -> Result<bool> {
    let mut alike = true;
    for options in &read_runs(rt, name)? {
        alike &= passes_at_all_sizes(rt, name, options)?;
    }
    Ok(alike)
}

fn main(rt: HostRuntime) -> Result<ExitCode> {
    let mut failed = false;
    for name in env::args(&rt)?.skip(1) {
        if case_passes(&rt, name.as_str())? {
            println!(rt; "{name}: as written")?;
        } else {
            failed = true;
        }
    }
    Ok(ExitCode::from(u8::from(failed)))
}
