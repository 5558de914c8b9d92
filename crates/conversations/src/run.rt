//! Runs of the program in memory.
ghost use Rattle.std.specs.Prelude.{◌≡◌, []};

use crate::case_files::matches_file;
use crate::case_options::CaseOptions;
use crate::shared_stream::SharedStream;
use crate::streams::{Lines, ROOM, hall_of_run};
use anyhow::Result;
use halls::{Hall, MemHall};
use std::alloc::{AllocError, Global};
use watchers::{Audit, Watcher};
use xcap_app::run;
use xcap_io::{MemStream, StdSink};

// The number of the first change of `host`.
const FIRST_NUMBER: u64 = 1_000;

// The words of a command line, separated by single spaces.
fn split_words(alloc: Global, line: &str) -> Result<Vec<String>, AllocError> {
    let mut words = Vec::new(alloc);
    if line.is_empty() {
        return Ok(words);
    }
    for word in line.split(' ') {
        words.push(String::from_str(alloc, word)?)?;
    }
    Ok(words)
}

// Runs the program on these streams, with an audit on a stream, and returns its status. It
// promises nothing, so that its caller isn't proved over all that `run` promises.
fn run_on_streams(
    alloc: Global,
    words: &[String],
    lines: &mut Lines,
    hall: &mut MemHall,
    told: &SharedStream,
) -> Result<u8, AllocError>
    requires no_connections { (⟦<MemHall as Hall>⟧.state hall.old).connections ≡ [] }
{
    let audit = Audit::new(alloc, StdSink::new(told.share()?));
    let mut watchers: Vec<Box<dyn Watcher>> = Vec::new(alloc);
    watchers.push(Box::new(alloc, audit)?)?;
    Ok(run(
        alloc,
        words,
        FIRST_NUMBER,
        &mut lines.port,
        hall,
        &mut lines.peer,
        &mut lines.input,
        &mut lines.output,
        &mut lines.errors,
        &mut watchers,
    ))
}

// The exit status of a command line that is run on these streams.
fn run_command_line(
    alloc: Global,
    line: &str,
    lines: &mut Lines,
    hall: &mut MemHall,
    told: &SharedStream,
) -> Result<u8, AllocError>
    requires no_connections { (⟦<MemHall as Hall>⟧.state hall.old).connections ≡ [] }
{
    let words = split_words(alloc, line)?;
    run_on_streams(alloc, &words, lines, hall, told)
}

// Whether a run ended with the expected status. Prints the status otherwise.
fn check_status(rt: &HostRuntime, name: &str, wanted: u8, status: u8) -> Result<bool> {
    if status != wanted {
        println!(rt; "{name}: ended with the status {status}")?;
    }
    Ok(status == wanted)
}

// Whether a stream of a kind with a number, from 0, took the expected bytes.
fn output_matches(
    rt: &HostRuntime,
    name: &str,
    kind: &str,
    index: usize,
    line: Option<&MemStream>,
) -> Result<bool> {
    let ending = format!(in rt.alloc(); "{kind}{}.out", index as u128 + 1)?;
    match line {
        Some(line) => matches_file(rt, name, ending.as_str(), line.sent()),
        None => Ok(true),
    }
}

// Whether the client of a hall with a number, from 0, was written the expected bytes.
fn client_matches(rt: &HostRuntime, name: &str, hall: &MemHall, index: usize) -> Result<bool> {
    let ending = format!(in rt.alloc(); "{}.out", index as u128 + 1)?;
    match hall.client(index) {
        Some(client) => matches_file(rt, name, ending.as_str(), client.output()),
        None => Ok(true),
    }
}

// Whether the connections and the peer's connections took the expected bytes.
fn all_outputs_match(
    rt: &HostRuntime,
    name: &str,
    options: &CaseOptions,
    lines: &Lines,
    hall: &MemHall,
) -> Result<bool> {
    let mut alike = true;
    for index in 0..options.connections {
        alike &= output_matches(rt, name, "", index, lines.port.line(index))?;
        alike &= client_matches(rt, name, hall, index)?;
    }
    for index in 0..options.peers {
        alike &= output_matches(rt, name, "peer", index, lines.peer.line(index))?;
    }
    Ok(alike)
}

// Whether the output, the stream for errors and the audit took the expected bytes.
fn streams_match(rt: &HostRuntime, name: &str, lines: &Lines, told: &SharedStream) -> Result<bool> {
    let mut alike = matches_file(rt, name, "out", lines.output.sent())?;
    alike &= matches_file(rt, name, "errors", lines.errors.sent())?;
    let told = told.output(rt.alloc())?;
    Ok(matches_file(rt, name, "audit", &told)? && alike)
}

// Whether a run of a case on these streams has the expected status and bytes.
fn passes_on_streams(
    rt: &HostRuntime,
    name: &str,
    options: &CaseOptions,
    lines: &mut Lines,
    told: &SharedStream,
) -> Result<bool> {
    let mut hall = hall_of_run(rt, name, options)?;
    let status = run_command_line(rt.alloc(), options.words.as_str(), lines, &mut hall, told)?;
    let mut alike = check_status(rt, name, options.status, status)?;
    alike &= streams_match(rt, name, lines, told)?;
    Ok(all_outputs_match(rt, name, options, lines, &hall)? && alike)
}

/// Whether a run of a case whose bytes come in pieces of this size has the expected status and
/// bytes.
pub fn run_passes(
    rt: &HostRuntime,
    name: &str,
    options: &CaseOptions,
    size: usize,
) -> Result<bool> {
    let told = SharedStream::new(rt.alloc(), ROOM)?;
    let mut lines = Lines::new(rt, name, options, size)?;
    passes_on_streams(rt, name, options, &mut lines, &told)
}
