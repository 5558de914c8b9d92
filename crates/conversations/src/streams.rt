//! The streams and the hall of a run.
ghost use Rattle.std.specs.Prelude.{◌≡◌, [], IfOk};

use crate::case_files::read_case_file;
use crate::case_options::CaseOptions;
use anyhow::Result;
use halls::{Client, Hall, MemHall};
use std::alloc::{AllocError, Global};
use xcap_io::{MemPeer, MemPort, MemStream};

/// The size of each stream's buffer, which is more than any run needs.
pub const ROOM: usize = 1_000_000;

/// The streams of a run, except the one that its audit writes to.
#[derive(Drop)]
pub struct Lines {
    pub port: MemPort,
    pub peer: MemPeer,
    pub input: MemStream,
    pub output: MemStream,
    pub errors: MemStream,
}

fn repeat_bytes(alloc: Global, once: &[u8], repeat: usize) -> Result<Vec<u8>, AllocError> {
    let mut bytes = Vec::new(alloc);
    for _ in 0..repeat {
        bytes.extend_from_slice(once)?;
    }
    Ok(bytes)
}

// A stream that gives these bytes, in pieces of this size.
fn stream_of_bytes(alloc: Global, bytes: &[u8], size: usize) -> Result<MemStream, AllocError> {
    MemStream::new(alloc, bytes, size.max(1), None, ROOM)
}

// The stream that gives the bytes of the file with an ending.
fn file_stream(rt: &HostRuntime, name: &str, ending: &str, size: usize) -> Result<MemStream> {
    let bytes = read_case_file(rt, name, ending)?;
    Ok(stream_of_bytes(rt.alloc(), &bytes, size)?)
}

// The stream that gives the bytes of the input `repeat` times.
fn input_stream(rt: &HostRuntime, name: &str, repeat: usize, size: usize) -> Result<MemStream> {
    let once = read_case_file(rt, name, "in")?;
    let bytes = repeat_bytes(rt.alloc(), &once, repeat)?;
    Ok(stream_of_bytes(rt.alloc(), &bytes, size)?)
}

// Adds the stream of a kind with a number, from 0.
fn push_stream(
    rt: &HostRuntime,
    lines: &mut Vec<MemStream>,
    name: &str,
    kind: &str,
    index: usize,
    size: usize,
) -> Result<()> {
    let ending = format!(in rt.alloc(); "{kind}{}.in", index as u128 + 1)?;
    lines.push(file_stream(rt, name, ending.as_str(), size)?)?;
    Ok(())
}

// The `count` streams of a kind.
fn numbered_streams(
    rt: &HostRuntime,
    name: &str,
    kind: &str,
    count: usize,
    size: usize,
) -> Result<Vec<MemStream>> {
    let mut lines = Vec::new(rt.alloc());
    for index in 0..count {
        push_stream(rt, &mut lines, name, kind, index, size)?;
    }
    Ok(lines)
}

// How many connections come to the port, rather than to the hall.
fn port_connections(options: &CaseOptions) -> usize {
    if options.is_host() {
        return 0;
    }
    options.connections
}

// Adds the client with a number, from 0.
fn push_client(
    rt: &HostRuntime,
    clients: &mut Vec<Client>,
    name: &str,
    index: usize,
) -> Result<()> {
    let ending = format!(in rt.alloc(); "{}.in", index as u128 + 1)?;
    let bytes = read_case_file(rt, name, ending.as_str())?;
    clients.push(Client::new(rt.alloc(), bytes))?;
    Ok(())
}

// The clients of a hall.
fn hall_clients(rt: &HostRuntime, name: &str, options: &CaseOptions) -> Result<Vec<Client>> {
    let mut clients = Vec::new(rt.alloc());
    if options.is_host() {
        for index in 0..options.connections {
            push_client(rt, &mut clients, name, index)?;
        }
    }
    Ok(clients)
}

/// The hall to which the connections of a run come, where its command is `host`.
pub fn hall_of_run(rt: &HostRuntime, name: &str, options: &CaseOptions) -> Result<MemHall>
    ensures no_connections { IfOk result
        (λ hall. (⟦<MemHall as Hall>⟧.state hall).connections ≡ []) }
{
    let clients = hall_clients(rt, name, options)?;
    let moves = options.moves.to_vec(rt.alloc())?;
    Ok(MemHall::new(clients, moves))
}

impl Lines {
    /// The streams of a run whose bytes come in pieces of this size.
    pub fn new(rt: &HostRuntime, name: &str, options: &CaseOptions, size: usize) -> Result<Lines> {
        Ok(Lines {
            port: MemPort::new(
                numbered_streams(rt, name, "", port_connections(options), size)?,
                false,
                None,
            ),
            peer: MemPeer::new(
                numbered_streams(rt, name, "peer", options.peers, size)?,
                None,
            ),
            input: input_stream(rt, name, options.repeat, size)?,
            output: stream_of_bytes(rt.alloc(), b"", 1)?,
            errors: stream_of_bytes(rt.alloc(), b"", 1)?,
        })
    }
}
