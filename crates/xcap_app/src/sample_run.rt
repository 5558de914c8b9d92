//! A sample, run on a server in memory.
ghost use Rattle.std.specs.Prelude.{◌≡◌, ◌≤◌, ◌*◌, length, IfOk};
ghost use Rattle.xcap_app.specs.StatusRecorders.{RecordedState};
ghost use Rattle.xcap_app.specs.SampleRequests.{all_connections};
ghost use Rattle.xcap_app.specs.SampleCommand.{MakesSample};
ghost use Rattle.xcap_app.specs.inner.RecorderSteps.{HasRoomForStatuses, ServesConnectionBytes};
ghost use Rattle.xcap_app.specs.inner.RecorderSteps.{RepresentsRecorded};

use crate::known_port::KnownPort;
use crate::sample_connections::build_connections;
use crate::sample_summary::Summary;
use crate::status_recorder::StatusRecorder;
use http_serve::{ConnectionBuffers, serve_streams};
use http_wire::MAX_REQUESTS;
use std::alloc::{AllocError, Global};
use watchers::Watcher;
use xcap_io::Bytes;

// Serves connections with these bytes, one after the other. No watcher is notified.
fn serve_connections(
    alloc: Global,
    noting: &mut StatusRecorder,
    buffers: &mut ConnectionBuffers,
    connections: Vec<Bytes>,
)
    requires room_left { HasRoomForStatuses noting.old
        (length connections.items * MAX_REQUESTS) }
    ensures serves_all { (m : RecordedState)
        → RepresentsRecorded noting.old.server.root noting.old m
        → ServesConnectionBytes noting.old.server.root connections.items noting.new m }
{
    let mut watchers: Vec<Box<dyn Watcher>> = Vec::new(alloc);
    let count = connections.len() as u64;
    let mut port = KnownPort::new(alloc, connections);
    serve_streams(noting, buffers, &mut port, count, &mut watchers);
}

// The summary of this many requests, which are the ones of the connections.
fn run_connections(
    alloc: Global,
    requests: u64,
    connections: Vec<Bytes>,
) -> Result<Summary, AllocError>
    requires within_max { length connections.items ≤ 4294968 }
    requires every_connection { connections.items ≡ all_connections requests }
    ensures sample_summary { IfOk result (λ summary. MakesSample requests summary) }
{
    let mut buffers = ConnectionBuffers::new(alloc)?;
    let mut noting = StatusRecorder::new(alloc, connections.len() * MAX_REQUESTS)?;
    serve_connections(alloc, &mut noting, &mut buffers, connections);
    let summary = noting.summary(requests);
    // Dropped by a call, whose proof is made once, rather than at each exit.
    drop(noting);
    Ok(summary)
}

/// Makes the sample of this many requests: a new server is served their connections, in memory,
/// one after the other. A request for which memory runs out gets the 503 and counts as refused,
/// and the other requests of its connection are not made. All other memory is reserved before the
/// first request.
///
/// # Errors
/// `AllocError` when out of memory before the first request.
pub(crate) fn run_sample(alloc: Global, requests: u32) -> Result<Summary, AllocError>
    ensures sample_summary { IfOk result (λ summary. MakesSample requests summary) }
{
    let requests = u64::from(requests);
    let connections = build_connections(alloc, requests)?;
    run_connections(alloc, requests, connections)
}
