// A source and a sink in memory, for tests and for programs over known bytes.
ghost use Rattle.std.specs.Prelude.{◌≡◌, ◌<◌, ◌≤◌, [], false, length, IfOk, IfSome, Some, min};
ghost use Rattle.std.specs.Io.{ReadsAtMost};
ghost use Rattle.xcap_io.specs.StreamStates.{OnlyReads, OnlyWrites};
ghost use Rattle.xcap_io.specs.MemoryStreams.{reset_line, ReadsInMemory, WritesInMemory};
ghost use Rattle.xcap_io.specs.MemoryStreams.{line_state};
ghost use Rattle.xcap_io.specs.inner.MemoryReads.{IsMaxReadLen};
ghost use Rattle.xcap_io.specs.StreamTraffic.{GivesReadBytes, TakesWrittenBytes};
ghost use Rattle.xcap_io.specs.StreamWrites.{WritesSome};

use crate::streams::count_fault;
use crate::traffic_log::TrafficLog;
use crate::{Failed, Line, Sink, Source};
use std::alloc::{AllocError, Global};
use std::marker::Model;

/// A stream in memory. It gives its bytes at most `step` at a time, takes bytes until its capacity
/// is used up, and fails where it was set to.
#[derive(Drop)]
pub struct MemStream {
    input: Vec<u8>,
    given: usize,
    step: usize,
    read_fails_at: Option<usize>,
    log: TrafficLog,
    output: Vec<u8>,
    held: usize,
    read_faults: u64,
    write_faults: u64,
}

impl Model for MemStream {
    ghost use Rattle.std.specs.Prelude.{◌-◌, ◌<◌, ◌≤◌, length, take, drop, option_map};
    ghost use Rattle.xcap_io.specs.MemoryStreams.{MemoryStream};

    ghost Value = { MemoryStream };

    ghost view = { λ m. record {
      left = drop m.given m.input.items;
      step = m.step;
      until_fault = option_map (λ place. place - m.given) m.read_fails_at;
      given = m.log.history.now.given;
      ended = m.log.history.now.ended;
      taken = take m.held m.output.items;
      room = length m.output.items;
      read_faults = m.read_faults;
      write_faults = m.write_faults;
    } };

    ghost invariant = { λ m.
        (0 < m.step) × (m.given ≤ length m.input.items) × (m.held ≤ length m.output.items) };
}

impl MemStream {
    /// A stream that gives `bytes`, at most `step` at a time, which is at least 1, and takes
    /// `free_len` bytes in all. A read at or beyond offset `read_fails_at` fails.
    pub fn new(
        alloc: Global,
        bytes: &[u8],
        step: usize,
        read_fails_at: Option<usize>,
        room: usize,
    ) -> Result<MemStream, AllocError>
        requires { 0 < step }
        ensures ok { IfOk result (λ line. line ≡ record {
          left = bytes.now;
          step = step;
          until_fault = read_fails_at;
          given = [];
          ended = false;
          taken = [];
          room = room;
          read_faults = 0;
          write_faults = 0;
        }) }
    {
        Ok(MemStream {
            input: bytes.to_vec(alloc)?,
            given: 0,
            step,
            read_fails_at,
            log: TrafficLog::new(),
            output: vec![in alloc; 0; room]?,
            held: 0,
            read_faults: 0,
            write_faults: 0,
        })
    }

    /// The bytes written so far. Does not allocate.
    pub fn sent(&self) -> &[u8]
        ensures exact { result.now ≡ self.now.taken }
    {
        &self.output[..self.held]
    }

    /// Forgets what has passed, for a new connection over this stream.
    pub(crate) fn begin_connection(&mut self)
        ensures begins_anew { self.new ≡ reset_line self.old }
    {
        self.held = 0;
        self.log = TrafficLog::new();
    }
}

impl Line for MemStream {
    ghost state = { line_state };
}

// How many of `wanted` bytes a read gives before the offset where reads fail; None from there on.
fn max_read_len(wanted: usize, given: usize, fails_at: Option<usize>) -> Option<usize>
    requires { 0 < wanted }
    ensures at_least_one { IfSome result (λ most. (0 < most) × (most ≤ wanted)) }
    ensures gives_stored { IsMaxReadLen wanted given fails_at result }
{
    match fails_at {
        Some(place) if given >= place => None,
        Some(place) => Some(wanted.min(place - given)),
        None => Some(wanted),
    }
}

impl Source for MemStream {
    fn read(&mut self, buf: &mut [u8]) -> Result<usize, Failed>
        requires { 0 < length buf.old }
        ensures in_bounds { ReadsAtMost result buf.new }
        ensures appends_read { GivesReadBytes (line_state self.old).inward
            (line_state self.new).inward result buf.new }
        ensures only_reads { OnlyReads (line_state self.old) (line_state self.new) result }
        ensures as_memory_form { ReadsInMemory self.old self.new (length buf.old) result }
    {
        let wanted = buf.len().min(self.step);
        let Some(most) = max_read_len(wanted, self.given, self.read_fails_at) else {
            return Err(count_fault(&mut self.read_faults));
        };
        let count = most.min(self.input.len() - self.given);
        buf[..count].copy_from_slice(&self.input[self.given..self.given + count]);
        self.given += count;
        self.log.record_read(&buf[..count]);
        Ok(count)
    }
}

impl Sink for MemStream {
    fn write(&mut self, piece: &[u8]) -> Result<usize, Failed>
        requires { 0 < length piece.now }
        ensures in_bounds { WritesSome result piece.now }
        ensures appends_written { TakesWrittenBytes (line_state self.old).taken
            (line_state self.new).taken result piece.now }
        ensures only_writes { OnlyWrites (line_state self.old) (line_state self.new) result }
        ensures as_memory_form { WritesInMemory self.old self.new piece.now result }
    {
        let count = piece.len().min(self.output.len() - self.held);
        if count == 0 {
            return Err(count_fault(&mut self.write_faults));
        }
        self.output[self.held..self.held + count].copy_from_slice(&piece[..count]);
        self.held += count;
        Ok(count)
    }
}
