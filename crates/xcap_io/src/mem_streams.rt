// Streams in memory that begin one after the other: the connections of a port or a peer in memory.
ghost use Rattle.std.specs.Prelude.{◌≡◌, ◌<◌, length, None, option_copied, slice_get};
ghost use Rattle.std.specs.Io.{ReadsAtMost};
ghost use Rattle.xcap_io.specs.StreamStates.{OnlyReads, OnlyWrites};
ghost use Rattle.xcap_io.specs.MemoryStreams.{BeginsLine, ReadsPresentLine, WritesPresentLine};
ghost use Rattle.xcap_io.specs.MemoryStreams.{lines_state, next_line_number};
ghost use Rattle.xcap_io.specs.StreamTraffic.{GivesReadBytes, TakesWrittenBytes};
ghost use Rattle.xcap_io.specs.StreamWrites.{WritesSome};

use crate::streams::count_fault;
use crate::{Failed, Line, MemStream, Sink, Source};
use std::marker::Model;

/// Streams that begin in order. Reads and writes go to the present stream.
#[derive(Drop)]
pub(crate) struct MemStreams {
    lines: Vec<MemStream>,
    present: Option<usize>,
    read_faults: u64,
    write_faults: u64,
}

impl Model for MemStreams {
    ghost use Rattle.std.specs.Prelude.{◌<◌, ◌≤◌, length};
    ghost use Rattle.xcap_io.specs.MemoryStreams.{MemoryLines, next_line_number};

    ghost Value = { MemoryLines };

    ghost view = { λ m. record {
      lines = m.lines.items;
      present = m.present;
      read_faults = m.read_faults;
      write_faults = m.write_faults;
    } };

    ghost invariant = { λ m. next_line_number m.present ≤ length m.lines.items };
}

impl MemStreams {
    /// Streams of which none has begun.
    pub(crate) fn new(lines: Vec<MemStream>) -> MemStreams
        ensures none_has_begun { result
            ≡ record { lines = lines.items; present = None; read_faults = 0; write_faults = 0 } }
    {
        MemStreams {
            lines,
            present: None,
            read_faults: 0,
            write_faults: 0,
        }
    }

    /// Stream number `i`, from 0.
    pub(crate) fn line(&self, i: usize) -> Option<&MemStream>
        ensures exact { option_copied result ≡ slice_get self.now.lines i }
    {
        self.lines.get(i)
    }

    /// Begins the next stream. Returns false where none is left.
    pub(crate) fn begin_next(&mut self) -> bool
        ensures begins_next { BeginsLine self.old self.new result }
    {
        let at = match self.present {
            Some(present) => present + 1,
            None => 0,
        };
        if at == self.lines.len() {
            return false;
        }
        let line = &mut self.lines[at];
        line.begin_connection();
        self.present = Some(at);
        true
    }
}

impl Line for MemStreams {
    ghost state = { lines_state };
}

impl Source for MemStreams {
    fn read(&mut self, buf: &mut [u8]) -> Result<usize, Failed>
        requires { 0 < length buf.old }
        ensures in_bounds { ReadsAtMost result buf.new }
        ensures appends_read { GivesReadBytes (lines_state self.old).inward
            (lines_state self.new).inward result buf.new }
        ensures only_reads { OnlyReads (lines_state self.old) (lines_state self.new) result }
        ensures as_memory_form { ReadsPresentLine self.old self.new (length buf.old) result }
    {
        let Some(at) = self.present else {
            return Ok(0);
        };
        let line = &mut self.lines[at];
        match line.read(buf) {
            Ok(count) => Ok(count),
            Err(Failed) => Err(count_fault(&mut self.read_faults)),
        }
    }
}

impl Sink for MemStreams {
    fn write(&mut self, piece: &[u8]) -> Result<usize, Failed>
        requires { 0 < length piece.now }
        ensures in_bounds { WritesSome result piece.now }
        ensures appends_written { TakesWrittenBytes (lines_state self.old).taken
            (lines_state self.new).taken result piece.now }
        ensures only_writes { OnlyWrites (lines_state self.old) (lines_state self.new) result }
        ensures as_memory_form { WritesPresentLine self.old self.new piece.now result }
    {
        let Some(at) = self.present else {
            return Err(count_fault(&mut self.write_faults));
        };
        let line = &mut self.lines[at];
        match line.write(piece) {
            Ok(count) => Ok(count),
            Err(Failed) => Err(count_fault(&mut self.write_faults)),
        }
    }
}
