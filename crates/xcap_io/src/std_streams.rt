// Real streams. Contracts see which bytes each call of the system gave and took.
ghost use Rattle.std.specs.Prelude.{◌≡◌, ◌<◌, [], length};
ghost use Rattle.std.specs.Io.{ReadsAtMost};
ghost use Rattle.std.specs.Io.KnownBytes.{ReadConsumes, WriteAppends};
ghost use Rattle.xcap_io.specs.StreamStates.{OnlyReads, OnlyWrites, input_state_of, no_input};
ghost use Rattle.xcap_io.specs.StreamStates.{no_port};
ghost use Rattle.xcap_io.specs.StreamStates.{no_peer};
ghost use Rattle.xcap_io.specs.StreamTraffic.{GivesReadBytes, TakesWrittenBytes};
ghost use Rattle.xcap_io.specs.StreamWrites.{WritesSome};

use crate::streams::count_fault;
use crate::traffic_log::TrafficLog;
use crate::{Failed, Line, Sink, Source};
use std::io::{Read, Write};

/// A real stream to read from, with a count of its faults. Contracts see the bytes that its reads
/// gave, not those left. Running out of memory inside the stream is a fault like any other.
#[derive(Drop)]
pub struct StdSource<R: Read> {
    reader: R,
    log: TrafficLog,
    faults: u64,
}

impl<R: Read> StdSource<R> {
    /// A source over this stream, with no faults yet.
    pub fn new(reader: R) -> StdSource<R>
        ensures nothing_passed { ⟦<StdSource<R> as Line>⟧.state result ≡ record {
          inward = no_input;
          taken = [];
          read_faults = 0;
          write_faults = 0;
          holds = [];
          aside = [];
          port = no_port;
          peer = no_peer;
        } }
    {
        StdSource {
            reader,
            log: TrafficLog::new(),
            faults: 0,
        }
    }
}

impl<R: Read> Line for StdSource<R> {
    ghost state = { λ s. record {
      inward = input_state_of s.log.history.now;
      taken = [];
      read_faults = s.faults;
      write_faults = 0;
      holds = [];
      aside = [];
      port = no_port;
      peer = no_peer;
    } };
}

impl<R: Read> Source for StdSource<R> {
    fn read(&mut self, buf: &mut [u8]) -> Result<usize, Failed>
        requires { 0 < length buf.old }
        ensures in_bounds { ReadsAtMost result buf.new }
        ensures appends_read { GivesReadBytes (⟦<StdSource<R> as Line>⟧.state self.old).inward
            (⟦<StdSource<R> as Line>⟧.state self.new).inward result buf.new }
        ensures only_reads { OnlyReads
            (⟦<StdSource<R> as Line>⟧.state self.old)
            (⟦<StdSource<R> as Line>⟧.state self.new) result }
        ensures from_stream { ReadConsumes (R.remaining self.old.reader)
            (R.remaining self.new.reader) result buf.new }
    {
        match system_calls::read(&mut self.reader, buf) {
            Ok(count) => {
                self.log.record_read(&buf[..count]);
                Ok(count)
            }
            Err(_) => Err(count_fault(&mut self.faults)),
        }
    }
}

/// A real stream to write to, with a count of its faults. Contracts see the bytes that its writes
/// handed over. Running out of memory inside the stream is a fault like any other.
#[derive(Drop)]
pub struct StdSink<W: Write> {
    writer: W,
    log: TrafficLog,
    faults: u64,
}

impl<W: Write> StdSink<W> {
    /// A sink over this stream, with no faults yet.
    pub fn new(writer: W) -> StdSink<W>
        ensures nothing_passed { ⟦<StdSink<W> as Line>⟧.state result ≡ record {
          inward = no_input;
          taken = [];
          read_faults = 0;
          write_faults = 0;
          holds = [];
          aside = [];
          port = no_port;
          peer = no_peer;
        } }
    {
        StdSink {
            writer,
            log: TrafficLog::new(),
            faults: 0,
        }
    }
}

impl<W: Write> Line for StdSink<W> {
    ghost state = { λ s. record {
      inward = no_input;
      taken = s.log.history.now.taken;
      read_faults = 0;
      write_faults = s.faults;
      holds = [];
      aside = [];
      port = no_port;
      peer = no_peer;
    } };
}

impl<W: Write> Sink for StdSink<W> {
    fn write(&mut self, piece: &[u8]) -> Result<usize, Failed>
        requires { 0 < length piece.now }
        ensures in_bounds { WritesSome result piece.now }
        ensures appends_written { TakesWrittenBytes (⟦<StdSink<W> as Line>⟧.state self.old).taken
            (⟦<StdSink<W> as Line>⟧.state self.new).taken result piece.now }
        ensures only_writes { OnlyWrites
            (⟦<StdSink<W> as Line>⟧.state self.old) (⟦<StdSink<W> as Line>⟧.state self.new) result }
        ensures to_stream { WriteAppends (W.contents self.old.writer)
            (W.contents self.new.writer) result piece.now }
    {
        match system_calls::write(&mut self.writer, piece) {
            Ok(count) if count > 0 => {
                self.log.record_write(&piece[..count]);
                Ok(count)
            }
            _ => Err(count_fault(&mut self.faults)),
        }
    }
}
