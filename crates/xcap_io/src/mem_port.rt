// A port in memory, for tests and for programs over known bytes.
ghost use Rattle.std.specs.Prelude.{◌≡◌, ◌<◌, length, None, Some, IsTrue, ◌↔◌, option_copied};
ghost use Rattle.std.specs.Prelude.{slice_get};
ghost use Rattle.std.specs.Io.{ReadsAtMost};
ghost use Rattle.xcap_io.specs.StreamStates.{OnlyReads, OnlyWrites};
ghost use Rattle.xcap_io.specs.Connections.{Listens, OnlyAcceptsNext};
ghost use Rattle.xcap_io.specs.MemoryStreams.{countdown_after_call, ReadsPresentLine};
ghost use Rattle.xcap_io.specs.MemoryStreams.{WritesPresentLine, ListensInMemory, AcceptsInMemory};
ghost use Rattle.xcap_io.specs.MemoryStreams.{port_state};
ghost use Rattle.xcap_io.specs.StreamTraffic.{GivesReadBytes, TakesWrittenBytes};
ghost use Rattle.xcap_io.specs.StreamWrites.{WritesSome};

use crate::address_history::AddressHistory;
use crate::mem_streams::MemStreams;
use crate::streams::count_fault;
use crate::{Failed, Line, MemStream, Port, Sink, Source};
use std::marker::Model;

/// A port whose connections are streams in memory. Contracts see all of them, what was written to
/// each, and the address it listens at.
#[derive(Drop)]
pub struct MemPort {
    lines: MemStreams,
    listen_fails: bool,
    until_fault: Option<usize>,
    addresses: AddressHistory,
    faults: u64,
}

impl Model for MemPort {
    ghost use Rattle.xcap_io.specs.MemoryStreams.{MemoryPort, latest_address};

    ghost Value = { MemoryPort };

    ghost view = { λ m. record {
      lines = m.lines;
      listen_fails = m.listen_fails;
      until_fault = m.until_fault;
      listening = latest_address m.addresses.texts;
      faults = m.faults;
    } };
}

impl MemPort {
    /// A port whose connections are `lines`, in order. Each begins with nothing written. Every
    /// `listen` fails if `listen_fails` is set, and so does call number `next_fails_at` of `next`,
    /// counted from 1. Does not allocate.
    pub fn new(lines: Vec<MemStream>, listen_fails: bool, next_fails_at: Option<usize>) -> MemPort
        ensures exact { result ≡ record {
          lines = record { lines = lines.items; present = None; read_faults = 0; write_faults = 0 };
          listen_fails = listen_fails;
          until_fault = next_fails_at;
          listening = None;
          faults = 0;
        } }
    {
        MemPort {
            lines: MemStreams::new(lines),
            listen_fails,
            until_fault: next_fails_at,
            addresses: AddressHistory::new(),
            faults: 0,
        }
    }

    /// Stream number `i`, from 0. Does not allocate.
    pub fn line(&self, i: usize) -> Option<&MemStream>
        ensures exact { option_copied result ≡ slice_get self.now.lines.lines i }
    {
        self.lines.line(i)
    }
}

/// Counts a call, and returns whether it is the one that fails.
pub(crate) fn is_failing_call(until_fault: &mut Option<usize>) -> bool
    ensures fails_iff { IsTrue result ↔ (until_fault.old ≡ Some 1) }
    ensures counts_down { until_fault.new ≡ countdown_after_call until_fault.old }
{
    match *until_fault {
        Some(1) => {
            *until_fault = None;
            true
        }
        Some(calls) if calls > 1 => {
            *until_fault = Some(calls - 1);
            false
        }
        _ => false,
    }
}

impl Line for MemPort {
    ghost state = { port_state };
}

impl Source for MemPort {
    fn read(&mut self, buf: &mut [u8]) -> Result<usize, Failed>
        requires { 0 < length buf.old }
        ensures in_bounds { ReadsAtMost result buf.new }
        ensures appends_read { GivesReadBytes (port_state self.old).inward
            (port_state self.new).inward result buf.new }
        ensures only_reads { OnlyReads (port_state self.old) (port_state self.new) result }
        ensures as_memory_form { ReadsPresentLine self.old.lines self.new.lines
            (length buf.old) result }
        ensures rest_unchanged { self.new ≡ record self.old { lines = self.new.lines } }
    {
        self.lines.read(buf)
    }
}

impl Sink for MemPort {
    fn write(&mut self, piece: &[u8]) -> Result<usize, Failed>
        requires { 0 < length piece.now }
        ensures in_bounds { WritesSome result piece.now }
        ensures appends_written { TakesWrittenBytes (port_state self.old).taken
            (port_state self.new).taken result piece.now }
        ensures only_writes { OnlyWrites (port_state self.old) (port_state self.new) result }
        ensures as_memory_form { WritesPresentLine self.old.lines self.new.lines piece.now result }
        ensures rest_unchanged { self.new ≡ record self.old { lines = self.new.lines } }
    {
        self.lines.write(piece)
    }
}

impl Port for MemPort {
    fn listen(&mut self, address: &str) -> Result<(), Failed>
        ensures listens_or_fails { Listens (port_state self.old)
            (port_state self.new) result address.now }
        ensures as_memory_form { ListensInMemory self.old self.new result address.now }
    {
        if self.listen_fails {
            return Err(count_fault(&mut self.faults));
        }
        self.addresses.add(address.as_bytes());
        Ok(())
    }

    fn next(&mut self) -> Result<bool, Failed>
        ensures only_next { OnlyAcceptsNext (port_state self.old) (port_state self.new) result }
        ensures as_memory_form { AcceptsInMemory self.old self.new result }
    {
        if is_failing_call(&mut self.until_fault) {
            return Err(count_fault(&mut self.faults));
        }
        Ok(self.lines.begin_next())
    }
}
