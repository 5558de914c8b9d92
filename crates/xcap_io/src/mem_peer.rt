// A peer in memory, for tests and for programs over known bytes.
ghost use Rattle.std.specs.Prelude.{◌≡◌, ◌<◌, [], length, None, option_copied, slice_get};
ghost use Rattle.std.specs.Io.{ReadsAtMost};
ghost use Rattle.xcap_io.specs.StreamStates.{OnlyReads, OnlyWrites};
ghost use Rattle.xcap_io.specs.Connections.{OnlyConnects};
ghost use Rattle.xcap_io.specs.MemoryStreams.{ReadsPresentLine, WritesPresentLine};
ghost use Rattle.xcap_io.specs.MemoryStreams.{ConnectsInMemory, peer_state};
ghost use Rattle.xcap_io.specs.StreamTraffic.{GivesReadBytes, TakesWrittenBytes};
ghost use Rattle.xcap_io.specs.StreamWrites.{WritesSome};

use crate::address_history::AddressHistory;
use crate::mem_port::is_failing_call;
use crate::mem_streams::MemStreams;
use crate::streams::count_fault;
use crate::{Failed, Line, MemStream, Peer, Sink, Source};
use std::marker::Model;

/// A peer whose connections are streams in memory. Contracts see all of them, the address of each,
/// and what passed over it.
#[derive(Drop)]
pub struct MemPeer {
    lines: MemStreams,
    until_fault: Option<usize>,
    addresses: AddressHistory,
    faults: u64,
}

impl Model for MemPeer {
    ghost use Rattle.xcap_io.specs.MemoryStreams.{MemoryPeer};

    ghost Value = { MemoryPeer };

    ghost view = { λ m. record {
      lines = m.lines;
      until_fault = m.until_fault;
      addresses = m.addresses.texts;
      faults = m.faults;
    } };
}

impl MemPeer {
    /// A peer whose connections are `lines`, in order. Each begins with nothing written. `connect`
    /// fails where no stream is left, and so does call number `connect_fails_at`, counted from 1.
    /// Does not allocate.
    pub fn new(lines: Vec<MemStream>, connect_fails_at: Option<usize>) -> MemPeer
        ensures exact { result ≡ record {
          lines = record { lines = lines.items; present = None; read_faults = 0; write_faults = 0 };
          until_fault = connect_fails_at;
          addresses = [];
          faults = 0;
        } }
    {
        MemPeer {
            lines: MemStreams::new(lines),
            until_fault: connect_fails_at,
            addresses: AddressHistory::new(),
            faults: 0,
        }
    }

    /// Stream number `i`, from 0. Does not allocate.
    pub fn line(&self, i: usize) -> Option<&MemStream>
        ensures exact { option_copied result ≡ slice_get self.now.lines.lines i }
    {
        self.lines.line(i)
    }
}

impl Line for MemPeer {
    ghost state = { peer_state };
}

impl Source for MemPeer {
    fn read(&mut self, buf: &mut [u8]) -> Result<usize, Failed>
        requires { 0 < length buf.old }
        ensures in_bounds { ReadsAtMost result buf.new }
        ensures appends_read { GivesReadBytes (peer_state self.old).inward
            (peer_state self.new).inward result buf.new }
        ensures only_reads { OnlyReads (peer_state self.old) (peer_state self.new) result }
        ensures as_memory_form { ReadsPresentLine self.old.lines self.new.lines
            (length buf.old) result }
        ensures rest_unchanged { self.new ≡ record self.old { lines = self.new.lines } }
    {
        self.lines.read(buf)
    }
}

impl Sink for MemPeer {
    fn write(&mut self, piece: &[u8]) -> Result<usize, Failed>
        requires { 0 < length piece.now }
        ensures in_bounds { WritesSome result piece.now }
        ensures appends_written { TakesWrittenBytes (peer_state self.old).taken
            (peer_state self.new).taken result piece.now }
        ensures only_writes { OnlyWrites (peer_state self.old) (peer_state self.new) result }
        ensures as_memory_form { WritesPresentLine self.old.lines self.new.lines piece.now result }
        ensures rest_unchanged { self.new ≡ record self.old { lines = self.new.lines } }
    {
        self.lines.write(piece)
    }
}

impl Peer for MemPeer {
    fn connect(&mut self, address: &str) -> Result<(), Failed>
        ensures only_connects { OnlyConnects (peer_state self.old)
            (peer_state self.new) result address.now }
        ensures as_memory_form { ConnectsInMemory self.old self.new result address.now }
    {
        if is_failing_call(&mut self.until_fault) {
            return Err(count_fault(&mut self.faults));
        }
        if !self.lines.begin_next() {
            return Err(count_fault(&mut self.faults));
        }
        self.addresses.add(address.as_bytes());
        Ok(())
    }
}
