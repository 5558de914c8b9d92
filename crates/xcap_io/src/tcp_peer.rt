// Outgoing connections over real sockets.
ghost use Rattle.std.specs.Prelude.{◌≡◌, ◌<◌, [], None, false, length, OnOk, OnErr, IsSome};
ghost use Rattle.std.specs.Io.{ReadsAtMost};
ghost use Rattle.xcap_io.specs.StreamStates.{OnlyReads, OnlyWrites, input_state_of, no_input};
ghost use Rattle.xcap_io.specs.StreamStates.{no_port};
ghost use Rattle.xcap_io.specs.StreamStates.{no_peer};
ghost use Rattle.xcap_io.specs.Connections.{OnlyConnects, peer_traffic};
ghost use Rattle.xcap_io.specs.StreamTraffic.{GivesReadBytes, TakesWrittenBytes};
ghost use Rattle.xcap_io.specs.SocketStreams.{ReadsStream, WritesStream};
ghost use Rattle.xcap_io.specs.StreamWrites.{WritesSome};

use crate::address_history::AddressHistory;
use crate::streams::count_fault;
use crate::tcp::{read_from, write_to};
use crate::traffic_log::TrafficLog;
use crate::{Failed, Line, Peer, Sink, Source};
use std::net::Net;

/// Makes connections over TCP. Contracts see the address of each, what passed over it, and the
/// fault counters; not what is left to read. Running out of memory inside a call is a fault like
/// any other.
#[derive(Drop)]
pub struct TcpPeer<N: Net + Drop> {
    net: N,
    stream: Option<N::Stream>,
    log: TrafficLog,
    addresses: AddressHistory,
    read_faults: u64,
    write_faults: u64,
    faults: u64,
}

impl<N: Net + Drop> TcpPeer<N> {
    /// A peer with no connection yet.
    pub fn new(net: N) -> TcpPeer<N>
        ensures nothing_passed { ⟦<TcpPeer<N> as Line>⟧.state result ≡ record {
          inward = no_input;
          taken = [];
          read_faults = 0;
          write_faults = 0;
          holds = [];
          aside = [];
          port = no_port;
          peer = no_peer;
        } }
    {
        TcpPeer {
            net,
            stream: None,
            log: TrafficLog::new(),
            addresses: AddressHistory::new(),
            read_faults: 0,
            write_faults: 0,
            faults: 0,
        }
    }
}

impl<N: Net + Drop> Line for TcpPeer<N> {
    ghost state = { λ p. record {
      inward = input_state_of p.log.history.now;
      taken = p.log.history.now.taken;
      read_faults = p.read_faults;
      write_faults = p.write_faults;
      holds = [];
      aside = [];
      port = no_port;
      peer = record {
        to_come = None;
        begun = record { earlier = p.log.history.earlier; is_present = p.log.history.is_present };
        addresses = p.addresses.texts;
        faults = p.faults;
      };
    } };
}

impl<N: Net + Drop> Source for TcpPeer<N> {
    fn read(&mut self, buf: &mut [u8]) -> Result<usize, Failed>
        requires { 0 < length buf.old }
        ensures in_bounds { ReadsAtMost result buf.new }
        ensures appends_read { GivesReadBytes (⟦<TcpPeer<N> as Line>⟧.state self.old).inward
            (⟦<TcpPeer<N> as Line>⟧.state self.new).inward result buf.new }
        ensures only_reads { OnlyReads
            (⟦<TcpPeer<N> as Line>⟧.state self.old) (⟦<TcpPeer<N> as Line>⟧.state self.new) result }
        ensures from_stream { ReadsStream (record {
          bytes = N.Stream.remaining;
          old = self.old.stream;
          new = self.new.stream;
        }) result buf.new }
    {
        read_from(&mut self.stream, &mut self.log, &mut self.read_faults, buf)
    }
}

impl<N: Net + Drop> Sink for TcpPeer<N> {
    fn write(&mut self, piece: &[u8]) -> Result<usize, Failed>
        requires { 0 < length piece.now }
        ensures in_bounds { WritesSome result piece.now }
        ensures appends_written { TakesWrittenBytes (⟦<TcpPeer<N> as Line>⟧.state self.old).taken
            (⟦<TcpPeer<N> as Line>⟧.state self.new).taken result piece.now }
        ensures only_writes { OnlyWrites
            (⟦<TcpPeer<N> as Line>⟧.state self.old) (⟦<TcpPeer<N> as Line>⟧.state self.new) result }
        ensures to_stream { WritesStream (record {
          bytes = N.Stream.contents;
          old = self.old.stream;
          new = self.new.stream;
        }) result piece.now }
    {
        write_to(
            &mut self.stream,
            &mut self.log,
            &mut self.write_faults,
            piece,
        )
    }
}

impl<N: Net + Drop> Peer for TcpPeer<N> {
    fn connect(&mut self, address: &str) -> Result<(), Failed>
        ensures only_connects { OnlyConnects
            (⟦<TcpPeer<N> as Line>⟧.state self.old)
            (⟦<TcpPeer<N> as Line>⟧.state self.new) result address.now }
        ensures stream_present { OnOk result (IsSome self.new.stream) }
        ensures err_no_stream { OnErr result (self.new.stream ≡ None) }
        ensures none_present { OnErr result
            ((⟦<TcpPeer<N> as Line>⟧.state self.new).peer.begun
            ≡ record {
              earlier = peer_traffic (⟦<TcpPeer<N> as Line>⟧.state self.old);
              is_present = false;
            }) }
    {
        // The present connection is closed first.
        self.stream = None;
        self.log.record_end();
        match system_calls::connect(&self.net, address) {
            Ok(stream) => {
                // Requests are few and large, so they are sent at once.
                system_calls::set_nodelay(&stream);
                self.stream = Some(stream);
                self.addresses.add(address.as_bytes());
                self.log.record_begin();
                Ok(())
            }
            Err(_) => Err(count_fault(&mut self.faults)),
        }
    }
}
