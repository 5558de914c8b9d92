// Accepted connections over real sockets, and what outgoing ones share with them. Contracts see
// which bytes each call of the system gave and took, and on which connection.
ghost use Rattle.std.specs.Prelude.{◌≡◌, ◌<◌, ◌≤◌, [], None, Some, false, length, take, IfOk, OnOk};
ghost use Rattle.std.specs.Prelude.{OnErr, IsSome, IfSome, IsTrue, MatchResult};
ghost use Rattle.std.specs.Io.{ReadsAtMost};
ghost use Rattle.xcap_io.specs.StreamStates.{CountsFaults, OnlyReads, OnlyWrites, input_state_of};
ghost use Rattle.xcap_io.specs.StreamStates.{no_input};
ghost use Rattle.xcap_io.specs.StreamStates.{no_peer, no_connections};
ghost use Rattle.xcap_io.specs.Connections.{Listens, OnlyAcceptsNext, port_traffic};
ghost use Rattle.xcap_io.specs.ConnectionHistories.{with_read, with_write};
ghost use Rattle.xcap_io.specs.MemoryStreams.{latest_address};
ghost use Rattle.xcap_io.specs.StreamTraffic.{GivesReadBytes, TakesWrittenBytes};
ghost use Rattle.xcap_io.specs.SocketStreams.{ReadsStream, WritesStream};
ghost use Rattle.xcap_io.specs.StreamWrites.{WritesSome};

use crate::address_history::AddressHistory;
use crate::streams::count_fault;
use crate::traffic_log::TrafficLog;
use crate::{Failed, Line, Port, Sink, Source};
use std::io::{Read, Write};
use std::net::{Net, OpenListener, OpenStream};
use std::time::{Clock, Duration, Instant};
use system_calls::Accepted;

/// How many connections in a row may break before they are accepted, until `next` fails.
const BROKEN_CONNECTIONS: u32 = 100;

/// Accepts connections over TCP. Contracts see what passed over each connection, the address
/// listened at, and the fault counters; not what is still to come. Running out of memory inside a
/// call is a fault like any other.
///
/// No client can hold a connection for long: a read or write that waits for 10 seconds fails, and
/// so does each that begins 5 minutes after its connection was accepted, as far as the system has
/// such time-outs and a clock.
#[derive(Drop)]
pub struct TcpPort<N: Net + Clock + Drop> {
    net: N,
    listener: Option<N::Listener>,
    stream: Option<N::Stream>,
    connection_deadline: Option<Instant>,
    log: TrafficLog,
    addresses: AddressHistory,
    read_faults: u64,
    write_faults: u64,
    faults: u64,
}

impl<N: Net + Clock + Drop> TcpPort<N> {
    /// A port that does not listen yet.
    pub fn new(net: N) -> TcpPort<N>
        ensures nothing_passed { ⟦<TcpPort<N> as Line>⟧.state result ≡ record {
          inward = no_input;
          taken = [];
          read_faults = 0;
          write_faults = 0;
          holds = [];
          aside = [];
          port = record {
            listening = Some None;
            to_come = None;
            begun = no_connections;
            faults = 0;
          };
          peer = no_peer;
        } }
    {
        TcpPort {
            net,
            listener: None,
            stream: None,
            connection_deadline: None,
            log: TrafficLog::new(),
            addresses: AddressHistory::new(),
            read_faults: 0,
            write_faults: 0,
            faults: 0,
        }
    }
}

impl<N: Net + Clock + Drop> Line for TcpPort<N> {
    ghost state = { λ p. record {
      inward = input_state_of p.log.history.now;
      taken = p.log.history.now.taken;
      read_faults = p.read_faults;
      write_faults = p.write_faults;
      holds = [];
      aside = [];
      port = record {
        listening = Some (latest_address p.addresses.texts);
        to_come = None;
        begun = record { earlier = p.log.history.earlier; is_present = p.log.history.is_present };
        faults = p.faults;
      };
      peer = no_peer;
    } };
}

// One read from the present connection. A missing connection and a failed read are counted.
pub(crate) fn read_from<S: Read>(
    stream: &mut Option<S>,
    log: &mut TrafficLog,
    faults: &mut u64,
    buf: &mut [u8],
) -> Result<usize, Failed>
    ensures in_bounds { ReadsAtMost result buf.new }
    ensures faults_never_fall { CountsFaults faults.old faults.new result }
    ensures count_never_falls { faults.old ≤ faults.new }
    ensures from_stream { ReadsStream
        (record { bytes = S.remaining; old = stream.old; new = stream.new }) result buf.new }
    ensures logs_traffic { MatchResult result
        (λ n. log.new.history ≡ with_read log.old.history (take n buf.new))
        (λ _. log.new.history ≡ log.old.history) }
{
    match stream {
        Some(stream) => match system_calls::read(stream, buf) {
            Ok(count) => {
                log.record_read(&buf[..count]);
                Ok(count)
            }
            Err(_) => Err(count_fault(faults)),
        },
        None => Err(count_fault(faults)),
    }
}

// One write to the present connection. A missing connection, a failed write and a write of no
// bytes are counted.
pub(crate) fn write_to<S: Write>(
    stream: &mut Option<S>,
    log: &mut TrafficLog,
    faults: &mut u64,
    piece: &[u8],
) -> Result<usize, Failed>
    ensures in_bounds { WritesSome result piece.now }
    ensures faults_never_fall { CountsFaults faults.old faults.new result }
    ensures count_never_falls { faults.old ≤ faults.new }
    ensures to_stream { WritesStream
        (record { bytes = S.contents; old = stream.old; new = stream.new }) result piece.now }
    ensures logs_traffic { MatchResult result
        (λ n. log.new.history ≡ with_write log.old.history (take n piece.now))
        (λ _. log.new.history ≡ log.old.history) }
{
    match stream {
        Some(stream) => match system_calls::write(stream, piece) {
            Ok(count) if count > 0 => {
                log.record_write(&piece[..count]);
                Ok(count)
            }
            _ => Err(count_fault(faults)),
        },
        None => Err(count_fault(faults)),
    }
}

// Waits for the next connection, also after some that broke before they were accepted; None if
// nobody listens or it failed.
fn accept_next<L: OpenListener>(listener: &Option<L>) -> Option<L::Stream>
    ensures some_while_listening { IfSome result (λ _. IsSome listener.now) }
{
    match listener {
        Some(listener) => accept_unbroken(listener),
        None => None,
    }
}

// The next connection that did not break before it was accepted.
fn accept_unbroken<L: OpenListener>(listener: &L) -> Option<L::Stream> {
    for _ in 0..BROKEN_CONNECTIONS {
        match system_calls::accept(listener) {
            Accepted::Connection(stream) => return Some(stream),
            Accepted::Broken => (),
            Accepted::Failed => return None,
        }
    }
    None
}

// Sends what is written at once, as writes are few and large here, and limits each call on this
// stream to 10 seconds. A socket that can't do so works all the same.
fn set_options<S: OpenStream>(stream: &S) {
    let limit = Duration::from_secs(10);
    system_calls::set_nodelay(stream);
    system_calls::set_read_timeout(stream, limit);
    system_calls::set_write_timeout(stream, limit);
}

// The moment after which calls on a connection that begins now fail: in 5 minutes. None where the
// clock can't be read.
fn connection_deadline<C: Clock>(clock: &C) -> Option<Instant> {
    system_calls::now(clock)?.checked_add(Duration::from_secs(300))
}

// Whether this moment has passed.
fn has_passed<C: Clock>(clock: &C, moment: Option<Instant>) -> bool {
    match (system_calls::now(clock), moment) {
        (Some(now), Some(moment)) => now > moment,
        _ => false,
    }
}

impl<N: Net + Clock + Drop> Source for TcpPort<N> {
    fn read(&mut self, buf: &mut [u8]) -> Result<usize, Failed>
        requires { 0 < length buf.old }
        ensures in_bounds { ReadsAtMost result buf.new }
        ensures appends_read { GivesReadBytes (⟦<TcpPort<N> as Line>⟧.state self.old).inward
            (⟦<TcpPort<N> as Line>⟧.state self.new).inward result buf.new }
        ensures only_reads { OnlyReads
            (⟦<TcpPort<N> as Line>⟧.state self.old) (⟦<TcpPort<N> as Line>⟧.state self.new) result }
        ensures from_stream { ReadsStream (record {
          bytes = N.Stream.remaining;
          old = self.old.stream;
          new = self.new.stream;
        }) result buf.new }
        ensures same_listener { self.new.listener ≡ self.old.listener }
    {
        if has_passed(&self.net, self.connection_deadline) {
            return Err(count_fault(&mut self.read_faults));
        }
        read_from(&mut self.stream, &mut self.log, &mut self.read_faults, buf)
    }
}

impl<N: Net + Clock + Drop> Sink for TcpPort<N> {
    fn write(&mut self, piece: &[u8]) -> Result<usize, Failed>
        requires { 0 < length piece.now }
        ensures in_bounds { WritesSome result piece.now }
        ensures appends_written { TakesWrittenBytes (⟦<TcpPort<N> as Line>⟧.state self.old).taken
            (⟦<TcpPort<N> as Line>⟧.state self.new).taken result piece.now }
        ensures only_writes { OnlyWrites
            (⟦<TcpPort<N> as Line>⟧.state self.old) (⟦<TcpPort<N> as Line>⟧.state self.new) result }
        ensures to_stream { WritesStream (record {
          bytes = N.Stream.contents;
          old = self.old.stream;
          new = self.new.stream;
        }) result piece.now }
        ensures same_listener { self.new.listener ≡ self.old.listener }
    {
        if has_passed(&self.net, self.connection_deadline) {
            return Err(count_fault(&mut self.write_faults));
        }
        write_to(
            &mut self.stream,
            &mut self.log,
            &mut self.write_faults,
            piece,
        )
    }
}

impl<N: Net + Clock + Drop> Port for TcpPort<N> {
    fn listen(&mut self, address: &str) -> Result<(), Failed>
        ensures listens_or_fails { Listens
            (⟦<TcpPort<N> as Line>⟧.state self.old)
            (⟦<TcpPort<N> as Line>⟧.state self.new) result address.now }
        ensures has_listener { OnOk result (IsSome self.new.listener) }
        ensures same_listener { OnErr result (self.new.listener ≡ self.old.listener) }
        ensures same_stream { self.new.stream ≡ self.old.stream }
    {
        match system_calls::listen(&self.net, address) {
            Ok(listener) => {
                self.listener = Some(listener);
                self.addresses.add(address.as_bytes());
                Ok(())
            }
            Err(_) => Err(count_fault(&mut self.faults)),
        }
    }

    // More connections may always come.
    fn next(&mut self) -> Result<bool, Failed>
        ensures only_next { OnlyAcceptsNext
            (⟦<TcpPort<N> as Line>⟧.state self.old) (⟦<TcpPort<N> as Line>⟧.state self.new) result }
        ensures never_ends { IfOk result (λ begins. IsTrue begins) }
        ensures has_listener { OnOk result (IsSome self.old.listener) }
        ensures same_listener { self.new.listener ≡ self.old.listener }
        ensures stream_present { OnOk result (IsSome self.new.stream) }
        ensures err_no_stream { OnErr result (self.new.stream ≡ None) }
        ensures none_present { OnErr result
            ((⟦<TcpPort<N> as Line>⟧.state self.new).port.begun
            ≡ record {
              earlier = port_traffic (⟦<TcpPort<N> as Line>⟧.state self.old);
              is_present = false;
            }) }
    {
        // The client waits for the end of the present connection, so it is closed first.
        self.stream = None;
        self.log.record_end();
        match accept_next(&self.listener) {
            Some(stream) => {
                set_options(&stream);
                self.connection_deadline = connection_deadline(&self.net);
                self.stream = Some(stream);
                self.log.record_begin();
                Ok(true)
            }
            None => Err(count_fault(&mut self.faults)),
        }
    }
}
