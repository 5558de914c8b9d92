// What contracts see of a byte stream, and the calls that read it, write to it and begin its
// connections.
ghost use Rattle.std.specs.Prelude.{◌≡◌, ◌<◌, ◌≤◌, length};
ghost use Rattle.std.specs.Io.{ReadsAtMost};
ghost use Rattle.xcap_io.specs.StreamStates.{StreamState, CountRises, OnlyReads, OnlyWrites};
ghost use Rattle.xcap_io.specs.Connections.{Listens, OnlyAcceptsNext, OnlyConnects};
ghost use Rattle.xcap_io.specs.MemoryStreams.{count_plus_one};
ghost use Rattle.xcap_io.specs.StreamTraffic.{GivesReadBytes, TakesWrittenBytes};
ghost use Rattle.xcap_io.specs.StreamWrites.{WritesSome};

/// A call on a stream failed. The stream's counter of such faults rose in that call, or is at the
/// greatest `u64`.
#[derive(Clone, Copy, PartialEq, Eq)]
pub struct Failed;

/// Adds 1 to a fault counter, which stops at the greatest `u64`.
pub fn count_fault(count: &mut u64) -> Failed
    ensures counts_one_more { count.new ≡ count_plus_one count.old }
    ensures count_never_falls { count.old ≤ count.new }
    ensures count_rises { CountRises count.old count.new }
{
    *count = count.saturating_add(1);
    Failed
}

/// What contracts see of a source, a sink, a port or a peer. It has no calls.
pub trait Line {
    ghost state: { Self → StreamState };
}

/// A source of bytes.
pub trait Source: Line {
    /// Reads the next bytes into the front of `buf`, which may not be empty, and returns their
    /// number. `Ok(0)` is the end of the input. A failed read takes no byte.
    fn read(&mut self, buf: &mut [u8]) -> Result<usize, Failed>
        requires { 0 < length buf.old }
        ensures in_bounds { ReadsAtMost result buf.new }
        ensures appends_read { GivesReadBytes (Self.state self.old).inward
            (Self.state self.new).inward result buf.new }
        ensures only_reads { OnlyReads (Self.state self.old) (Self.state self.new) result };
}

/// A sink of bytes.
pub trait Sink: Line {
    /// Writes at least one byte of `piece`, which may not be empty, from the first on, and returns
    /// how many. A device that takes none has failed. A failed write hands over nothing.
    fn write(&mut self, piece: &[u8]) -> Result<usize, Failed>
        requires { 0 < length piece.now }
        ensures in_bounds { WritesSome result piece.now }
        ensures appends_written { TakesWrittenBytes (Self.state self.old).taken
            (Self.state self.new).taken result piece.now }
        ensures only_writes { OnlyWrites (Self.state self.old) (Self.state self.new) result };
}

/// Accepts connections, one after the other. Reads and writes go to the present connection.
pub trait Port: Source + Sink {
    /// Starts to listen at this address.
    fn listen(&mut self, address: &str) -> Result<(), Failed>
        ensures listens_or_fails { Listens (Self.state self.old)
            (Self.state self.new) result address.now };

    /// Ends the present connection and accepts the next one. False where no more will come.
    fn next(&mut self) -> Result<bool, Failed>
        ensures only_next { OnlyAcceptsNext (Self.state self.old) (Self.state self.new) result };
}

/// Makes connections, one after the other. Reads and writes go to the present connection.
pub trait Peer: Source + Sink {
    /// Ends the present connection and connects to this address.
    fn connect(&mut self, address: &str) -> Result<(), Failed>
        ensures only_connects { OnlyConnects (Self.state self.old)
            (Self.state self.new) result address.now };
}
