// Connections that are open at once, and the calls that wait for them, accept them, read them,
// write to them and close them.
ghost use Rattle.std.specs.Prelude.{◌≡◌, ◌<◌, length};
ghost use Rattle.halls.specs.StateChanges.{hall_after_accept, hall_after_close, hall_after_listen};
ghost use Rattle.halls.specs.StateChanges.{hall_after_read};
ghost use Rattle.halls.specs.StateChanges.{hall_after_wait, hall_after_write};
ghost use Rattle.halls.specs.HallState.{HallState, connection_at};
ghost use Rattle.halls.specs.CallResults.{IsOpen, MayRead, MayReport, MayWrite, MayAccept};

use xcap_io::Failed;

/// A connection: the place that it was accepted for, and how many were accepted before it. A place
/// is used again after a close, a number never.
#[derive(Clone, Copy, PartialEq, Eq)]
pub struct ConnectionId {
    pub place: usize,
    pub number: u64,
}

/// What a wait reports.
#[derive(Clone, Copy, PartialEq, Eq)]
pub enum Event {
    /// A connection can be accepted.
    Knock,
    /// The connection's next call may make progress.
    Ready(ConnectionId),
    /// The connection's time is up.
    Late(ConnectionId),
    /// Nothing came.
    Quiet,
    /// Nothing will come any more.
    Over,
}

/// What came of a read or a write that didn't fail.
#[derive(Clone, Copy, PartialEq, Eq)]
pub enum Progress {
    /// This many bytes passed.
    Moved(usize),
    /// None could pass without waiting.
    Blocked,
}

/// Connections that are open at once. No call but `wait` waits.
pub trait Hall {
    ghost state: { Self → HallState };

    /// Starts to listen at this address.
    fn listen(&mut self, address: &str) -> Result<(), Failed>
        ensures listens { Self.state self.new
            ≡ hall_after_listen address.now result (Self.state self.old) };

    /// Waits until a connection can go on or its time is up, or until one can be accepted, where
    /// `takes_more` says that it would be.
    fn wait(&mut self, takes_more: bool) -> Result<Event, Failed>
        ensures counts_wait { Self.state self.new
            ≡ hall_after_wait takes_more result (Self.state self.old) }
        ensures truthful { MayReport (Self.state self.old) takes_more result };

    /// Accepts the next connection for this place. None where none is there.
    fn accept(&mut self, place: usize) -> Result<Option<ConnectionId>, Failed>
        ensures begins { Self.state self.new
            ≡ hall_after_accept place result (Self.state self.old) }
        ensures named { MayAccept place (Self.state self.old) result };

    /// Reads the next bytes of an open connection into the front of `buf`, which may not be empty.
    /// `Moved(0)` is the end of the input.
    fn read(&mut self, id: ConnectionId, buf: &mut [u8]) -> Result<Progress, Failed>
        requires open { IsOpen (Self.state self.old) id }
        requires some_room { 0 < length buf.old }
        ensures next_bytes { MayRead (connection_at (Self.state self.old) id.number).left
            buf.new result }
        ensures only_reads { Self.state self.new
            ≡ hall_after_read id.number buf.new result (Self.state self.old) };

    /// Writes some of `piece`, which may not be empty, to an open connection, from the first byte
    /// on.
    fn write(&mut self, id: ConnectionId, piece: &[u8]) -> Result<Progress, Failed>
        requires open { IsOpen (Self.state self.old) id }
        requires some_bytes { 0 < length piece.now }
        ensures within_piece { MayWrite piece.now result }
        ensures only_writes { Self.state self.new
            ≡ hall_after_write id.number piece.now result (Self.state self.old) };

    /// Closes an open connection. Its place is free then.
    fn close(&mut self, id: ConnectionId)
        requires open { IsOpen (Self.state self.old) id }
        ensures closes { Self.state self.new ≡ hall_after_close id.number (Self.state self.old) };

    /// The connection isn't reported ready again before others had their turn: its server can do
    /// nothing for it now.
    fn defer(&mut self, id: ConnectionId)
        ensures unchanged { Self.state self.new ≡ Self.state self.old };

    /// The connection is between two requests, so that it may be silent for longer.
    fn rest(&mut self, id: ConnectionId)
        ensures unchanged { Self.state self.new ≡ Self.state self.old };
}
