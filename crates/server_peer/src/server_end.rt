// The server's end of a connection in memory.
ghost use Rattle.std.specs.Prelude.{◌≡◌, ◌≤◌, length, drop};
ghost use Rattle.xcap_io.specs.ConnectionHistories.{no_traffic};
ghost use Rattle.server_peer.specs.inner.ServerEnds.{KeepsReplyFront, server_end_state};

use xcap_io::{Failed, Line, Sink, Source, TrafficLog};

// It gives the request bytes, takes all bytes of replies, and keeps as many of these as fit into
// `room`.
#[derive(Drop)]
pub(crate) struct ServerEnd<'a> {
    asked: &'a [u8],
    given: usize,
    room: &'a mut [u8],
    pub(crate) held: usize,
    pub(crate) is_over: bool,
    log: TrafficLog,
    ghost inside: { given ≤ length asked.now },
    ghost keeps: { KeepsReplyFront room.now held is_over log.history.now.taken },
}

impl<'a> ServerEnd<'a> {
    // The end of a new connection on which these bytes will come.
    pub(crate) fn new(asked: &'a [u8], room: &'a mut [u8]) -> ServerEnd<'a>
        ensures nothing_passed { ⟦<ServerEnd<'a> as Line>⟧.state result
            ≡ server_end_state asked.now no_traffic room.entry.ghost_name }
    {
        ServerEnd {
            asked,
            given: 0,
            room,
            held: 0,
            is_over: false,
            log: TrafficLog::new(),
        }
    }
}

impl Line for ServerEnd<'_> {
    ghost state = { λ e. server_end_state (drop e.given e.asked.now)
        e.log.history.now e.room.ghost_name };
}

impl Source for ServerEnd<'_> {
    fn read(&mut self, buf: &mut [u8]) -> Result<usize, Failed> {
        let count = buf.len().min(self.asked.len() - self.given);
        buf[..count].copy_from_slice(&self.asked[self.given..self.given + count]);
        self.given += count;
        self.log.record_read(&buf[..count]);
        Ok(count)
    }
}

impl Sink for ServerEnd<'_> {
    fn write(&mut self, piece: &[u8]) -> Result<usize, Failed> {
        let count = piece.len().min(self.room.len() - self.held);
        self.room[self.held..self.held + count].copy_from_slice(&piece[..count]);
        self.held += count;
        self.is_over |= count < piece.len();
        self.log.record_write(piece);
        Ok(piece.len())
    }
}
