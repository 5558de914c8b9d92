// A port over connections whose bytes are known before, on which replies are discarded.
ghost use Rattle.std.specs.Prelude.{◌≡◌, ◌≤◌, [], length, drop};
ghost use Rattle.xcap_io.specs.ConnectionHistories.{no_history};
ghost use Rattle.xcap_app.specs.inner.KnownPorts.{port_line};

use std::alloc::Global;
use xcap_io::{Bytes, Failed, Line, Port, Sink, Source, TrafficLog};

// The current connection, of which `given` bytes were given, and the connections to come.
#[derive(Drop)]
pub(crate) struct KnownPort {
    present: Bytes,
    given: usize,
    to_come: Vec<Bytes>,
    log: TrafficLog,
    ghost inside: { given ≤ length present },
}

impl KnownPort {
    // A port on which connections with these bytes will come.
    pub(crate) fn new(alloc: Global, connections: Vec<Bytes>) -> KnownPort
        ensures all_to_come { ⟦<KnownPort as Line>⟧.state result
            ≡ port_line connections.items [] no_history }
    {
        KnownPort {
            present: Bytes::new(alloc),
            given: 0,
            to_come: connections,
            log: TrafficLog::new(),
        }
    }
}

impl Line for KnownPort {
    ghost state = { λ p. port_line p.to_come.items (drop p.given p.present) p.log.history };
}

impl Source for KnownPort {
    fn read(&mut self, buf: &mut [u8]) -> Result<usize, Failed> {
        let present = self.present.as_slice();
        let count = buf.len().min(present.len() - self.given);
        buf[..count].copy_from_slice(&present[self.given..self.given + count]);
        self.given += count;
        self.log.record_read(&buf[..count]);
        Ok(count)
    }
}

impl Sink for KnownPort {
    fn write(&mut self, piece: &[u8]) -> Result<usize, Failed> {
        self.log.record_write(piece);
        Ok(piece.len())
    }
}

impl Port for KnownPort {
    fn listen(&mut self, _address: &str) -> Result<(), Failed> {
        Ok(())
    }

    fn next(&mut self) -> Result<bool, Failed> {
        if self.to_come.is_empty() {
            return Ok(false);
        }
        self.present = self.to_come.remove(0);
        self.given = 0;
        self.log.record_end();
        self.log.record_begin();
        Ok(true)
    }
}
