// What a hall asks of the system.
use std::io::{Read, Write};
use std::time::{Duration, Instant};
use xcap_io::Failed;

/// What a poll found of the listener, whose place is None, or of the stream at a place.
#[derive(Clone, Copy)]
pub struct Readiness {
    pub place: Option<usize>,
    pub can_read: bool,
    pub can_write: bool,
}

/// A listener and streams whose calls don't wait. Each stream has a place, at which polls find it.
pub trait Sockets {
    /// Its reads and writes answer `WouldBlock` where they would wait.
    type Stream: Read + Write + Drop;

    /// Starts to listen at this address, in place of any other.
    fn listen(&mut self, address: &str) -> Result<(), Failed>;

    /// Waits until something is ready, but no longer than this. Fails where they don't listen.
    fn poll(&mut self, longest: Duration) -> Result<(), Failed>;

    /// What the last poll found.
    fn readiness(&self) -> &[Readiness];

    /// The next connection, whose stream gets this place. None where none is there.
    ///
    /// # Errors
    /// `Failed` where the system has none to give, as when no descriptor is left.
    fn accept(&mut self, place: usize) -> Result<Option<Self::Stream>, Failed>;

    /// Nothing more is written to the stream: its peer finds the end.
    fn finish(&self, stream: &Self::Stream);

    /// The present moment. None where there is no clock.
    fn now(&self) -> Option<Instant>;
}
