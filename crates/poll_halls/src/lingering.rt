// Streams of closed connections whose peers may still be sending. If one were dropped at once, the
// system would reset the connection, and the peer could lose the last reply.
use crate::slot::Times;
use std::alloc::{AllocError, Global};
use std::io::{ErrorKind, Read};
use std::time::{Duration, Instant};

/// How many streams linger at most. Others are dropped at once.
const MAX_LINGERING: usize = 128;

/// For how many milliseconds a stream lingers at most.
const LONGEST_LINGERING: u64 = 1000;

/// How many reads of a stream there are after one poll at most.
const MAX_READS: usize = 16;

/// How many bytes are read at once.
const BUFFER_LEN: usize = 1024;

// A stream to which nothing more is written.
#[derive(Drop)]
struct LingeringStream<S: Drop> {
    stream: S,
    until: Option<Instant>,
}

impl<S: Read + Drop> LingeringStream<S> {
    // Reads what came, and drops it. Returns whether more may come: not after the end or a failure.
    fn drain(&mut self) -> bool {
        let mut buf = [0u8; BUFFER_LEN];
        for _ in 0..MAX_READS {
            match self.stream.read(&mut buf) {
                Ok(0) => return false,
                Ok(_) => (),
                Err(fault) => match fault.kind() {
                    ErrorKind::WouldBlock => return true,
                    ErrorKind::Interrupted => (),
                    _ => return false,
                },
            }
        }
        true
    }
}

// Drains the stream at a place, and drops it if it ended or failed or its time is up.
fn drain_place<S: Read + Drop>(place: &mut Option<LingeringStream<S>>, times: &Times) {
    let ends = match place {
        Some(lingering) => !lingering.drain() || times.is_over(lingering.until),
        None => false,
    };
    if ends {
        *place = None;
    }
}

// The streams that linger.
#[derive(Drop)]
pub struct Lingering<S: Drop> {
    places: Vec<Option<LingeringStream<S>>>,
}

impl<S: Read + Drop> Lingering<S> {
    pub fn new(alloc: Global) -> Result<Lingering<S>, AllocError> {
        let mut places = Vec::with_capacity(alloc, MAX_LINGERING)?;
        for _ in 0..MAX_LINGERING {
            places.push(None)?;
        }
        Ok(Lingering { places })
    }

    pub fn is_empty(&self) -> bool {
        self.places.iter().all(|place| place.is_none())
    }

    // The stream lingers if there is a place for it.
    pub fn add(&mut self, stream: S, times: &Times) {
        let until = times.deadline_after(Duration::from_millis(LONGEST_LINGERING));
        if let Some(place) = self.places.iter().position(|place| place.is_none()) {
            self.places[place] = Some(LingeringStream { stream, until });
        }
    }

    // Drains all streams.
    pub fn drain(&mut self, times: &Times) {
        for place in 0..self.places.len() {
            if place < self.places.len() {
                drain_place(&mut self.places[place], times);
            }
        }
    }

    // Drops all streams.
    pub fn clear(&mut self) {
        for place in 0..self.places.len() {
            if place < self.places.len() {
                self.places[place] = None;
            }
        }
    }
}
