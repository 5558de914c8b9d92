// The sockets of a hall, each at its place, and how long their connections may be silent.
ghost use Rattle.std.specs.Prelude.{◌≡◌, ◌<◌, None, length, slice_index_or};
ghost use Rattle.halls.specs.CallResults.{MayRead, MayWrite};
ghost use Rattle.poll_halls.specs.SlotStreams.{ReadsFromStream, WritesToStream, ReadsSlot};
ghost use Rattle.poll_halls.specs.SlotStreams.{WritesSlot};
ghost use Rattle.poll_halls.specs.inner.NoProgress.{MovesNothing};

use crate::sockets::Readiness;
use halls::Progress;
use std::io::{ErrorKind, Read, Write};
use std::time::{Duration, Instant};
use xcap_io::Failed;

/// For how long a connection may be open.
#[derive(Clone, Copy)]
pub struct TimeLimits {
    /// without a byte that passed, while it is served
    pub silence: Duration,
    /// from its beginning, or the end of its last rest, to its next rest
    pub service: Duration,
    /// at rest
    pub rest: Duration,
}

// The present moment, as far as it is known, and the limits.
#[derive(Clone, Copy)]
pub struct Times {
    pub now: Option<Instant>,
    pub limits: TimeLimits,
}

impl Times {
    // The moment after this time.
    pub fn deadline_after(&self, time: Duration) -> Option<Instant> {
        self.now?.checked_add(time)
    }

    // Whether this moment is over.
    pub fn is_over(&self, moment: Option<Instant>) -> bool {
        match (self.now, moment) {
            (Some(now), Some(moment)) => now > moment,
            _ => false,
        }
    }
}

// What the next call on a socket waits for.
#[derive(Clone, Copy, PartialEq, Eq)]
pub enum Waits {
    // The last call made progress, or what it waited for has come.
    Nothing,
    Readable,
    Writable,
}

// A connection's socket.
#[derive(Drop)]
pub struct Slot<S: Drop> {
    pub stream: S,
    pub waits: Waits,
    // until the next poll
    pub is_deferred: bool,
    pub is_resting: bool,
    // whether bytes were written to it and its peer may still be sending
    pub lingers: bool,
    // the moments after which it is late: the first moves with its progress
    pub silent_until: Option<Instant>,
    pub served_until: Option<Instant>,
}

impl<S: Drop> Slot<S> {
    // The socket of a connection that begins.
    pub fn new(stream: S, times: &Times) -> Slot<S> {
        Slot {
            stream,
            waits: Waits::Nothing,
            is_deferred: false,
            is_resting: false,
            lingers: false,
            silent_until: times.deadline_after(times.limits.silence),
            served_until: times.deadline_after(times.limits.service),
        }
    }

    // Notes that bytes passed.
    fn record_progress(&mut self, times: &Times)
        ensures same_stream { self.new.stream ≡ self.old.stream }
    {
        if self.is_resting {
            self.is_resting = false;
            self.served_until = times.deadline_after(times.limits.service);
        }
        self.waits = Waits::Nothing;
        self.silent_until = times.deadline_after(times.limits.silence);
    }

    // Notes what a call that moved nothing waits for. An interrupted one waits for nothing.
    fn record_fault(&mut self, kind: ErrorKind, waits: Waits) -> Result<Progress, Failed>
        ensures nothing_moved { MovesNothing result }
        ensures same_stream { self.new.stream ≡ self.old.stream }
    {
        match kind {
            ErrorKind::WouldBlock => {
                self.waits = waits;
                Ok(Progress::Blocked)
            }
            ErrorKind::Interrupted => Ok(Progress::Blocked),
            _ => {
                self.lingers = false;
                Err(Failed)
            }
        }
    }

    fn read(&mut self, buf: &mut [u8], times: &Times) -> Result<Progress, Failed>
    where
        S: Read,
        requires { 0 < length buf.old }
        ensures within_buffer { MayRead None buf.new result }
        ensures from_stream { ReadsFromStream S.remaining self.old.stream self.new.stream result
            buf.new }
    {
        match self.stream.read(buf) {
            Ok(count) => {
                self.record_progress(times);
                self.lingers = self.lingers && count > 0;
                Ok(Progress::Moved(count))
            }
            Err(fault) => self.record_fault(fault.kind(), Waits::Readable),
        }
    }

    fn write(&mut self, piece: &[u8], times: &Times) -> Result<Progress, Failed>
    where
        S: Write,
        ensures within_piece { MayWrite piece.now result }
        ensures to_stream { WritesToStream S.contents self.old.stream self.new.stream result
            piece.now }
    {
        match self.stream.write(piece) {
            Ok(0) => Err(Failed),
            Ok(count) => {
                self.record_progress(times);
                self.lingers = true;
                Ok(Progress::Moved(count))
            }
            Err(fault) => self.record_fault(fault.kind(), Waits::Writable),
        }
    }

    // Whether the next call may make progress.
    pub fn is_ready(&self) -> bool {
        self.waits == Waits::Nothing && !self.is_deferred
    }

    pub fn is_late(&self, times: &Times) -> bool {
        times.is_over(self.silent_until) || times.is_over(self.served_until)
    }

    // Its connection is between two requests.
    fn rest(&mut self, times: &Times) {
        self.is_resting = true;
        self.lingers = false;
        self.silent_until = times.deadline_after(times.limits.rest);
        self.served_until = None;
    }

    // What it waits for may have come.
    fn record_readiness(&mut self, found: &Readiness) {
        let comes = match self.waits {
            Waits::Nothing => true,
            Waits::Readable => found.can_read,
            Waits::Writable => found.can_write,
        };
        if comes {
            self.waits = Waits::Nothing;
        }
    }
}

// A read at a place; it fails where there is no socket.
pub fn read_at<S: Read + Drop>(
    slots: &mut Vec<Option<Slot<S>>>,
    place: usize,
    buf: &mut [u8],
    times: &Times,
) -> Result<Progress, Failed>
    requires { 0 < length buf.old }
    ensures within_buffer { MayRead None buf.new result }
    ensures from_stream { ReadsSlot S.remaining (slice_index_or slots.old.items place None)
        (slice_index_or slots.new.items place None) result buf.new }
{
    if place >= slots.len() {
        return Err(Failed);
    }
    match &mut slots[place] {
        Some(slot) => slot.read(buf, times),
        None => Err(Failed),
    }
}

// A write at a place; it fails where there is no socket.
pub fn write_at<S: Write + Drop>(
    slots: &mut Vec<Option<Slot<S>>>,
    place: usize,
    piece: &[u8],
    times: &Times,
) -> Result<Progress, Failed>
    ensures within_piece { MayWrite piece.now result }
    ensures to_stream { WritesSlot S.contents (slice_index_or slots.old.items place None)
        (slice_index_or slots.new.items place None) result piece.now }
{
    if place >= slots.len() {
        return Err(Failed);
    }
    match &mut slots[place] {
        Some(slot) => slot.write(piece, times),
        None => Err(Failed),
    }
}

// Takes the socket at a place.
pub fn take_at<S: Drop>(slots: &mut Vec<Option<Slot<S>>>, place: usize) -> Option<Slot<S>> {
    if place >= slots.len() {
        return None;
    }
    slots[place].take()
}

// Notes what a poll found of the socket at a place.
pub fn record_readiness_at<S: Drop>(
    slots: &mut Vec<Option<Slot<S>>>,
    place: usize,
    found: &Readiness,
) {
    if place < slots.len() {
        if let Some(slot) = &mut slots[place] {
            slot.record_readiness(found);
        }
    }
}

// Whether the socket at this place is deferred, from here on.
pub fn defer_at<S: Drop>(slots: &mut Vec<Option<Slot<S>>>, place: usize, is_deferred: bool) {
    if place < slots.len() {
        if let Some(slot) = &mut slots[place] {
            slot.is_deferred = is_deferred;
        }
    }
}

// The connection at this place is between two requests.
pub fn rest_at<S: Drop>(slots: &mut Vec<Option<Slot<S>>>, place: usize, times: &Times) {
    if place < slots.len() {
        if let Some(slot) = &mut slots[place] {
            slot.rest(times);
        }
    }
}
