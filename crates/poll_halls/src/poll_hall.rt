// Many connections over sockets, by polling.
ghost use Rattle.std.specs.Prelude.{◌≡◌, ◌-◌, ◌^◌, ◌<◌, None, length, slice_index_or, IfOk};
ghost use Rattle.std.specs.Prelude.{IfSome, IsTrue, OnErr, slice_set};
ghost use Rattle.halls.specs.StateChanges.{hall_after_accept, hall_after_read, hall_after_write};
ghost use Rattle.halls.specs.HallState.{AreAllClosed, connection_at, new_hall};
ghost use Rattle.halls.specs.CallResults.{IsOpen, MayRead, MayWrite, MayAccept};
ghost use Rattle.poll_halls.specs.inner.ConnectionPlaces.{AreFreePlaces, IsAtItsPlace};
ghost use Rattle.poll_halls.specs.inner.ConnectionPlaces.{HoldsBetweenCalls, MayNameConnection};
ghost use Rattle.poll_halls.specs.SlotStreams.{ReadsSlot, WritesSlot};

use crate::lingering::Lingering;
pub use crate::slot::TimeLimits;
use crate::slot::{
    Slot, Times, Waits, defer_at, read_at, record_readiness_at, rest_at, take_at, write_at,
};
use crate::sockets::{Readiness, Sockets};
use halls::{Call, ConnectionId, Event, Hall, HallLog, Progress};
use std::alloc::{AllocError, Global};
use std::time::Duration;
use xcap_io::Failed;

/// How many milliseconds a poll waits at most: so no connection is late for much longer before it
/// is reported.
const LONGEST_POLL: u64 = 1000;

/// How many, where a connection was deferred or lingers.
const DEFERRED_POLL: u64 = 20;

/// How many connections that come are reported between two polls at most: more than one, so that
/// where thousands come a second the last of them needn't wait for long.
const MAX_KNOCKS: usize = 16;

/// Connections over sockets that are open at once. The connections are reported in rounds. After
/// each round one that comes or one that is late is reported, or there is a poll, at the latest
/// after `MAX_KNOCKS` that come: so neither many ready connections nor many that come keep the
/// others waiting.
#[derive(Drop)]
pub struct PollHall<E: Sockets + Drop> {
    sockets: E,
    // the number of the connection at each place, and its socket
    numbers: Vec<Option<u64>>,
    slots: Vec<Option<Slot<E::Stream>>>,
    lingering: Lingering<E::Stream>,
    times: Times,
    // where the round goes on
    from: usize,
    // whether a connection may be there to be accepted, and how many more may be reported before
    // the next poll
    knocks: bool,
    knocks_left: usize,
    // whether no connection can be accepted before another is closed
    is_full: bool,
    begun: u64,
    log: HallLog,
    ghost kept: { HoldsBetweenCalls numbers.items begun log.state },
}

// Places, all of which are free.
fn free_places<T: Drop>(alloc: Global, places: usize) -> Result<Vec<Option<T>>, AllocError>
    ensures all_free { IfOk result (λ made. AreFreePlaces made.items) }
{
    let mut made = Vec::with_capacity(alloc, places)?;
    for _ in 0..places {
        made.push(None)?;
    }
    Ok(made)
}

fn free_place<T: Drop>(places: &mut Vec<Option<T>>, place: usize)
    ensures frees { places.new.items ≡ slice_set places.old.items place None }
{
    if place < places.len() {
        places[place] = None;
    }
}

// The first connection from this place on whose next call may make progress.
fn find_ready<S: Drop>(
    numbers: &[Option<u64>],
    slots: &[Option<Slot<S>>],
    from: usize,
) -> Option<ConnectionId>
    ensures held { IfSome result (λ id. IsAtItsPlace numbers.now id) }
{
    for place in from..numbers.len().min(slots.len()) {
        if let (Some(number), Some(slot)) = (numbers[place], &slots[place]) {
            if slot.is_ready() {
                return Some(ConnectionId { place, number });
            }
        }
    }
    None
}

// The first connection whose time is up.
fn find_late<S: Drop>(
    numbers: &[Option<u64>],
    slots: &[Option<Slot<S>>],
    times: &Times,
) -> Option<ConnectionId>
    ensures held { IfSome result (λ id. IsAtItsPlace numbers.now id) }
{
    for place in 0..numbers.len().min(slots.len()) {
        if let (Some(number), Some(slot)) = (numbers[place], &slots[place]) {
            if slot.is_late(times) {
                return Some(ConnectionId { place, number });
            }
        }
    }
    None
}

// The first connection at rest.
fn find_resting<S: Drop>(numbers: &[Option<u64>], slots: &[Option<Slot<S>>]) -> Option<ConnectionId>
    ensures held { IfSome result (λ id. IsAtItsPlace numbers.now id) }
{
    for place in 0..numbers.len().min(slots.len()) {
        if let (Some(number), Some(slot)) = (numbers[place], &slots[place]) {
            if slot.is_resting {
                return Some(ConnectionId { place, number });
            }
        }
    }
    None
}

// No socket is deferred any more.
fn end_deferrals<S: Drop>(slots: &mut Vec<Option<Slot<S>>>) {
    for place in 0..slots.len() {
        defer_at(slots, place, false);
    }
}

// Notes what was found. Returns whether a connection may be there to be accepted.
fn record_all<S: Drop>(slots: &mut Vec<Option<Slot<S>>>, all_found: &[Readiness]) -> bool {
    let mut knocks = false;
    for found in all_found {
        match found.place {
            Some(place) => record_readiness_at(slots, place, found),
            None => knocks = true,
        }
    }
    knocks
}

// Whether a socket would be ready if it weren't deferred.
fn is_any_deferred<S: Drop>(slots: &[Option<Slot<S>>]) -> bool {
    for place in 0..slots.len() {
        if let Some(slot) = &slots[place] {
            if slot.is_deferred && slot.waits == Waits::Nothing {
                return true;
            }
        }
    }
    false
}

// Ends the stream at a place. One that was written to and whose peer may still be sending lingers.
fn end_stream<E: Sockets>(
    sockets: &E,
    slots: &mut Vec<Option<Slot<E::Stream>>>,
    lingering: &mut Lingering<E::Stream>,
    place: usize,
    times: &Times,
) {
    if let Some(slot) = take_at(slots, place) {
        if slot.lingers {
            sockets.finish(&slot.stream);
            lingering.add(slot.stream, times);
        }
    }
}

impl<E: Sockets + Drop> PollHall<E> {
    /// A hall that doesn't listen yet, with this many places.
    ///
    /// # Errors
    /// When out of memory.
    pub fn new(
        alloc: Global,
        sockets: E,
        places: usize,
        limits: TimeLimits,
    ) -> Result<PollHall<E>, AllocError>
        ensures nothing_passed { IfOk result (λ hall. ⟦<PollHall<E> as Hall>⟧.state hall
            ≡ new_hall) }
    {
        let numbers = free_places(alloc, places)?;
        let slots = free_places(alloc, places)?;
        let lingering = Lingering::new(alloc)?;
        let now = sockets.now();
        Ok(PollHall {
            sockets,
            numbers,
            slots,
            lingering,
            times: Times { now, limits },
            from: 0,
            knocks: true,
            knocks_left: 0,
            is_full: false,
            begun: 0,
            log: HallLog::new(),
        })
    }

    // How long the next poll may wait.
    fn longest_poll(&self, takes_more: bool) -> Duration {
        if takes_more && self.knocks || find_ready(&self.numbers, &self.slots, 0).is_some() {
            return Duration::ZERO;
        }
        if is_any_deferred(&self.slots) || !self.lingering.is_empty() {
            return Duration::from_millis(DEFERRED_POLL);
        }
        Duration::from_millis(LONGEST_POLL)
    }

    // Polls, and notes what was found.
    fn poll(&mut self, takes_more: bool) -> Result<(), Failed>
        ensures same_numbers { self.new.numbers.items ≡ self.old.numbers.items }
        ensures same_log { self.new.log.state ≡ self.old.log.state }
        ensures same_count { self.new.begun ≡ self.old.begun }
    {
        let longest = self.longest_poll(takes_more);
        self.knocks_left = MAX_KNOCKS;
        self.sockets.poll(longest)?;
        self.times.now = self.sockets.now();
        self.lingering.drain(&self.times);
        end_deferrals(&mut self.slots);
        if record_all(&mut self.slots, self.sockets.readiness()) {
            self.knocks = !self.is_full;
        }
        Ok(())
    }

    // A connection whose time is up: also one at rest, where another comes and no more are taken
    // or can be.
    fn next_late(&self, takes_more: bool) -> Option<ConnectionId>
        ensures held { IfSome result (λ id. IsAtItsPlace self.now.numbers.items id) }
    {
        if self.is_full || self.knocks && !takes_more {
            if let Some(id) = find_resting(&self.numbers, &self.slots) {
                return Some(id);
            }
        }
        find_late(&self.numbers, &self.slots, &self.times)
    }

    fn next_event(&mut self, takes_more: bool) -> Result<Event, Failed>
        ensures held { MayNameConnection self.old.numbers.items takes_more result }
        ensures same_numbers { self.new.numbers.items ≡ self.old.numbers.items }
        ensures same_log { self.new.log.state ≡ self.old.log.state }
        ensures same_count { self.new.begun ≡ self.old.begun }
    {
        if let Some(id) = find_ready(&self.numbers, &self.slots, self.from) {
            self.from = id.place.saturating_add(1);
            return Ok(Event::Ready(id));
        }
        self.from = 0;
        if takes_more && self.knocks && self.knocks_left > 0 {
            self.knocks_left -= 1;
            return Ok(Event::Knock);
        }
        if let Some(id) = self.next_late(takes_more) {
            return Ok(Event::Late(id));
        }
        self.poll(takes_more)?;
        Ok(Event::Quiet)
    }

    // Whether a connection may begin at this place.
    fn is_free(&self, place: usize) -> bool
        ensures inside { IsTrue result → place < length self.now.numbers.items }
        ensures free { IsTrue result
            → slice_index_or self.now.numbers.items place None ≡ None }
        ensures slot_there { IsTrue result → place < length self.now.slots.items }
        ensures may_count { IsTrue result → self.now.begun < 2 ^ 64 - 1 }
    {
        place < self.numbers.len()
            && place < self.slots.len()
            && self.numbers[place].is_none()
            && self.begun < u64::MAX
    }

    // Whether no connection is open.
    fn are_free(&self) -> bool
        ensures all_free { IsTrue result → AreFreePlaces self.now.numbers.items }
    {
        self.numbers.iter().all(|number| number.is_none())
    }

    // The stream of the next connection, which gets this place. Where the system has none to give,
    // as when no descriptor is left, none comes before another connection ends: that is a failure
    // only where none is open.
    fn next_stream(&mut self, place: usize) -> Result<Option<E::Stream>, Failed>
        ensures fails_alone { OnErr result (AreFreePlaces self.old.numbers.items) }
        ensures same_numbers { self.new.numbers.items ≡ self.old.numbers.items }
        ensures same_slots { length self.new.slots.items ≡ length self.old.slots.items }
        ensures same_log { self.new.log.state ≡ self.old.log.state }
        ensures same_count { self.new.begun ≡ self.old.begun }
    {
        match self.sockets.accept(place) {
            Ok(Some(stream)) => Ok(Some(stream)),
            Ok(None) => {
                self.knocks = false;
                Ok(None)
            }
            Err(Failed) if !self.lingering.is_empty() => {
                self.lingering.clear();
                Ok(None)
            }
            Err(Failed) => {
                self.knocks = false;
                self.is_full = true;
                if self.are_free() {
                    Err(Failed)
                } else {
                    Ok(None)
                }
            }
        }
    }

    // Accepts the next connection for a free place.
    fn accept_at(&mut self, place: usize) -> Result<Option<ConnectionId>, Failed>
        requires inside { place < length self.old.numbers.items }
        requires slot_there { place < length self.old.slots.items }
        requires free { slice_index_or self.old.numbers.items place None ≡ None }
        requires may_count { self.old.begun < 2 ^ 64 - 1 }
        ensures fails_alone { OnErr result (AreFreePlaces self.old.numbers.items) }
        ensures begins { self.new.log.state ≡ hall_after_accept place result self.old.log.state }
        ensures named { MayAccept place self.old.log.state result }
    {
        match self.next_stream(place) {
            Ok(Some(stream)) => {
                let number = self.begun;
                let id = ConnectionId { place, number };
                self.slots[place] = Some(Slot::new(stream, &self.times));
                self.numbers[place] = Some(number);
                self.begun += 1;
                self.log = self.log.with_call(&Call::Accept(place, Ok(Some(id))));
                Ok(Some(id))
            }
            Ok(None) => {
                self.log = self.log.with_call(&Call::Accept(place, Ok(None)));
                Ok(None)
            }
            Err(Failed) => {
                self.log = self.log.with_call(&Call::Accept(place, Err(Failed)));
                Err(Failed)
            }
        }
    }
}

impl<E: Sockets + Drop> Hall for PollHall<E> {
    ghost state = { λ h. h.log.state };

    fn listen(&mut self, address: &str) -> Result<(), Failed> {
        let result = self.sockets.listen(address);
        self.log = self
            .log
            .with_call(&Call::Listen(address.as_bytes(), result));
        result
    }

    fn wait(&mut self, takes_more: bool) -> Result<Event, Failed> {
        let result = self.next_event(takes_more);
        self.log = self.log.with_call(&Call::Wait(takes_more, result));
        result
    }

    fn accept(&mut self, place: usize) -> Result<Option<ConnectionId>, Failed>
        ensures begins { ⟦<PollHall<E> as Hall>⟧.state self.new
            ≡ hall_after_accept place result (⟦<PollHall<E> as Hall>⟧.state self.old) }
        ensures named { MayAccept place (⟦<PollHall<E> as Hall>⟧.state self.old) result }
        ensures fails_alone { OnErr result
            (AreAllClosed (⟦<PollHall<E> as Hall>⟧.state self.old)) }
    {
        if self.is_free(place) {
            return self.accept_at(place);
        }
        self.log = self.log.with_call(&Call::Accept(place, Ok(None)));
        Ok(None)
    }

    fn read(&mut self, id: ConnectionId, buf: &mut [u8]) -> Result<Progress, Failed>
        requires open { IsOpen (⟦<PollHall<E> as Hall>⟧.state self.old) id }
        requires some_room { 0 < length buf.old }
        ensures next_bytes { MayRead
            (connection_at (⟦<PollHall<E> as Hall>⟧.state self.old) id.number).left
            buf.new result }
        ensures only_reads { ⟦<PollHall<E> as Hall>⟧.state self.new
            ≡ hall_after_read id.number buf.new result (⟦<PollHall<E> as Hall>⟧.state self.old) }
        ensures from_stream { ReadsSlot E.Stream.remaining
            (slice_index_or self.old.slots.items id.place None)
            (slice_index_or self.new.slots.items id.place None) result buf.new }
    {
        let result = read_at(&mut self.slots, id.place, buf, &self.times);
        self.log = self.log.with_call(&Call::Read(id, buf, result));
        result
    }

    fn write(&mut self, id: ConnectionId, piece: &[u8]) -> Result<Progress, Failed>
        requires open { IsOpen (⟦<PollHall<E> as Hall>⟧.state self.old) id }
        requires some_bytes { 0 < length piece.now }
        ensures within_piece { MayWrite piece.now result }
        ensures only_writes { ⟦<PollHall<E> as Hall>⟧.state self.new
            ≡ hall_after_write id.number piece.now result (⟦<PollHall<E> as Hall>⟧.state self.old) }
        ensures to_stream { WritesSlot E.Stream.contents
            (slice_index_or self.old.slots.items id.place None)
            (slice_index_or self.new.slots.items id.place None) result piece.now }
    {
        let result = write_at(&mut self.slots, id.place, piece, &self.times);
        self.log = self.log.with_call(&Call::Write(id, piece, result));
        result
    }

    fn close(&mut self, id: ConnectionId) {
        end_stream(
            &self.sockets,
            &mut self.slots,
            &mut self.lingering,
            id.place,
            &self.times,
        );
        free_place(&mut self.numbers, id.place);
        // What comes can be accepted now.
        self.knocks = true;
        self.is_full = false;
        self.log = self.log.with_call(&Call::Close(id));
    }

    fn defer(&mut self, id: ConnectionId) {
        defer_at(&mut self.slots, id.place, true);
    }

    fn rest(&mut self, id: ConnectionId) {
        rest_at(&mut self.slots, id.place, &self.times);
    }
}
