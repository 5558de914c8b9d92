// What one turn does for the connection of a seat.
ghost use Rattle.std.specs.Prelude.{◌≡◌, ◌+◌, ◌<◌, ◌≤◌, ℕ, suc, Some, [], false, length};
ghost use Rattle.halls.specs.CallResults.{IsOpen};
ghost use Rattle.http_serve.specs.ReplyBytes.{StepsInBytes};
ghost use Rattle.http_wire.specs.ConnectionItems.{HasNoCompleteItem};
ghost use Rattle.http_wire.specs.declared.limits.TheConstants.{MAX_REQUESTS, MAX_HELD_BYTES};
ghost use Rattle.hall_serve.specs.Seats.{IsSeatAt, requests_left_at};
ghost use Rattle.hall_serve.specs.inner.SeatTurns.{AnswersItemTurn, IsTaken, PassesInHall};
ghost use Rattle.hall_serve.specs.inner.SeatTurns.{ServesPlace, ServesSeat, failures_in};
ghost use Rattle.hall_serve.specs.inner.SeatTurns.{failures_unless, seat_after};

use crate::seat::Seat;
use halls::{Failed, Hall, Progress};
use http_serve::{Machine, answer_next, notify_of_edit};
use std::alloc::{AllocError, Global};
use watchers::Watchers;

// What came of the bytes that a seat holds.
#[derive(Clone, Copy)]
pub enum ItemTurn {
    // Their first item was answered.
    Answered,
    // No item is complete.
    Open,
    // There are none, and a read found the end.
    End,
    NoMemory,
}

// What came of a seat's turn.
#[derive(Clone, Copy)]
pub enum SeatTurn {
    Went,
    // The connection was closed.
    Closed,
    // Nothing was done when out of memory.
    NoMemory,
}

// Writes some of the reply that is pending.
fn write_pending<H: Hall>(hall: &mut H, seat: &mut Seat, buf: &mut [u8]) -> SeatTurn
    requires open { IsOpen (H.state hall.old) seat.old.id }
    requires some_pending { 0 < length seat.old.pending }
    requires some_room { 0 < length buf.old }
    ensures passes { PassesInHall 1 (failures_in result) seat.old (seat_after result seat.new)
        (H.state hall.old) (H.state hall.new) }
{
    let count = seat.copy_pending(buf);
    match hall.write(seat.id(), &buf[..count]) {
        Ok(Progress::Moved(count)) => {
            seat.note_written(count);
            SeatTurn::Went
        }
        Ok(Progress::Blocked) => SeatTurn::Went,
        Err(Failed) => {
            hall.close(seat.id());
            SeatTurn::Closed
        }
    }
}

// Reads some bytes, for which there is room.
fn read_into<H: Hall>(hall: &mut H, seat: &mut Seat, buf: &mut [u8]) -> SeatTurn
    requires open { IsOpen (H.state hall.old) seat.old.id }
    requires none_pending { seat.old.pending ≡ [] }
    requires waits { HasNoCompleteItem seat.old.feed.reader.held }
    requires not_ended { seat.old.ended ≡ false }
    requires some_room { 0 < length buf.old }
    requires room { length buf.old ≤ seat.old.feed.buffer.room }
    ensures passes { PassesInHall 1 (failures_in result) seat.old (seat_after result seat.new)
        (H.state hall.old) (H.state hall.new) }
{
    match hall.read(seat.id(), buf) {
        Ok(Progress::Moved(count)) => {
            seat.note_read(&buf[..count]);
            SeatTurn::Went
        }
        Ok(Progress::Blocked) => {
            if seat.release() {
                hall.rest(seat.id());
            }
            SeatTurn::Went
        }
        Err(Failed) => {
            hall.close(seat.id());
            SeatTurn::Closed
        }
    }
}

// Reads some bytes if there is memory for them.
fn read_more<H: Hall>(hall: &mut H, seat: &mut Seat, buf: &mut [u8]) -> SeatTurn
    requires open { IsOpen (H.state hall.old) seat.old.id }
    requires none_pending { seat.old.pending ≡ [] }
    requires waits { HasNoCompleteItem seat.old.feed.reader.held }
    requires not_ended { seat.old.ended ≡ false }
    requires unspent { seat.old.feed.reader.spent ≡ false }
    requires not_full { seat.old.feed.buffer.filled < MAX_HELD_BYTES }
    requires some_room { 0 < length buf.old }
    ensures passes { PassesInHall 1 (failures_in result) seat.old (seat_after result seat.new)
        (H.state hall.old) (H.state hall.new) }
{
    match seat.reserve(buf.len()) {
        Ok(room) => read_into(hall, seat, &mut buf[..room]),
        Err(AllocError) => {
            hall.defer(seat.id());
            SeatTurn::NoMemory
        }
    }
}

// Answers the first item of the bytes held, and notifies the watchers of its edit. There is no hall
// here: so a reply is written only after its edit was reported.
fn answer_first<M: Machine, W: Watchers<M::Edit>>(
    alloc: Global,
    machine: &mut M,
    watchers: &mut W,
    seat: &mut Seat,
) -> ItemTurn
    requires goes_on { seat.old.closing ≡ false }
    requires none_pending { seat.old.pending ≡ [] }
    requires unspent { seat.old.feed.reader.spent ≡ false }
    requires few_requests { seat.old.feed.reader.requests < MAX_REQUESTS }
    requires room_left { M.takes machine.old 1 }
    ensures answers { AnswersItemTurn (StepsInBytes M.steps) W.keeps result
        (record { machine = machine.old; seat = seat.old; watchers = watchers.old })
        (record { machine = machine.new; seat = seat.new; watchers = watchers.new }) }
    ensures takes_one_fewer { (n : ℕ) → M.takes machine.old (suc n) → M.takes machine.new n }
{
    let asked = match seat.next_item(alloc) {
        Ok(Some(asked)) => asked,
        Ok(None) => return ItemTurn::Open,
        Err(AllocError) => return ItemTurn::NoMemory,
    };
    let Some(answered) = answer_next(machine, &asked) else {
        return ItemTurn::End;
    };
    notify_of_edit(watchers, &answered.edit);
    seat.set_reply(answered.reply);
    ItemTurn::Answered
}

// One turn of an open connection: bytes of a reply that is pending are written; else the first item
// of the bytes held is answered; else bytes are read.
pub fn serve_seat<M: Machine, H: Hall, W: Watchers<M::Edit>>(
    alloc: Global,
    machine: &mut M,
    hall: &mut H,
    watchers: &mut W,
    seat: &mut Seat,
    buf: &mut [u8],
) -> SeatTurn
    requires seated { (k : ℕ) × IsSeatAt (H.state hall.old) k seat.old }
    requires room_left { M.takes machine.old (requests_left_at (Some seat.old)) }
    requires some_room { 0 < length buf.old }
    ensures serves { ServesSeat (StepsInBytes M.steps) W.keeps 1 (failures_in result)
        (record { machine = machine.old; seat = seat.old; watchers = watchers.old })
        (seat_after result seat.new) machine.new watchers.new
        (H.state hall.old) (H.state hall.new) }
    ensures takes_on { (n : ℕ) → M.takes machine.old (requests_left_at (Some seat.old) + n)
        → M.takes machine.new (requests_left_at (seat_after result seat.new) + n) }
{
    if seat.pending_len() > 0 {
        return write_pending(hall, seat, buf);
    }
    if seat.is_closing() {
        hall.close(seat.id());
        return SeatTurn::Closed;
    }
    match answer_first(alloc, machine, watchers, seat) {
        ItemTurn::Answered => SeatTurn::Went,
        ItemTurn::Open => read_more(hall, seat, buf),
        ItemTurn::End => {
            hall.close(seat.id());
            SeatTurn::Closed
        }
        ItemTurn::NoMemory => {
            hall.defer(seat.id());
            SeatTurn::NoMemory
        }
    }
}

// One turn of the connection at a place, which is free afterwards where that was closed. False
// where nothing was done when out of memory.
pub fn serve_place<M: Machine, H: Hall, W: Watchers<M::Edit>>(
    alloc: Global,
    machine: &mut M,
    hall: &mut H,
    watchers: &mut W,
    place: &mut Option<Seat>,
    buf: &mut [u8],
) -> bool
    requires taken { IsTaken (H.state hall.old) place.old }
    requires room_left { M.takes machine.old (requests_left_at place.old) }
    requires some_room { 0 < length buf.old }
    ensures serves { ServesPlace (StepsInBytes M.steps) W.keeps 1 (failures_unless result)
        (record { machine = machine.old; seat = place.old; watchers = watchers.old })
        (record { machine = machine.new; seat = place.new; watchers = watchers.new })
        (H.state hall.old) (H.state hall.new) }
    ensures takes_on { (n : ℕ) → M.takes machine.old (requests_left_at place.old + n)
        → M.takes machine.new (requests_left_at place.new + n) }
{
    let Some(seat) = place else {
        return true;
    };
    match serve_seat(alloc, machine, hall, watchers, seat, buf) {
        SeatTurn::Went => true,
        SeatTurn::Closed => {
            *place = None;
            true
        }
        SeatTurn::NoMemory => false,
    }
}
