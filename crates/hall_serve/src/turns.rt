//! One turn: a wait for what can go on, and one thing done for it.
ghost use Rattle.std.specs.Prelude.{◌≡◌, ℕ, ◌+◌, ◌*◌, ◌<◌, true, None, Some, List, IfSome};
ghost use Rattle.std.specs.Prelude.{IsSome, if◌then◌else◌, is_none, length};
ghost use Rattle.std.specs.List.{position};
ghost use Rattle.http_serve.specs.ReplyBytes.{StepsInBytes};
ghost use Rattle.hall_serve.specs.Exchanges.{Exchange};
ghost use Rattle.hall_serve.specs.Seats.{MatchesSeats, requests_left, seat_at};
ghost use Rattle.hall_serve.specs.ServedHalls.{AreTriesInOrder, CountsTurn, HasServed, ServesOn};
ghost use Rattle.hall_serve.specs.ServedHalls.{WritesOrAnswers, begun_in, memory_failures_in};
ghost use Rattle.hall_serve.specs.ServedHalls.{places_offered};
ghost use Rattle.hall_serve.specs.inner.SeatTurns.{SeatsNextIn, ServesReady};
ghost use Rattle.halls.specs.CallResults.{IsOpen};

use crate::seats::Seats;
use halls::{ConnectionId, Event, Failed, Hall};
use http_serve::Machine;
use watchers::Watchers;

/// What came of a turn.
#[derive(Clone, Copy, PartialEq, Eq)]
pub enum Turn {
    /// Something was done for an open connection, or nothing came.
    Went,
    /// A connection began.
    Began,
    /// Nothing was done for an open connection when out of memory.
    NoMemory,
    /// No connection is open, and none is to come.
    Over,
    /// A wait or an accept failed, and the hall's fault counter rose.
    HallFailed,
}

// A place that is free, if one is and more connections are taken.
fn place_for_next(seats: &Seats, takes_more: bool) -> Option<usize>
    ensures is_free { IfSome result
        (λ k. (k < length seats.now) × (seat_at seats.now k ≡ None)) }
    ensures takes_more { IsSome result → takes_more ≡ true }
    ensures first { result ≡ (if takes_more then position is_none seats.now else None) }
{
    if takes_more {
        return seats.free_place();
    }
    None
}

// Accepts the next connection for a free place.
fn accept_next<H: Hall>(hall: &mut H, seats: &mut Seats, free: Option<usize>) -> Turn
    requires within { (k : ℕ) × (free ≡ Some k) × (k < length seats.old) }
    ensures seats_next { SeatsNextIn free seats.old seats.new (H.state hall.old) (H.state hall.new)
        result }
{
    let Some(place) = free else {
        return Turn::Went;
    };
    match seats.accept_next(hall, place) {
        Ok(true) => Turn::Began,
        Ok(false) => Turn::Went,
        Err(Failed) => Turn::HallFailed,
    }
}

// One turn of an open connection.
fn serve_ready<M: Machine, H: Hall, W: Watchers<M::Edit>>(
    machine: &mut M,
    hall: &mut H,
    watchers: &mut W,
    seats: &mut Seats,
    id: ConnectionId,
) -> Turn
    requires open { IsOpen (H.state hall.old) id }
    requires seats_match { MatchesSeats (H.state hall.old) seats.old }
    requires room_left { M.takes machine.old (requests_left seats.old) }
    ensures serves { ServesReady (StepsInBytes M.steps) W.keeps result id.place
        (record {
          machine = machine.old;
          hall = H.state hall.old;
          seats = seats.old;
          watchers = watchers.old;
        })
        (record {
          machine = machine.new;
          hall = H.state hall.new;
          seats = seats.new;
          watchers = watchers.new;
        }) }
    ensures takes_on { (n : ℕ) → M.takes machine.old (requests_left seats.old + n)
        → M.takes machine.new (requests_left seats.new + n) }
{
    if seats.serve_connection(machine, hall, watchers, id) {
        Turn::Went
    } else {
        Turn::NoMemory
    }
}

/// Waits for what can go on, and does one thing for it: accepts a connection, where `takes_more`
/// says so and a seat is free; or answers one item of an open connection, or reads or writes some
/// of its bytes, or closes it after its last reply or when its time is up. No connection waits for
/// another.
pub fn make_turn<M: Machine, H: Hall, W: Watchers<M::Edit>>(
    machine: &mut M,
    hall: &mut H,
    watchers: &mut W,
    seats: &mut Seats,
    takes_more: bool,
) -> Turn
    requires seats_match { MatchesSeats (H.state hall.old) seats.old }
    requires room_left { M.takes machine.old (requests_left seats.old) }
    ensures same_number { length seats.new ≡ length seats.old }
    ensures seats_match { MatchesSeats (H.state hall.new) seats.new }
    ensures serves_on { (all : List (Exchange M.Edit)) → HasServed (H.state hall.old) seats.old all
        → ServesOn (StepsInBytes M.steps) W.keeps all (memory_failures_in result)
        (record {
          machine = machine.old;
          hall = H.state hall.old;
          seats = seats.old;
          watchers = watchers.old;
        })
        (record {
          machine = machine.new;
          hall = H.state hall.new;
          seats = seats.new;
          watchers = watchers.new;
        }) }
    ensures notified_first { WritesOrAnswers W.keeps
        (record {
          machine = machine.old;
          hall = H.state hall.old;
          seats = seats.old;
          watchers = watchers.old;
        })
        (record {
          machine = machine.new;
          hall = H.state hall.new;
          seats = seats.new;
          watchers = watchers.new;
        }) }
    ensures in_order { AreTriesInOrder seats.old (H.state hall.old) (H.state hall.new) }
    ensures counts { CountsTurn result (places_offered takes_more seats.old) (H.state hall.old)
        (H.state hall.new) }
    ensures takes_more { result ≡ Turn.Began → takes_more ≡ true }
    ensures takes_on { (n : ℕ)
        → M.takes machine.old (requests_left seats.old + (begun_in result * 1000 + n))
        → M.takes machine.new (requests_left seats.new + n) }
{
    let free = place_for_next(seats, takes_more);
    match hall.wait(free.is_some()) {
        Ok(Event::Knock) => accept_next(hall, seats, free),
        Ok(Event::Ready(id)) => serve_ready(machine, hall, watchers, seats, id),
        Ok(Event::Late(id)) => {
            seats.close_connection(hall, id);
            Turn::Went
        }
        Ok(Event::Quiet) => Turn::Went,
        Ok(Event::Over) => Turn::Over,
        Err(Failed) => Turn::HallFailed,
    }
}
