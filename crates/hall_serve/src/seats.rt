//! The seats of a hall's open connections.
ghost use Rattle.std.specs.Prelude.{◌≡◌, ℕ, ◌+◌, ◌<◌, None, length, IfOk, IfSome};
ghost use Rattle.std.specs.Prelude.{IsTrue, is_none, slice_set};
ghost use Rattle.std.specs.List.{position};
ghost use Rattle.http_serve.specs.ReplyBytes.{StepsInBytes};
ghost use Rattle.hall_serve.specs.Seats.{MatchesSeats, requests_left, seat_at};
ghost use Rattle.hall_serve.specs.inner.SeatTurns.{SeatsNext, ServesAt, failures_unless};
ghost use Rattle.halls.specs.CallResults.{IsOpen};
ghost use Rattle.halls.specs.StateChanges.{hall_after_close};

use crate::seat::Seat;
use crate::seat_turns::serve_place;
use halls::{ConnectionId, Failed, Hall};
use http_serve::Machine;
use std::alloc::{AllocError, Global};
use std::marker::Model;
use watchers::Watchers;

// How many bytes are read or written at once.
const BUFFER_LEN: usize = 16384;

/// The seats of a hall's open connections, each at its connection's place, and the buffer that they
/// share.
#[derive(Drop)]
pub struct Seats {
    alloc: Global,
    places: Vec<Option<Seat>>,
    buffer: Vec<u8>,
}

impl Model for Seats {
    ghost use Rattle.std.specs.Prelude.{◌≡◌, List, Option, length};
    ghost use Rattle.hall_serve.specs.Seats.{SeatState};

    ghost Value = { List (Option SeatState) };

    ghost view = { λ s. s.places.items };

    ghost invariant = { λ s. length s.buffer.items ≡ 16384 };
}

fn free_places(alloc: Global, count: usize) -> Result<Vec<Option<Seat>>, AllocError>
    ensures as_many { IfOk result (λ places. length places.items ≡ count) }
    ensures all_free { IfOk result (λ places. (k : ℕ) → seat_at places.items k ≡ None) }
{
    let mut places = Vec::with_capacity(alloc, count)?;
    'places: for _place in 0..count {
        places.push(None)?;
    }
    Ok(places)
}

impl Seats {
    /// This number of seats, all of them free. What connections give, requests and replies are
    /// allocated later, by `alloc`.
    ///
    /// # Errors
    /// `AllocError` when out of memory.
    pub fn new(alloc: Global, count: usize) -> Result<Seats, AllocError>
        ensures as_many { IfOk result (λ seats. length seats ≡ count) }
        ensures all_free { IfOk result (λ seats. (k : ℕ) → seat_at seats k ≡ None) }
    {
        Ok(Seats {
            alloc,
            places: free_places(alloc, count)?,
            buffer: vec![in alloc; 0; BUFFER_LEN]?,
        })
    }

    // The first place that is free, if one is.
    pub(crate) fn free_place(&self) -> Option<usize>
        ensures is_free { IfSome result
            (λ k. (k < length self.now) × (seat_at self.now k ≡ None)) }
        ensures first { result ≡ position is_none self.now }
    {
        self.places.iter().position(|place| place.is_none())
    }

    // Whether all places are free.
    pub(crate) fn are_free(&self) -> bool
        ensures all_free { IsTrue result → (k : ℕ) → seat_at self.now k ≡ None }
    {
        self.places.iter().all(|place| place.is_none())
    }

    // Accepts the next connection, if one is there, for a free place.
    pub(crate) fn accept_next<H: Hall>(
        &mut self,
        hall: &mut H,
        place: usize,
    ) -> Result<bool, Failed>
        requires within { place < length self.old }
        ensures seats_next { SeatsNext place self.old self.new (H.state hall.old)
            (H.state hall.new) result }
    {
        let Some(id) = hall.accept(place)? else {
            return Ok(false);
        };
        self.places[place] = Some(Seat::new(self.alloc, id));
        Ok(true)
    }

    // One turn of an open connection. False where nothing was done when out of memory.
    pub(crate) fn serve_connection<M: Machine, H: Hall, W: Watchers<M::Edit>>(
        &mut self,
        machine: &mut M,
        hall: &mut H,
        watchers: &mut W,
        id: ConnectionId,
    ) -> bool
        requires open { IsOpen (H.state hall.old) id }
        requires seats_match { MatchesSeats (H.state hall.old) self.old }
        requires room_left { M.takes machine.old (requests_left self.old) }
        ensures serves { ServesAt (StepsInBytes M.steps) W.keeps 1 (failures_unless result) id.place
            (record {
              machine = machine.old;
              hall = H.state hall.old;
              seats = self.old;
              watchers = watchers.old;
            })
            (record {
              machine = machine.new;
              hall = H.state hall.new;
              seats = self.new;
              watchers = watchers.new;
            }) }
        ensures takes_on { (n : ℕ) → M.takes machine.old (requests_left self.old + n)
            → M.takes machine.new (requests_left self.new + n) }
    {
        serve_place(
            self.alloc,
            machine,
            hall,
            watchers,
            &mut self.places[id.place],
            &mut self.buffer,
        )
    }

    // Closes an open connection, and frees its place.
    pub(crate) fn close_connection<H: Hall>(&mut self, hall: &mut H, id: ConnectionId)
        requires open { IsOpen (H.state hall.old) id }
        requires within { id.place < length self.old }
        ensures frees_place { self.new ≡ slice_set self.old id.place None }
        ensures closes { H.state hall.new ≡ hall_after_close id.number (H.state hall.old) }
    {
        hall.close(id);
        self.places[id.place] = None;
    }
}
