// Clients in memory, which send their bytes when moves say so.
ghost use Rattle.std.specs.Prelude.{◌≡◌, ◌<◌, Some, length};
ghost use Rattle.halls.specs.inner.Clients.{client_after_read, client_after_write, closed_client};
ghost use Rattle.halls.specs.MemoryHalls.{new_client};
ghost use Rattle.halls.specs.inner.Clients.{connected_client};
ghost use Rattle.halls.specs.CallResults.{MayRead, MayWrite};

use crate::hall::Progress;
use std::alloc::Global;
use std::marker::Model;
use xcap_io::Failed;

/// What comes next in a hall in memory. Clients are named by their numbers, from 0.
#[derive(Clone, Copy)]
pub enum Move {
    /// The next client can be accepted.
    Comes,
    /// This many more bytes of the client can be read; after its last one, their end.
    Sends(usize, usize),
    /// This many more bytes can be written to it.
    Takes(usize, usize),
    /// All its bytes can be read, and any number can be written to it.
    Flows(usize),
    /// It is reported ready, whatever it can do.
    GoesOn(usize),
    /// Its time is up.
    IsLate(usize),
    /// Its reads and writes fail from here on.
    Breaks(usize),
    /// The wait fails.
    Fails,
}

/// A client in memory: the bytes that it sends, and those that were written to it.
#[derive(Drop)]
pub struct Client {
    bytes: Vec<u8>,
    sent: usize,
    output: Vec<u8>,
    // how many bytes can be read from it and written to it without waiting
    may_send: usize,
    may_take: usize,
    is_broken: bool,
    is_closed: bool,
    place: usize,
}

impl Model for Client {
    ghost use Rattle.std.specs.Prelude.{◌≤◌, drop, length};
    ghost use Rattle.halls.specs.MemoryHalls.{ClientState};

    ghost Value = { ClientState };

    ghost view = { λ c. record {
      left = drop c.sent c.bytes.items;
      taken = c.output.items;
      place = c.place;
      closed = c.is_closed;
    } };

    ghost invariant = { λ c. c.sent ≤ length c.bytes.items };
}

impl Client {
    /// A client that sends these bytes, of which none can be read yet. Does not allocate.
    pub fn new(alloc: Global, bytes: Vec<u8>) -> Client
        ensures exact { result ≡ new_client bytes.items }
    {
        Client {
            bytes,
            sent: 0,
            output: Vec::new(alloc),
            may_send: 0,
            may_take: 0,
            is_broken: false,
            is_closed: false,
            place: 0,
        }
    }

    /// The bytes that were written to it. Does not allocate.
    pub fn output(&self) -> &[u8]
        ensures exact { result.now ≡ self.now.taken }
    {
        self.output.as_slice()
    }

    pub(crate) fn place(&self) -> usize
        ensures exact { result ≡ self.now.place }
    {
        self.place
    }

    pub(crate) fn is_closed(&self) -> bool
        ensures exact { result ≡ self.now.closed }
    {
        self.is_closed
    }

    // Connects, at this place.
    pub(crate) fn connect(&mut self, place: usize)
        ensures connects { self.new ≡ connected_client place self.old }
    {
        self.output.clear();
        self.place = place;
        self.is_closed = false;
    }

    pub(crate) fn close(&mut self)
        ensures closes { self.new ≡ closed_client self.old }
    {
        self.is_closed = true;
    }

    // Does what the move says of it.
    pub(crate) fn make_move(&mut self, step: Move)
        ensures unchanged { self.new ≡ self.old }
    {
        match step {
            Move::Sends(_, count) => self.may_send = self.may_send.saturating_add(count),
            Move::Takes(_, count) => self.may_take = self.may_take.saturating_add(count),
            Move::Flows(_) => {
                self.may_send = usize::MAX;
                self.may_take = usize::MAX;
            }
            Move::Breaks(_) => self.is_broken = true,
            Move::Comes | Move::GoesOn(_) | Move::IsLate(_) | Move::Fails => (),
        }
    }

    pub(crate) fn read(&mut self, buf: &mut [u8]) -> Result<Progress, Failed>
        requires { 0 < length buf.old }
        ensures next_bytes { MayRead (Some self.old.left) buf.new result }
        ensures moves_on { self.new ≡ client_after_read result self.old }
    {
        if self.is_broken {
            return Err(Failed);
        }
        if self.may_send == 0 {
            return Ok(Progress::Blocked);
        }
        let left = self.bytes.len() - self.sent;
        let count = buf.len().min(self.may_send).min(left);
        buf[..count].copy_from_slice(&self.bytes[self.sent..self.sent + count]);
        self.sent += count;
        self.may_send -= count;
        Ok(Progress::Moved(count))
    }

    pub(crate) fn write(&mut self, piece: &[u8]) -> Result<Progress, Failed>
        requires { 0 < length piece.now }
        ensures within_piece { MayWrite piece.now result }
        ensures moves_on { self.new ≡ client_after_write piece.now result self.old }
    {
        if self.is_broken {
            return Err(Failed);
        }
        if self.may_take == 0 {
            return Ok(Progress::Blocked);
        }
        let count = piece.len().min(self.may_take);
        if self.output.try_reserve(count).is_err() {
            return Err(Failed);
        }
        match self.output.extend_from_slice(&piece[..count]) {
            Ok(()) => {
                self.may_take -= count;
                Ok(Progress::Moved(count))
            }
            Err(_) => unreachable!(),
        }
    }
}
