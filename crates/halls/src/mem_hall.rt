// Connections in memory, for tests and for programs over known bytes.
ghost use Rattle.std.specs.Prelude.{◌≡◌, ◌<◌, ◌≤◌, false, length, option_copied, slice_get};
ghost use Rattle.halls.specs.HallState.{new_hall};
ghost use Rattle.halls.specs.MemoryHalls.{memory_hall_state};
ghost use Rattle.halls.specs.inner.Clients.{closed_client, with_client};
ghost use Rattle.halls.specs.CallResults.{MayReport, MayWrite};
ghost use Rattle.halls.specs.inner.Clients.{IsOpenFrom, IsOpenOrNone, ReadsClient, WritesClient};

use crate::client::{Client, Move};
use crate::hall::{ConnectionId, Event, Hall, Progress};
use crate::hall_log::{Call, HallLog};
use xcap_io::Failed;

/// A hall to which clients in memory connect, in order. Moves are made first, one in each wait;
/// after the last one all bytes flow, and the connections are reported in rounds. Contracts see
/// everything but the moves.
#[derive(Drop)]
pub struct MemHall {
    clients: Vec<Client>,
    moves: Vec<Move>,
    // the next move, how many clients have connected, and where the round goes on
    next: usize,
    begun: usize,
    from: usize,
    log: HallLog,
    ghost counted: { begun ≡ length log.state.connections },
    ghost within: { begun ≤ length clients.items },
}

// Does what the move says of this client, if it is there.
fn make_move_at(clients: &mut Vec<Client>, number: usize, step: Move)
    ensures unchanged { clients.new.items ≡ clients.old.items }
{
    if number >= clients.len() {
        return;
    }
    let client = &mut clients[number];
    client.make_move(step);
}

// One read of the client of this number, of which the first have connected.
fn read_client(
    clients: &mut Vec<Client>,
    begun: usize,
    number: u64,
    buf: &mut [u8],
) -> Result<Progress, Failed>
    requires some { 0 < length buf.old }
    requires within { begun ≤ length clients.old.items }
    ensures reads { ReadsClient begun clients.old.items clients.new.items number buf.new result }
{
    let at = number as usize;
    if at >= begun {
        return Err(Failed);
    }
    let client = &mut clients[at];
    client.read(buf)
}

// One write to the client of this number, of which the first have connected.
fn write_client(
    clients: &mut Vec<Client>,
    begun: usize,
    number: u64,
    piece: &[u8],
) -> Result<Progress, Failed>
    requires some { 0 < length piece.now }
    requires within { begun ≤ length clients.old.items }
    ensures within_piece { MayWrite piece.now result }
    ensures writes { WritesClient clients.old.items clients.new.items number piece.now result }
{
    let at = number as usize;
    if at >= begun {
        return Err(Failed);
    }
    let client = &mut clients[at];
    client.write(piece)
}

// The connection of this client is closed.
fn close_client(clients: &mut Vec<Client>, number: u64)
    ensures closes { clients.new.items ≡ with_client clients.old.items number closed_client }
{
    let at = number as usize;
    if at >= clients.len() {
        return;
    }
    let client = &mut clients[at];
    client.close();
}

impl MemHall {
    /// A hall to which these clients connect, in order, and where these moves are made first. Does
    /// not allocate.
    pub fn new(clients: Vec<Client>, moves: Vec<Move>) -> MemHall
        ensures exact { ⟦<MemHall as Hall>⟧.state result
            ≡ memory_hall_state clients.items new_hall }
        ensures clients { result.clients.items ≡ clients.items }
    {
        MemHall {
            clients,
            moves,
            next: 0,
            begun: 0,
            from: 0,
            log: HallLog::new(),
        }
    }

    /// Client number `i`, from 0. Does not allocate.
    pub fn client(&self, i: usize) -> Option<&Client>
        ensures exact { option_copied result ≡ slice_get self.now.clients.items i }
    {
        self.clients.get(i)
    }

    // The connection of this number, if it is open.
    fn open_connection(&self, number: usize) -> Option<ConnectionId>
        ensures open_or_not { IsOpenOrNone (⟦<MemHall as Hall>⟧.state self.now) number result }
    {
        if number >= self.begun {
            return None;
        }
        let client = &self.clients[number];
        if client.is_closed() {
            return None;
        }
        Some(ConnectionId {
            place: client.place(),
            number: number as u64,
        })
    }

    // The first open connection from this number on.
    fn first_open_from(&self, from: usize) -> Option<ConnectionId>
        ensures open_or_none { IsOpenFrom (⟦<MemHall as Hall>⟧.state self.now) from result }
    {
        for number in from..self.begun {
            if let Some(id) = self.open_connection(number) {
                return Some(id);
            }
        }
        None
    }

    // The next open connection in the round.
    fn next_open(&self) -> Option<ConnectionId>
        ensures open_or_none { IsOpenFrom (⟦<MemHall as Hall>⟧.state self.now) 0 result }
    {
        if let Some(id) = self.first_open_from(self.from) {
            return Some(id);
        }
        self.first_open_from(0)
    }

    // Makes a move that is about one client.
    fn move_client(&mut self, number: usize, step: Move) -> Event
        ensures truthful { MayReport {E = Failed} (⟦<MemHall as Hall>⟧.state self.old) false
            (Ok result) }
        ensures same_clients { self.new.clients.items ≡ self.old.clients.items }
        ensures same_log { self.new.log.state ≡ self.old.log.state }
    {
        make_move_at(&mut self.clients, number, step);
        let Some(id) = self.open_connection(number) else {
            return Event::Quiet;
        };
        if let Move::IsLate(_) = step {
            return Event::Late(id);
        }
        Event::Ready(id)
    }

    // The next event after the last move.
    fn next_in_round(&mut self) -> Event
        ensures truthful { MayReport {E = Failed} (⟦<MemHall as Hall>⟧.state self.old) false
            (Ok result) }
        ensures same_clients { self.new.clients.items ≡ self.old.clients.items }
        ensures same_log { self.new.log.state ≡ self.old.log.state }
    {
        let Some(id) = self.next_open() else {
            return if self.begun == self.clients.len() {
                Event::Over
            } else {
                Event::Quiet
            };
        };
        let number = id.number as usize;
        self.from = number.saturating_add(1);
        make_move_at(&mut self.clients, number, Move::Flows(number));
        Event::Ready(id)
    }

    // The next event.
    fn next_event(&mut self, takes_more: bool) -> Result<Event, Failed>
        ensures truthful { MayReport (⟦<MemHall as Hall>⟧.state self.old) takes_more result }
        ensures same_clients { self.new.clients.items ≡ self.old.clients.items }
        ensures same_log { self.new.log.state ≡ self.old.log.state }
    {
        let comes = takes_more && self.begun < self.clients.len();
        let Some(step) = self.moves.get(self.next) else {
            if comes {
                return Ok(Event::Knock);
            }
            return Ok(self.next_in_round());
        };
        let step = *step;
        self.next += 1;
        match step {
            Move::Fails => Err(Failed),
            Move::Comes if comes => Ok(Event::Knock),
            Move::Comes => Ok(Event::Quiet),
            Move::Sends(number, _)
            | Move::Takes(number, _)
            | Move::Flows(number)
            | Move::GoesOn(number)
            | Move::IsLate(number)
            | Move::Breaks(number) => Ok(self.move_client(number, step)),
        }
    }
}

impl Hall for MemHall {
    ghost state = { λ h. memory_hall_state h.clients.items h.log.state };

    fn listen(&mut self, address: &str) -> Result<(), Failed> {
        self.log = self
            .log
            .with_call(&Call::Listen(address.as_bytes(), Ok(())));
        Ok(())
    }

    fn wait(&mut self, takes_more: bool) -> Result<Event, Failed> {
        let result = self.next_event(takes_more);
        self.log = self.log.with_call(&Call::Wait(takes_more, result));
        result
    }

    fn accept(&mut self, place: usize) -> Result<Option<ConnectionId>, Failed> {
        if self.begun == self.clients.len() {
            self.log = self.log.with_call(&Call::Accept(place, Ok(None)));
            return Ok(None);
        }
        let client = &mut self.clients[self.begun];
        client.connect(place);
        let number = self.begun as u64;
        let id = ConnectionId { place, number };
        self.begun += 1;
        self.log = self.log.with_call(&Call::Accept(place, Ok(Some(id))));
        Ok(Some(id))
    }

    fn read(&mut self, id: ConnectionId, buf: &mut [u8]) -> Result<Progress, Failed> {
        let result = read_client(&mut self.clients, self.begun, id.number, buf);
        self.log = self.log.with_call(&Call::Read(id, buf, result));
        result
    }

    fn write(&mut self, id: ConnectionId, piece: &[u8]) -> Result<Progress, Failed> {
        let result = write_client(&mut self.clients, self.begun, id.number, piece);
        self.log = self.log.with_call(&Call::Write(id, piece, result));
        result
    }

    fn close(&mut self, id: ConnectionId) {
        close_client(&mut self.clients, id.number);
        self.log = self.log.with_call(&Call::Close(id));
    }

    fn defer(&mut self, id: ConnectionId) {
        let _ = id;
    }

    fn rest(&mut self, id: ConnectionId) {
        let _ = id;
    }
}
