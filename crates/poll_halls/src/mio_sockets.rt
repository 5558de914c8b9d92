// The trusted edge: each function here is one call of the system, by way of `mio`, and its answer.
// No contract says that the bytes which a stream gives came over the network, or that those which
// it takes go there, nor what a poll finds.
use crate::sockets::{Readiness, Sockets};
use mio::event::Event;
use mio::net::{TcpListener, TcpStream};
use mio::{Events, Interest, Poll, Token};
use std::alloc::{AllocError, Global};
use std::io::ErrorKind;
use std::net::{Net, Shutdown, ToSocketAddrs};
use std::time::{Clock, Duration, Instant};
use xcap_io::Failed;

/// The token of the listener; the others are places.
const LISTENER: Token = Token(usize::MAX);

/// How many sockets one poll finds at most.
const MAX_FOUND: usize = 256;

/// TCP sockets of this machine.
#[derive(Drop)]
pub struct MioSockets<N: Net + Clock + Drop> {
    net: N,
    // none before it listens
    poll: Option<Poll>,
    events: Events,
    found: Vec<Readiness>,
    listener: Option<TcpListener>,
}

impl<N: Net + Clock + Drop> MioSockets<N> {
    /// Sockets that don't listen yet.
    ///
    /// # Errors
    /// When out of memory.
    pub fn new(alloc: Global, net: N) -> Result<MioSockets<N>, AllocError> {
        Ok(MioSockets {
            events: Events::with_capacity(alloc, MAX_FOUND)?,
            found: Vec::with_capacity(alloc, MAX_FOUND)?,
            net,
            poll: None,
            listener: None,
        })
    }
}

// A listener at the first address that can be bound.
fn bind_first<N: Net>(net: &N, address: &str) -> Option<TcpListener> {
    for address in address.to_socket_addrs(net).ok()? {
        if let Ok(listener) = TcpListener::bind(net, address) {
            return Some(listener);
        }
    }
    None
}

// What an event says. An error is found by the next call, whichever it is.
fn readiness(event: &Event) -> Readiness {
    let token = event.token();
    Readiness {
        place: if token == LISTENER {
            None
        } else {
            Some(token.0)
        },
        can_read: event.is_readable() || event.is_read_closed() || event.is_error(),
        can_write: event.is_writable() || event.is_write_closed() || event.is_error(),
    }
}

// Notes what the events say, as far as there is room.
fn record_events(found: &mut Vec<Readiness>, events: &Events) {
    found.clear();
    for event in events.iter() {
        if found.push(readiness(event)).is_err() {
            return;
        }
    }
}

// Has polls find the stream at this place.
fn register(poll: &Poll, stream: &mut TcpStream, place: usize) -> Result<(), Failed> {
    let both = Interest::READABLE | Interest::WRITABLE;
    match poll.registry().register(stream, Token(place), both) {
        Ok(()) => Ok(()),
        Err(_) => Err(Failed),
    }
}

impl<N: Net + Clock + Drop> Sockets for MioSockets<N> {
    type Stream = TcpStream;

    fn listen(&mut self, address: &str) -> Result<(), Failed> {
        let Some(mut listener) = bind_first(&self.net, address) else {
            return Err(Failed);
        };
        if self.poll.is_none() {
            self.poll = Poll::new(&self.net).ok();
        }
        let Some(poll) = &self.poll else {
            return Err(Failed);
        };
        let registry = poll.registry();
        match registry.register(&mut listener, LISTENER, Interest::READABLE) {
            Ok(()) => {
                self.listener = Some(listener);
                Ok(())
            }
            Err(_) => Err(Failed),
        }
    }

    fn poll(&mut self, longest: Duration) -> Result<(), Failed> {
        let Some(poll) = &mut self.poll else {
            return Err(Failed);
        };
        match poll.poll(&mut self.events, Some(longest)) {
            Ok(()) => {
                record_events(&mut self.found, &self.events);
                Ok(())
            }
            Err(_) => Err(Failed),
        }
    }

    fn readiness(&self) -> &[Readiness] {
        self.found.as_slice()
    }

    fn accept(&mut self, place: usize) -> Result<Option<TcpStream>, Failed> {
        let (Some(listener), Some(poll)) = (&self.listener, &self.poll) else {
            return Ok(None);
        };
        match listener.accept() {
            Ok((mut stream, _)) => {
                // Writes are few and large, so they are sent without Nagle's delay. A socket that
                // can't do so works all the same.
                let _ = stream.set_nodelay(true);
                register(poll, &mut stream, place)?;
                Ok(Some(stream))
            }
            Err(fault) => match fault.kind() {
                ErrorKind::WouldBlock | ErrorKind::Interrupted | ErrorKind::ConnectionAborted => {
                    Ok(None)
                }
                _ => Err(Failed),
            },
        }
    }

    fn finish(&self, stream: &TcpStream) {
        // A connection that is gone needs no end.
        let _ = stream.shutdown(Shutdown::Write);
    }

    fn now(&self) -> Option<Instant> {
        Instant::now(&self.net).ok()
    }
}
