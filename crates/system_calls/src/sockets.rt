// TCP sockets.
use std::io::{ErrorKind, Result};
use std::net::{Net, OpenListener, OpenStream, TcpListener, TcpStream};
use std::time::Duration;

/// What `accept` answered.
pub enum Accepted<S> {
    /// A connection, with its own socket.
    Connection(S),
    /// The next connection broke before it was accepted (ECONNABORTED).
    Broken,
    /// Any other error.
    Failed,
}

/// `socket`, `bind` and `listen`: a socket that listens at this address, `HOST:PORT`.
pub fn listen<N: Net>(net: &N, address: &str) -> Result<N::Listener> {
    TcpListener::bind(net, address)
}

/// `accept`: waits for the next connection.
pub fn accept<L: OpenListener>(listener: &L) -> Accepted<L::Stream> {
    match listener.accept() {
        Ok((stream, _)) => Accepted::Connection(stream),
        Err(error) if error.kind() == ErrorKind::ConnectionAborted => Accepted::Broken,
        Err(_) => Accepted::Failed,
    }
}

/// `socket` and `connect`: a connection to this address, `HOST:PORT`.
pub fn connect<N: Net>(net: &N, address: &str) -> Result<N::Stream> {
    TcpStream::connect(net, address)
}

/// `setsockopt` with TCP_NODELAY: what is written is sent at once, without Nagle's delay.
pub fn set_nodelay<S: OpenStream>(stream: &S) {
    let _ = stream.set_nodelay(true);
}

/// `setsockopt` with SO_RCVTIMEO: a read that waits longer fails.
pub fn set_read_timeout<S: OpenStream>(stream: &S, limit: Duration) {
    let _ = stream.set_read_timeout(Some(limit));
}

/// `setsockopt` with SO_SNDTIMEO: a write that waits longer fails.
pub fn set_write_timeout<S: OpenStream>(stream: &S, limit: Duration) {
    let _ = stream.set_write_timeout(Some(limit));
}
