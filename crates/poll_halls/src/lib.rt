//! A hall over sockets that are polled (`PollHall`), so that no call on a connection waits. It
//! promises what `halls` asks of a hall, and that the bytes of each read and write pass through the
//! connection's own stream. Where no descriptor is left, connections that come wait until another
//! is closed; a closed one lingers until its peer has the last reply, for a second at most. What is
//! left to trust are the calls of the system (`Sockets`), which `MioSockets` makes. The model is
//! this project's own; no standard defines it.
#![tactic(auto)]

mod lingering;
mod mio_sockets;
mod poll_hall;
mod slot;
mod sockets;

pub use crate::poll_hall::{PollHall, TimeLimits};
pub use crate::sockets::{Readiness, Sockets};
pub use mio_sockets::MioSockets;
