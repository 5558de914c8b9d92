//! Many connections at once: what a server asks of them (`Hall`), and some in memory (`MemHall`).
//! Contracts see what has passed over each connection, in the order in which they were accepted,
//! and how often each call was made (`HallState`, `hall_after_wait`, `hall_after_read`, ..): so a
//! loop can't claim to have served a connection that it never tried. The model is this project's
//! own; no standard defines it.
#![tactic(auto)]

mod client;
mod hall;
mod hall_log;
mod mem_hall;

pub use crate::client::{Client, Move};
pub use crate::hall::{ConnectionId, Event, Hall, Progress};
pub use hall_log::{Call, HallLog};
pub use mem_hall::MemHall;
pub use xcap_io::Failed;
