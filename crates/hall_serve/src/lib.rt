//! Serves the connections of a hall, many at once, with any `Machine` that answers requests.
//! `make_turn` waits for what can go on and does one thing; `serve_hall` makes turns. Upward:
//! there is one order of all requests on all connections by which the machine comes from each state
//! to the next; the bytes of each connection begin with exactly its requests of that order, and its
//! replies are what was written, or begin with it; and watchers were notified of each edit before a
//! byte of its reply was written (`ServesOn`, `WritesOrAnswers`). All this is so between any two
//! turns. The standard is HTTP/1.1 by RFC 9112.
#![tactic(auto)]

mod laws;
mod seat;
mod seat_turns;
mod seats;
mod serve;
mod turns;

pub use laws::{connections_in_turn_are_served, new_hall_has_served_nothing};
pub use seats::Seats;
pub use serve::{HallStop, HallSummary, serve_hall};
pub use turns::{Turn, make_turn};
