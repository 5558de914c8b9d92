//! The server with the log of its changes (`DurableServer`), as a machine that serves connections:
//! each change is in the log before it is made.
//! Upward: each request is answered as the machine of the root answers it (`ValidStep`), except
//! for a change that couldn't be appended, which gets the 500 and isn't made; a request that makes
//! no change touches no log; and a crash at any moment leaves what leads a restart to the
//! documents before it, or to one change more (`serve_hall`, which serves many connections so).
//! RFC 4825, section 8, defines what requests do; the log is this project's own.
#![tactic(auto)]

mod durable_server;
mod hall_serving;
mod laws;

pub use durable_server::DurableServer;
pub use hall_serving::serve_hall;
pub use laws::read_requests_have_records;
