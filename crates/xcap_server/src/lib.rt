//! The server: it answers requests, notifies watchers, serves connections, and restarts from a
//! journal.
//! Promises upward that replies, documents and notified changes are those of the abstract machine
//! run on the requests in the connections' bytes (`serve_connection`: by the machine of the
//! standards alone, `StandardStep`, and by the whole one, `ValidStep`; `StandardServer::serve_port`:
//! by both in each step, `StandardStepWith`; `serve_hall`, for many connections that are open at
//! once, by `ValidStep`; that subscribers hold the document after such a step is the law
//! `xcap_machine::subscribers_hold_the_document`), and that a server which restarts from any first
//! bytes of another's journal has what that one had after the requests whose records are whole in
//! them (`servers_come_back_from_first_bytes`).
//! The standard is RFC 4825, sections 6 to 8; the form of a journal is the project's own.
//! A target outside the root is answered 404 without allocation.
#![tactic(auto)]

mod durable_server;
mod durable_service;
mod hall_server;
mod laws;
mod lent_answers;
mod logged_server;
mod logged_service;
mod replayer;
mod request_decisions;
mod restart_laws;
mod server;
mod service;
mod standard_server;
mod targets;

pub use durable_server::answer_durably;
pub use hall_server::serve_hall;
pub use http_serve::{CloseReason, MachineReply, ServeSummary, StopReason};
pub use laws::all_bytes_count;
pub use logged_server::{answer_logged, serve_port_logged};
pub use restart_laws::{journals_restore_a_state, servers_come_back_from_first_bytes};
pub use server::{Server, answer, answer_reading, serve_connection, serve_port};
pub use standard_server::StandardServer;
