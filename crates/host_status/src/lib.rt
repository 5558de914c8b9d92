//! The server of the command `host`: the XCAP server over many connections at once, which besides
//! answers `~status` below its root with a text about its state.
//! Upward: a GET or HEAD of `~status` gets the text about the documents, the next number and the
//! limits of the state, which stays as it is, and any other request is answered by the machine
//! (`HostStep`); on all connections of a hall such steps are made in one order (`serve_hall`). How
//! many requests were answered is in the text too, and no clause says of which. RFC 9110, section
//! 9.3, defines the methods; the text is the project's own.
#![tactic(auto)]

mod answer_counts;
mod hall_server;
mod laws;
mod status_replies;
mod status_requests;
mod status_server;
mod status_texts;

pub use answer_counts::AnswerCounts;
pub use hall_server::serve_hall;
pub use laws::other_requests_are_answered_by_the_machine;
pub use status_server::StatusServer;
