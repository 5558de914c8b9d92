//! Which state the log of a server's changes leads to (`LeadsToState`), and which state a restart
//! therefore comes to.
//! Upward: what a crash leaves at any moment leads a restart to the state after all changes whose
//! replies were given, each document with its etag, or to one change more; contents lead to one
//! state; and the number that the next change gets there is above each that was given
//! (`restarts_come_back`). Where a server writes snapshots while it serves, a restart finds the same
//! documents and etags (`restarts_find_documents`). RFC 4825, section 8.5, defines etags; the log
//! is this project's own.
#![tactic(auto)]

mod laws;

pub use laws::{restarts_come_back, restarts_find_documents, snapshots_lead_to_their_state};
