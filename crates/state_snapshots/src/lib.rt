//! Snapshots of a server's state, in parts: a start and the documents, each a record for a log.
//! `start_part` and `document_part` write them; `read_start` and `read_document_part` read them.
//! Upward: a part that was written is read back (`parts_are_read_back`), and a snapshot keeps the
//! state without earlier versions (`snapshots_keep_states`). The form is this project's own; no
//! standard defines it.
#![tactic(auto)]

mod laws;
mod limits;
mod part_reading;
mod part_writing;
mod parts;

pub use laws::{parts_are_read_back, snapshots_keep_states};
pub use limits::FORM_VERSION;
pub use part_reading::{read_document_part, read_start};
pub use part_writing::{document_part, start_part};
pub use parts::{DocumentPart, PartFault, Start};
