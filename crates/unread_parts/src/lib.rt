//! Parts of a request and of a state that don't influence the change that is made.
//! Of a request they are whether the connection ends after it, and each field that the machine
//! doesn't read; of a state the earlier versions of its documents.
//! Upward: a request as the record of its change gives it makes the same change
//! (`recorded_requests_change_the_same`); and a request that doesn't read gets the same reply and
//! makes the same change in each state with the same present documents and etags
//! (`writes_depend_on_documents_alone`; RFC 4825, sections 8.2 to 8.5). Records are this project's
//! own; no standard defines them.
#![tactic(auto)]

mod laws;

pub use laws::{recorded_requests_change_the_same, writes_depend_on_documents_alone};
