//! Laws of diff documents, between writing them, reading their texts and applying them.
//! Promises upward that diff documents in both patching modes are replayed exactly, are read
//! back, and leave replicas sound (`notices_are_replayed`, `notices_are_read_back`,
//! `replicas_stay_sound`).
//! The standards are RFC 5874 (xcap-diff), RFC 5261 (patch operations) and RFC 5875 (patching
//! modes).
#![tactic(auto)]

mod laws;

pub use laws::{
    notices_are_read_back, notices_are_replayed, notices_have_one_outcome, operations_make_changes,
    other_notices_are_replayed, paths_are_selected, prefixes_are_free,
    proper_where_names_are_bound_alike, replicas_stay_sound, selectors_are_those_of_the_grammar,
};
