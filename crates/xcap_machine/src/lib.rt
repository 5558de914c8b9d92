//! The abstract machine: for each request in a state the one allowed reply and the next state.
//! Definitions and laws, no code.
//! `StandardStep` is the machine of RFC 4825 and 4826 alone, which leaves open what this server's
//! own addresses are answered; `Step` is the whole machine (`each_answer_is_by_the_standards`).
//! Promises upward one meaning for the crates that read, write and serve (`Step`, `IsAnswer`):
//! exactly one answer to each request, no change by a refused one, valid states alone
//! (`each_request_has_one_answer`, `what_is_refused_changes_nothing`, `every_state_stays_valid`),
//! and subscribers that have the server's document (`notices_are_applied_in_order`).
//! The standards are RFC 4825 (sections 6 to 8, 11), 4826 (4.4), 9110 (13), 5874 and 5875.
//! Replies are parts here, not bytes: `InBytes` of `http_serve` makes bytes of them. An answer
//! depends on what is stored now; the next state has all versions.
#![tactic(auto)]

mod machine_laws;
mod replay_laws;
mod status_laws;
mod subscriber_laws;

pub use machine_laws::{
    a_second_put_leaves_every_tree, changes_that_are_made_leave_key_addresses,
    each_answer_is_by_the_standards, each_reply_closes_as_its_request, each_request_has_one_answer,
    every_state_stays_valid, key_addresses_keep_their_elements, targets_may_be_written,
    the_standards_leave_one_answer, what_is_held_follows_the_machine,
    what_is_refused_changes_nothing, what_was_deleted_is_gone, what_was_put_is_there,
};
pub use replay_laws::{
    notes_are_told_since_a_version, removed_documents_are_dropped, versions_are_replayed,
};
pub use status_laws::no_answer_is_503;
pub use subscriber_laws::{
    a_tag_means_one_version, notices_are_applied_in_order, subscribers_hold_the_document,
};
