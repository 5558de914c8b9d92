//! Diff documents: the one that change records make, what it makes of a replica, and its beginning.
//! Promises upward one meaning for the crates that write diff documents and those that apply them
//! (`aggregate_notice`, `apply_operation`, `IsReplayOutcome`); the laws between the two are in
//! `patch_laws`.
//! The standards are RFC 5874 (xcap-diff), RFC 5261 (patch operations) and RFC 5875 (patching
//! modes).
//! Whether a selector's end suits its operation is decided by its text: an attribute in an `add`
//! is a wrong directive even where a prefix is unbound.
#![tactic(auto)]

mod diff_elements;

pub use diff_elements::{empty_notice, new_diff_element, push_plain_attr};
