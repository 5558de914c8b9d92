//! The document store: each document with its etag and the records of its last changes. A change
//! is prepared (`prepare`, which takes all memory and may refuse it) and then committed (`commit`,
//! which can't fail). Upward: a store's contents represent a valid state of the abstract machine
//! (`Represents`, `IsValidState`), each change makes the next state (`state_after`,
//! `contents_after`, `change_result`), and `since` returns the records since an etag. The standards
//! are RFC 4825, sections 7 and 8, RFC 4826 and RFC 5874. The limits (`Limits`) are this server's
//! own: they are given with a new store, no change changes them, and a change that would pass one,
//! of all documents or of one user's, is refused. Versions are listed newest first. Whether a tree
//! is shared is in the store's `SpareCapacity`, not in its contents: `commit` needs an unshared tree
//! for an edit in place.
#![tactic(auto)]

mod addresses;
mod cached_tree;
mod change_builder;
mod commit_change;
mod entry;
mod home_sums;
mod indexes;
mod laws;
mod limits;
mod prepare_change;
mod prepared_change;
mod printed_tree;
mod prints;
mod put_lengths;
mod refusal;
mod registry;
mod restored_documents;
mod retained_records;
mod root_changes;
mod shared_root;
mod since;
mod staged_tree;
mod step;
mod store;

pub use laws::{
    changes_that_are_made_keep_store_and_state, changes_that_are_made_suit_the_state,
    changes_that_suit_the_state_are_made, states_stay_valid_after_each_change,
    stores_stand_after_each_change, the_first_state_is_valid, the_index_has_one_list,
};
pub use limits::{
    Limits, MAX_BYTE_LIMIT, MAX_DOCUMENT_BYTES, MAX_DOCUMENT_LIMIT, MAX_NOTES, MAX_WEIGHT,
};
pub use prepared_change::Prepared;
pub use refusal::StoreRefusal;
pub use since::{Since, notes_since_a_version_lead_from_it};
pub use store::Store;
