//! Laws for an auditor: what is promised whatever requests come.
//! They are about the abstract machine, the journals that `keep` writes and what followers hold,
//! each the contract of a public function that does nothing. No code, and no crate stands on it.
//! Promised are, among others, `strangers_learn_nothing`, `no_lost_update`,
//! `only_the_addressed_changes`, `limits_hold_in_every_state`, `changes_are_told_once`,
//! `replies_are_read_back`, `keep_after_keep` and `followers_converge`.
//! The standards are RFC 4825, 4826, 5874, 5875, RFC 9110 (sections 8.8, 9.3.2 and 13) and RFC 9112
//! (sections 4 to 6 and 9.3).
#![tactic(auto)]

mod access_laws;
mod edit_laws;
mod feed_laws;
mod flat_list_laws;
mod follower_laws;
mod journal_laws;
mod method_laws;
mod reply_laws;
mod state_laws;
mod tag_laws;

pub use access_laws::{
    strangers_learn_nothing, users_change_their_own_home, users_read_their_own_home,
};
pub use edit_laws::only_the_addressed_changes;
pub use feed_laws::{
    changes_are_told_once, element_notices_miss_nothing, near_versions_are_known,
    what_is_fetched_is_a_version,
};
pub use flat_list_laws::flat_lists_are_sound;
pub use follower_laws::followers_converge;
pub use journal_laws::keep_after_keep;
pub use method_laws::{head_is_get_without_body, unmodified_only_for_the_present_tag};
pub use reply_laws::{joined_replies_part_in_one_way, replies_are_read_back};
pub use state_laws::{limits_hold_in_every_state, the_index_is_consistent};
pub use tag_laws::{no_lost_update, tags_are_fresh};
