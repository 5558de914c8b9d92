//! Watching one element: where it was before later changes, and the xcap-diff document about it.
//! Also whether a selector is a key address. Upward: `element_notice` returns exactly that
//! document (`IsNoticeAnswer`), and an element of which it reports nothing is the same in each
//! version since (`unreported_elements_are_the_same`). The standards are RFC 4825, section 6.3
//! (node selectors), RFC 4826, sections 3.4.5 and 4.4.5 (keys), and RFC 5874, section 3.
//! An unprefixed attribute of an element touches the elements below it too, as it may be a key;
//! one with a prefix doesn't.
#![tactic(auto)]

mod element_diffs;
mod element_states;
mod fault;
mod key_addresses;
mod laws;
mod path_history;
mod paths;

pub use element_diffs::{Watch, element_notice};
pub use element_states::ElementState;
pub use fault::ElementFault;
pub use key_addresses::key_address;
pub use laws::{
    each_element_has_one_notice, one_place_passes_to_another, unreported_elements_are_the_same,
};
pub use path_history::trace;
