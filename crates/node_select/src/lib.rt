//! Node selectors: their text, what they select in a tree, and which gaps are lawful for a new
//! child.
//! Promises upward that reading returns the selector that a text spells, or the byte where it
//! stops being one (`IsSelectorAnswer`), that `select` computes the relation `SelectsPath`, that
//! a step selects at most one child (`steps_select_one_child`), and how selection behaves when a
//! child is inserted, replaced or removed (`lawful_gaps_are_computed`, `selection_follows_edits`).
//! The standards are RFC 4825, sections 6.3, 8.2 and 8.4, and for patches RFC 5261, section 4.1,
//! as far as it is supported.
//! A name without a prefix is in the caller's default namespace in a step, and in none in an
//! attribute test. A position beyond 4,294,967,295 is read as 0, which selects nothing.
#![tactic(auto)]

mod bindings;
mod descent;
mod element_selection;
mod fault;
mod laws;
mod name_resolution;
mod raw_selectors;
mod reading_laws;
mod selector;
mod selector_grammar;
mod selector_reader;
mod step_laws;
mod step_match;
mod steps;

pub use bindings::Bindings;
pub use descent::{Reached, reach};
pub use element_selection::{longest_match, select, select_steps};
pub use fault::SelectorFault;
pub use laws::steps_select_one_path;
pub use reading_laws::{
    patch_forms_have_one_answer, patch_selectors_have_one_answer, selectors_have_one_answer,
};
pub use selector::{AttrTest, End, NameTest, PatchEnd, PatchForm, PatchSelector, Selector, Step};
pub use selector_reader::{read_patch_form, read_patch_selector, read_selector};
pub use step_laws::{
    lawful_gaps_are_computed, like_children_are_selected_alike, plans_are_computed,
    selection_follows_edits, steps_select_one_child,
};
pub use step_match::{find_attr, find_attr_in, is_at_position, same_text};
pub use steps::MAX_POSITION;
