//! What PUT and DELETE of a node mean: edit targets, changes or refusals, addresses by keys; and
//! laws. Definitions and laws, no code that runs.
//! Promises upward one page of definitions for the machine and for the planner: `IsSpot`,
//! `IsPutPlan`, `IsAttrPlan` and `IsDeletePlan`, with unique results (`each_plan_has_one_answer`,
//! `each_plan_has_an_answer`); that what has to hold of a new document may be checked beside the
//! change; and that a key address keeps selecting its element (`KeepsKeyAddresses`).
//! The standards are RFC 4825, sections 6.3, 8.2.1 to 8.2.5 and 8.4, and RFC 4826, sections 3.4.5
//! and 4.4.5.
//! An address without an edit target has the number of its steps that lead to an element
//! (`NoParent`); the `ancestor` of a 409 is named by these.
#![tactic(auto)]

mod change_laws;
mod edit_refusal;
mod key_laws;
mod puts_and_deletes;
mod spot;

pub use change_laws::{
    clashes_beside_a_change, constraints_beside_a_change, lawful_by_the_last_step,
    new_attributes_beside_a_change, selection_after_a_removal, selection_stays_above_a_change,
    validity_beside_a_change,
};
pub use edit_refusal::EditRefusal;
pub use key_laws::a_key_address_keeps_its_element;
pub use puts_and_deletes::{
    an_attribute_is_put_twice, an_element_is_put_twice, attributes_of_selectors_may_be_written,
    each_plan_has_an_answer, each_plan_has_one_answer, planned_changes_leave_proper_documents,
    what_was_deleted_is_not_found, what_was_put_is_selected, what_was_written_is_found,
};
pub use spot::{NoParent, Spot};
