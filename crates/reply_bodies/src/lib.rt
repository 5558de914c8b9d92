//! Bodies of replies: the error document of a 409, and the text of the node that a selector finds.
//! They are `error_document` and `found_text`; `has_place` says whether a node that is put has a
//! place. Upward: an error document has exactly the bytes `conflict_bytes`, exactly the nodes that
//! a selector finds have a text (`texts_are_those_of_found_nodes`), and below the root an element
//! has a place exactly where its parent exists. The standard is RFC 4825, sections 6 to 8, 10 and
//! 11.
//! `alt-value` and `phrase` are not written. `namespace::*` lists the default namespace first,
//! then prefixes by code point.
#![tactic(auto)]

mod conflicts;
mod laws;
mod node_places;
mod nodes;

pub use conflicts::{ErrorBody, error_document};
pub use laws::{elements_have_places_below_their_parents, texts_are_those_of_found_nodes};
pub use node_places::has_place;
pub use nodes::{found_text, has_node_at, node_media_type};
