//! Trees of XML elements: elements with their nodes, places in a tree, edits, and scopes of
//! declarations. Also the length of a print.
//! Contracts see an element as a plain `Tree`, normal by its form, and each edit's contract gives
//! the whole new tree (`put_in`, `put_over`, `cut_out`, `set_attr_at`). Also promised are what
//! edits do at other places (`other_places_stay`), and when a tree stays proper
//! (`proper_after_an_edit`).
//! The standards are XML 1.0 (fifth edition) and Namespaces in XML 1.0.
//! Edits compare names as written; expanded names are the caller's matter.
#![tactic(auto)]

mod attrs;
mod declarations;
mod edits;
mod laws;
mod linked_scope;
mod node_edits;
mod node_splices;
mod nodes;
mod path;
mod path_texts;
mod print_lengths;
mod proper_laws;
mod reservations;
mod reserved_edits;
mod scope;
mod tree;
mod tree_copies;

pub use laws::{
    children_after_edits, heights_after_edits, nodes_are_the_content, other_places_stay,
    paths_are_short, paths_go_on, what_was_made_is_there,
};
pub use linked_scope::LinkedScope;
pub use nodes::{child_place, last_elem, place_of_insertion};
pub use path::{PATH_LIMIT, Path, element_at};
pub use path_texts::print_path;
pub use print_lengths::printed_len;
pub use proper_laws::{
    proper_after_an_edit, proper_at_each_place, proper_in_scopes_that_bind_alike, proper_when_put,
};
pub use scope::{SCOPE_LIMIT, Scope};
pub use tree::{Element, Node};
pub use tree_copies::{copy_nodes, copy_tree, depth, equal};
pub use xml_names::{Attr, Decl, Name, Text, is_char, is_name, is_space};
