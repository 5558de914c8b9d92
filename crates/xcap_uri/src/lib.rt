//! Request targets, and the addresses that a server prints. Their parts are the XCAP root,
//! document and node selectors, queries, escapes, and the URIs of homes and ancestors. Upward:
//! each target has one result under a root, its meaning or the first of its faults
//! (`IsTargetResult`), and `read_target` returns it, which is what the address means by itself
//! (`addresses_are_read_as_they_mean`); a printed document id reads back as the
//! document (`printed_id_reads_back`, `printed_names_name_their_documents`). The standards are RFC
//! 4825, sections 6 and 11, and RFC 3986, sections 2.1 and 3.3.
//! A shape keeps its selector as text, since selector and query are read only where the segments
//! before them name something.
#![tactic(auto)]

mod ancestors;
mod delimiters;
mod escapes;
mod fault;
mod laws;
mod name_laws;
mod numerals;
mod query;
mod root;
mod segments;
mod shape;
mod target;

pub use ancestors::{ancestor_uri, home_uri};
pub use delimiters::cut;
pub use escapes::has_complete_escapes;
pub use fault::UriFault;
pub use laws::{
    addresses_are_read_as_they_mean, printed_id_reads_back, queries_have_one_reading,
    roots_are_spelled_by_the_grammar, targets_have_one_answer,
};
pub use name_laws::printed_names_name_their_documents;
pub use numerals::parse_numeral;
pub use root::{Root, read_root};
pub use target::{Mode, Target, read_target, rest_under_root};
