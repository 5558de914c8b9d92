//! Writes diff documents: what became of a document since a version of it, in each diff processing
//! mode.
//! Promises upward that a diff document's text is the print of its tree (`notice`, `gone_notice`),
//! and that its prefix is the first that nothing in it declares (`the_prefix_is_the_first_free`).
//! The standards are RFC 5874 (xcap-diff), RFC 5261 (patch operations) and RFC 5875 (modes).
#![tactic(auto)]

mod laws;
mod notices;
mod operations;
mod prefixes;

pub use laws::the_prefix_is_the_first_free;
pub use notices::{gone_notice, notice};
