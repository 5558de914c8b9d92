//! Blocks of bytes, each after its length in four bytes: what records on a disk are made of.
//! `append_block` writes one and `block_at` reads the one at the front of some bytes.
//! Upward: a block that was written is read again, whatever comes after it, and only what a block
//! is read from is read (`blocks_have_one_form`). The form is this project's own; no standard
//! defines it.
#![tactic(auto)]

mod blocks;
mod laws;

pub use blocks::{append_block, block_at};
pub use laws::blocks_have_one_form;
