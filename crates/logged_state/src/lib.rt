//! A machine whose changes outlast a crash (`DurableMachine`): each is logged before it is made.
//! `append_request` appends the record of a request to a `ChangeLog`.
//! Upward: whatever the calls on the log do, what a crash leaves at any moment leads a restart to
//! the state after all changes whose replies were given, or to one more; what the machine
//! refuses is never in the log; and the 500 comes exactly where an append failed
//! (`crashes_keep_changes`). The model is this project's own; no standard defines it.
#![tactic(auto)]

mod appending;
mod durable_machine;
mod laws;

pub use appending::append_request;
pub use durable_machine::DurableMachine;
pub use laws::crashes_keep_changes;
