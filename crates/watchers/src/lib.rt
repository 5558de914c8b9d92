//! Watchers, which are notified of each accepted change: `Recorder`, `Mirror` and `Audit`.
//! `Recorder` keeps every change, `Mirror` every document as it is now, `Audit` writes a line
//! about each. Upward: each watcher is notified of each change once and in order, and exactly
//! those that don't return `Kept` leave (`AreNotified`, `RemainOrLeave`). The model is this
//! project's own; no standard defines it.
//! A mirror drops a document rather than hold a wrong tree.
#![tactic(auto)]

mod audit;
mod change_fits;
mod line;
mod mirror;
mod mirror_entry;
mod notify_all;
mod recorder;
mod watcher;
mod watchers;

pub use audit::Audit;
pub use mirror::Mirror;
pub use notify_all::tell_all;
pub use recorder::Recorder;
pub use watcher::{Told, Watcher};
pub use watchers::Watchers;
