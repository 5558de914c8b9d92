//! Notifying watchers of changes.
ghost use Rattle.std.specs.Prelude.{◌≡◌, IsTrue, false, [], ◌∷◌};
ghost use Rattle.watchers.specs.Notifications.{RemainOrLeave, AreNotified, HasKeptChange};
ghost use Rattle.watchers.specs.Notifications.{HasLeftAt};

use crate::watcher::{Told, Watcher};
use edit_ops::Edit;

// Notifies a watcher of a change, and returns whether it kept it.
fn notify(watcher: &mut Box<dyn Watcher>, edit: &Edit) -> bool
    ensures true_has_kept { IsTrue result
        → HasKeptChange watcher_state edit.now watcher.old watcher.new }
    ensures false_has_left { result ≡ false
        → HasLeftAt watcher_state edit.now watcher.old watcher.new }
{
    watcher.told(&edit.doc, &edit.note) == Told::Kept
}

/// Notifies each watcher of a change, in order, and returns how many left: exactly those that
/// returned something other than `Kept` leave the list, and the others keep their order. Does not
/// allocate by itself.
pub fn tell_all(watchers: &mut Vec<Box<dyn Watcher>>, edit: &Edit) -> usize
    ensures notifies_edit { AreNotified watcher_state edit.now watchers.old.items
        watchers.new.items result }
    ensures kept_by_watchers { RemainOrLeave watcher_state (edit.now ∷ [])
        watchers.old.items watchers.new.items }
{
    let mut kept = 0;
    let mut left = 0;
    'watchers: while kept < watchers.len() {
        let watcher = &mut watchers[kept];
        if notify(watcher, edit) {
            kept += 1;
        } else {
            watchers.remove(kept);
            left += 1;
        }
    }
    left
}
