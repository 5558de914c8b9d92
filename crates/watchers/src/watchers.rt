//! Several watchers, notified as one.
ghost use Rattle.std.specs.Prelude.{◌≡◌, IsTrue, false, [], ◌∷◌, ◌++◌, List, option_to_list};
ghost use Rattle.watchers.specs.inner.RepeatedNotifications.{more_rounds, no_round};
ghost use Rattle.watchers.specs.Notifications.{RemainOrLeave, HasKeptChange, HasLeftAt};

use crate::notify_all::tell_all;
use crate::watcher::{Told, Watcher};
use edit_ops::Edit;

/// What is notified of changes, one after the other. E is what is reported of a change.
pub trait Watchers<E> {
    /// Relates them before and after such changes, reported in order.
    ghost keeps: { List E → Self → Self → Type 0 };

    /// Notifies them of a change.
    fn notify(&mut self, edit: &E)
        ensures notifies_change { keeps (edit.now ∷ []) self.old self.new };

    /// No change leaves them as they are.
    ghost none: { (w : Self) → keeps [] w w };

    /// Changes, and then others, are all these changes.
    ghost more: { (xs ys : List E) (a b c : Self) → keeps xs a b → keeps ys b c
        → keeps (xs ++ ys) a c };
}

/// Those still in the list afterwards, in order, kept every change; each of the others left at one
/// of them. Contracts see what the watchers that write lines wrote, and of those that left, what
/// they wrote until then.
impl Watchers<Edit> for Vec<Box<dyn Watcher>> {
    ghost keeps = { λ edits old new.
        RemainOrLeave (λ b. (Watcher-box b).watcher_state b.value) edits old.items new.items };

    ghost none = { λ w. no_round _ w.items };

    ghost more = { λ xs ys a b c. more_rounds _ xs ys a.items b.items c.items };

    fn notify(&mut self, edit: &Edit) {
        tell_all(self, edit);
    }
}

// Notifies a watcher of a change, and returns whether it kept it.
fn notify_one<B: Watcher>(watcher: &mut B, edit: &Edit) -> bool
    ensures true_has_kept { IsTrue result
        → HasKeptChange B.watcher_state edit.now watcher.old watcher.new }
    ensures false_has_left { result ≡ false
        → HasLeftAt B.watcher_state edit.now watcher.old watcher.new }
{
    watcher.told(&edit.doc, &edit.note) == Told::Kept
}

/// A single watcher, or none after it returned something other than `Kept`. It is notified as
/// several are, and does not allocate by itself.
impl<B: Watcher> Watchers<Edit> for Option<B> {
    ghost keeps = { λ edits old new.
        RemainOrLeave B.watcher_state edits (option_to_list old) (option_to_list new) };

    ghost none = { λ w. no_round _ (option_to_list w) };

    ghost more = { λ xs ys a b c.
        more_rounds _ xs ys (option_to_list a) (option_to_list b) (option_to_list c) };

    fn notify(&mut self, edit: &Edit) {
        let Some(watcher) = self else {
            return;
        };
        if !notify_one(watcher, edit) {
            *self = None;
        }
    }
}
