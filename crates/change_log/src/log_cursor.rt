// Reading a log from the start.
ghost use Rattle.std.specs.Prelude.{◌≡◌, ◌∷◌, [], List, IfOk, OnErr};
ghost use Rattle.change_log.specs.LogItems.{Item, ReadsNextItem};

use std::alloc::AllocError;

/// What a log has next.
#[derive(Clone, Copy, PartialEq, Eq)]
pub enum LogItem {
    /// A part of the snapshot.
    Part,
    /// The end of the snapshot, and the number of the first change.
    First(u64),
    /// A change with its number.
    Change(u64),
    /// What no log has.
    Unknown,
    /// There is nothing more.
    End,
}

/// A place in a log that is read from the start.
pub trait LogCursor {
    /// The items that are left.
    ghost left: { Self → List Item };

    /// Reads the next item. The bytes of a part or a change replace those in `bytes`.
    ///
    /// # Errors
    /// When out of memory; then the same item is read again.
    fn read(&mut self, bytes: &mut Vec<u8>) -> Result<LogItem, AllocError>
        ensures exact { IfOk result (λ item. ReadsNextItem item bytes.new.items (left self.old)
            (left self.new)) }
        ensures err_unchanged { OnErr result (self.new ≡ self.old) };
}
