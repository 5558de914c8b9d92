// The trait of logs of changes.
ghost use Rattle.std.specs.Prelude.{◌≡◌, ◌⊎◌, ◌≤◌, ◌<◌, ◌^◌, ◌-◌, ◌++◌, ◌∷◌, [], length};
ghost use Rattle.std.specs.Prelude.{true, false, IfOk, OnOk, OnErr, IsErrOf};
ghost use Rattle.change_log.specs.LogContents.{next_number, snapshot_of, with_change};
ghost use Rattle.change_log.specs.declared.limits.TheConstants.{MAX_CONTENT_BYTES};
ghost use Rattle.change_log.specs.LogStates.{LogState, HasCause, FailsToAppend, kept_contents};
ghost use Rattle.change_log.specs.LogHistories.{settled_moment, IsFoundBeforeOr, MayBeFound};
ghost use Rattle.change_log.specs.LogHistories.{HoldsAtEachMoment};
ghost use Rattle.change_log.specs.declared.change_log.AppendFault.{AppendFault};
ghost use Rattle.change_log.specs.declared.change_log.SnapshotFault.{SnapshotFault};

use std::alloc::{AllocError, Global};

/// Why a change wasn't appended.
#[derive(Clone, Copy, PartialEq, Eq)]
pub enum AppendFault {
    /// A call beneath failed, now, or a sync or a rename earlier. A restart may find the change.
    Failed,
    /// Memory ran out before anything was done.
    NoMemory,
}

impl From<AllocError> for AppendFault {
    ghost use Rattle.change_log.specs.declared.change_log.AppendFault.{AppendFault};

    ghost from_gives = { λ _ fault. fault ≡ AppendFault.NoMemory };

    fn from(_none: AllocError) -> AppendFault {
        AppendFault::NoMemory
    }
}

/// Why a snapshot wasn't written.
#[derive(Clone, Copy, PartialEq, Eq)]
pub enum SnapshotFault {
    /// Memory ran out before anything was done.
    NoMemory,
    /// The draft could not be written. It is gone, and the log is as it was.
    NotWritten,
    /// The snapshot could not be put in the log's place for certain: a restart finds the one or the
    /// other, and the log is stopped.
    NotSettled,
}

impl From<AllocError> for SnapshotFault {
    ghost use Rattle.change_log.specs.declared.change_log.SnapshotFault.{SnapshotFault};

    ghost from_gives = { λ _ fault. fault ≡ SnapshotFault.NoMemory };

    fn from(_none: AllocError) -> SnapshotFault {
        SnapshotFault::NoMemory
    }
}

/// A log of changes, each with the next number. It begins with a snapshot, in parts.
pub trait ChangeLog {
    /// The state that contracts see.
    ghost state: { Self → LogState };

    /// What holds before and after each call.
    ghost sound: { Self → Type 0 };

    /// The number that the next change gets. Does not allocate.
    fn next_number(&self) -> u64
        requires { sound self.now }
        ensures exact { result ≡ next_number (kept_contents (state self.now)) };

    /// Whether a sync or a rename has failed, so that every later call is refused.
    fn is_stopped(&self) -> bool
        requires { sound self.now }
        ensures exact { result ≡ (state self.now).is_stopped };

    /// Appends a change, and returns its number. At `Ok` every restart finds it.
    ///
    /// # Errors
    /// After `Failed` a restart finds it or doesn't, until the next call that returns `Ok`.
    fn append(&mut self, alloc: Global, change: &[u8]) -> Result<u64, AppendFault>
        requires is_sound { sound self.old }
        requires begun { (state self.old).is_begun ≡ true }
        requires short { length change.now ≤ MAX_CONTENT_BYTES }
        requires numbers_left { next_number (kept_contents (state self.old)) < 2 ^ 64 - 1 }
        ensures numbered { IfOk result
            (λ number. number ≡ next_number (kept_contents (state self.old))) }
        ensures appended { OnOk result ((state self.new).history.now
            ≡ settled_moment (with_change change.now (kept_contents (state self.old)))) }
        ensures not_appended { OnErr result (FailsToAppend change.now
            (state self.old).history.now (state self.new).history.now) }
        ensures no_memory { IsErrOf result AppendFault.NoMemory → self.new ≡ self.old }
        ensures cause { IsErrOf result AppendFault.Failed
            → HasCause (state self.old) (state self.new) }
        ensures no_fault { OnOk result ((state self.new).faults ≡ (state self.old).faults) }
        ensures refused { (state self.old).is_stopped ≡ true
            → IsErrOf result AppendFault.Failed × (self.new ≡ self.old) }
        // A crash at any moment of the call leaves what a restart found before, or the change.
        ensures any_moment { HoldsAtEachMoment
            (IsFoundBeforeOr (state self.old).history
            (with_change change.now (kept_contents (state self.old))))
            (state self.old).history (state self.new).history }
        ensures same_draft { (state self.new).history.draft ≡ (state self.old).history.draft }
        ensures has_same_draft { (state self.new).has_draft ≡ (state self.old).has_draft }
        ensures still_begun { (state self.new).is_begun ≡ true }
        ensures still_sound { sound self.new };

    /// Begins to write a snapshot, beside the log and in place of any that was begun.
    ///
    /// # Errors
    /// `NotWritten`; then none is begun.
    fn begin_snapshot(&mut self) -> Result<(), SnapshotFault>
        requires is_sound { sound self.old }
        ensures draft_begun { OnOk result ((state self.new).has_draft ≡ true) }
        ensures draft_empty { OnOk result ((state self.new).history.draft ≡ []) }
        ensures cause { OnErr result (HasCause (state self.old) (state self.new)) }
        ensures same_log { (state self.new).history.now ≡ (state self.old).history.now }
        ensures any_moment { HoldsAtEachMoment (MayBeFound (state self.old).history.now)
            (state self.old).history (state self.new).history }
        ensures same_phase { (state self.new).is_begun ≡ (state self.old).is_begun }
        ensures still_sound { sound self.new };

    /// Adds a part to the snapshot that is being written.
    ///
    /// # Errors
    /// `NoMemory`, and nothing was done; or `NotWritten`, and the snapshot is given up.
    fn add_part(&mut self, alloc: Global, part: &[u8]) -> Result<(), SnapshotFault>
        requires is_sound { sound self.old }
        requires draft_begun { (state self.old).has_draft ≡ true }
        requires short { length part.now ≤ MAX_CONTENT_BYTES }
        ensures still_a_draft { OnOk result ((state self.new).has_draft ≡ true) }
        ensures added { OnOk result ((state self.new).history.draft
            ≡ (state self.old).history.draft ++ part.now ∷ []) }
        ensures no_memory { IsErrOf result SnapshotFault.NoMemory → self.new ≡ self.old }
        ensures cause { IsErrOf result SnapshotFault.NoMemory
            ⊎ OnErr result (HasCause (state self.old) (state self.new)) }
        ensures same_log { (state self.new).history.now ≡ (state self.old).history.now }
        ensures any_moment { HoldsAtEachMoment (MayBeFound (state self.old).history.now)
            (state self.old).history (state self.new).history }
        ensures same_phase { (state self.new).is_begun ≡ (state self.old).is_begun }
        ensures still_sound { sound self.new };

    /// Replaces all that the log holds by the snapshot that was written. The next change gets the
    /// number `first`.
    ///
    /// # Errors
    /// `NoMemory`, and nothing was done; `NotWritten`, and the snapshot is given up; or
    /// `NotSettled`, and the log is stopped.
    fn finish_snapshot(&mut self, alloc: Global, first: u64) -> Result<(), SnapshotFault>
        requires is_sound { sound self.old }
        requires draft_begun { (state self.old).has_draft ≡ true }
        requires number_rises { next_number (kept_contents (state self.old)) ≤ first }
        ensures replaced { OnOk result ((state self.new).history.now
            ≡ settled_moment (snapshot_of (state self.old).history.draft first)) }
        ensures begun { OnOk result ((state self.new).is_begun ≡ true) }
        ensures no_memory { IsErrOf result SnapshotFault.NoMemory → self.new ≡ self.old }
        ensures not_written { IsErrOf result SnapshotFault.NotWritten
            → (state self.new).history.now ≡ (state self.old).history.now }
        ensures not_settled { IsErrOf result SnapshotFault.NotSettled
            → (state self.new).is_stopped ≡ true }
        ensures cause { IsErrOf result SnapshotFault.NoMemory
            ⊎ OnErr result (HasCause (state self.old) (state self.new)) }
        // A crash at any moment of the call leaves what a restart found before, or the snapshot.
        ensures any_moment { HoldsAtEachMoment
            (IsFoundBeforeOr (state self.old).history
            (snapshot_of (state self.old).history.draft first))
            (state self.old).history (state self.new).history }
        ensures same_phase { OnErr result ((state self.new).is_begun ≡ (state self.old).is_begun) }
        ensures still_sound { sound self.new };
}
