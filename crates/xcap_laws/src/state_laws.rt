//! Laws of the machine's states, each the contract of a function that does nothing.
ghost use Rattle.std.specs.Prelude.{ℕ, ◌<◌, ◌≤◌, List};
ghost use Rattle.xml_tree.specs.Tree.{Tree};
ghost use Rattle.store_core.specs.Contents.{contents_of};
ghost use Rattle.store_core.specs.State.{State, default_limits, first_state, first_state_within};
ghost use Rattle.store_core.specs.declared.limits.Limits.{Limits};
ghost use Rattle.store_core.specs.ValidStates.{AreCountable, IsValidState};
ghost use Rattle.xcap_machine.specs.Resources.{IsIndexOfServices};
ghost use Rattle.xcap_laws.specs.DocumentLimits.{KeepsLimits};
ghost use Rattle.xcap_laws.specs.MachineRuns.{ReachesBySteps};
ghost use Rattle.xcap_laws.specs.ServiceIndexes.{IsConsistentIndex};

/// A law: every state of a run from a new server, whose first change gets a number of 64 bits,
/// keeps the limits that it was made with, by default 1,000 documents, 33,554,432 bytes of all
/// present versions together, and none for a home; and those of documents: of each version 262,144
/// bytes and 64 levels; tags from 1 to 2^64 - 1; and of each document the newest 64 change records
/// at most, of 65,536 bytes together unless it is one.
pub fn limits_hold_in_every_state()
    ensures limits_hold { (root : List ℕ) (first : ℕ) (m : State) → 1 ≤ first
        → first < 18446744073709551616 → ReachesBySteps root (first_state first) m
        → KeepsLimits default_limits m }
    ensures given_limits_hold { (root : List ℕ) (limits : Limits) (first : ℕ) (m : State)
        → 1 ≤ first → first < 18446744073709551616 → AreCountable limits
        → ReachesBySteps root (first_state_within limits first) m → KeepsLimits limits m }
{}

/// A law: in a valid state the index of services (RFC 4826, section 4.4.7) has exactly the
/// services of the users' rls-services documents with the name `index`, and each address once.
pub fn the_index_is_consistent()
    ensures is_consistent { (m : State) → IsValidState m → (root : Tree)
        → IsIndexOfServices (contents_of m) root → IsConsistentIndex (contents_of m) root }
{}
