//! Laws of the parts of snapshots.
ghost use Rattle.std.specs.Prelude.{◌≡◌, ◌<◌, ◌^◌, ℕ, List, Some};
ghost use Rattle.std.specs.List.{AllByRecursion};
ghost use Rattle.store_core.specs.State.{State};
ghost use Rattle.store_core.specs.ValidStates.{IsValidState};
ghost use Rattle.state_snapshots.specs.States.{AreOfState};
ghost use Rattle.state_snapshots.specs.Readings.{document_of, start_of_bytes};
ghost use Rattle.state_snapshots.specs.Snapshots.{DocumentPart as ThePart, Start as TheStart};
ghost use Rattle.state_snapshots.specs.Snapshots.{document_part, snapshot_parts, start_part};
ghost use Rattle.state_snapshots.specs.Snapshots.{without_earlier};
ghost use Rattle.state_snapshots.specs.Names.{IsEncodableName};

/// A law: the start of a snapshot and the part of a document are read back, if the numbers have 64
/// bits and the names are texts that a block takes.
pub fn parts_are_read_back()
    ensures start { (start : TheStart) → start.count < 2 ^ 64 → start.next < 2 ^ 64
        → start_of_bytes (start_part start) ≡ Some start }
    ensures document { (part : ThePart) → part.tag < 2 ^ 64 → IsEncodableName part.id
        → document_of (document_part part) ≡ Some part }
{}

/// A law: the parts of a snapshot of a valid state are of that state without earlier versions, and
/// of no other under the same limits, which a snapshot doesn't keep.
pub fn snapshots_keep_states()
    ensures kept { (root : List ℕ) (m : State) → IsValidState m → m.next < 2 ^ 64
        → AllByRecursion (λ d. IsEncodableName d.id) m.documents
        → AreOfState root (snapshot_parts root m) (without_earlier m) }
    ensures one_state { (root : List ℕ) (parts : List (List ℕ)) (m n : State)
        → m.limits ≡ n.limits → AreOfState root parts m → AreOfState root parts n → m ≡ n }
{}
