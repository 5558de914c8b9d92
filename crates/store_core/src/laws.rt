//! Laws of the definitions: a store's contents follow every change of the state that they
//! represent, and a valid state stays valid.
ghost use Rattle.std.specs.Prelude.{◌≡◌, ℕ, ◌<◌, ◌≤◌, List, Ok};
ghost use Rattle.xml_tree.specs.Tree.{Tree};
ghost use Rattle.store_core.specs.State.{State, first_state, first_state_within};
ghost use Rattle.store_core.specs.declared.limits.Limits.{Limits};
ghost use Rattle.store_core.specs.Contents.{HasDocumentsOf, Represents, StoreContents};
ghost use Rattle.store_core.specs.Indexes.{AreIndexTrees};
ghost use Rattle.store_core.specs.ValidStates.{AreCountable, IsValidState};
ghost use Rattle.store_core.specs.DocumentChanges.{state_after, change_result, contents_after};
ghost use Rattle.store_core.specs.DocumentChanges.{find_document};
ghost use Rattle.store_core.specs.DocumentChanges.{stored_id, note_for};
ghost use Rattle.store_core.specs.AcceptableChanges.{IsAcceptable};
ghost use Rattle.doc_names.specs.declared.doc_id.DocId.{DocId};
ghost use Rattle.edit_ops.specs.Notes.{Note};
ghost use Rattle.store_core.specs.ChangePreconditions.{MayRequest};
ghost use Rattle.edit_ops.specs.declared.change.Change.{Change};

/// A law: where contents represent a state, or have its documents, the contents after a change
/// represent the state after that change, or have its documents.
pub fn stores_stand_after_each_change()
    ensures represents_after { (c : StoreContents) (m : State) (id : DocId) (change : Change)
        → Represents c m → Represents (contents_after c id change) (state_after m id change) }
    ensures has_documents_after { (c : StoreContents) (m : State) (id : DocId) (change : Change)
        → HasDocumentsOf c m
        → HasDocumentsOf (contents_after c id change) (state_after m id change) }
{}

/// A law: a valid state is valid after each change that suits it.
pub fn states_stay_valid_after_each_change()
    ensures valid_after { (m : State) (id : DocId) (change : Change)
        → IsValidState m → IsAcceptable m id change → IsValidState (state_after m id change) }
{}

/// A law: the state without documents is valid, where the first number is 1 or more and the limits
/// are countable.
pub fn the_first_state_is_valid()
    ensures first_state_valid { (first : ℕ) → 1 ≤ first → IsValidState (first_state first) }
    ensures valid_within_limits { (limits : Limits) (first : ℕ) → 1 ≤ first
        → AreCountable limits → IsValidState (first_state_within limits first) }
{}

/// A law: where contents represent a valid state, a change that the store makes suits the state.
pub fn changes_that_are_made_suit_the_state()
    ensures made_suits { (c : StoreContents) (m : State) (id : DocId) (change : Change)
        (made : Note × StoreContents) → Represents c m → IsValidState m → MayRequest c id change
        → change_result c id change ≡ Ok made → IsAcceptable m id change }
{}

/// A law: where contents represent a valid state and the store makes a change that may be asked
/// for, the new contents represent the next state, which is valid.
pub fn changes_that_are_made_keep_store_and_state()
    ensures represents_valid_next { (c : StoreContents) (m : State) (id : DocId) (change : Change)
        (note : Note) (next : StoreContents) → Represents c m → IsValidState m
        → MayRequest c id change
        → change_result c id change ≡ Ok (note, next) → Represents next (state_after m id change)
        × IsValidState (state_after m id change) }
{}

/// A law: where contents represent a valid state, the store makes each change that suits the
/// state, as long as the next number fits 64 bits.
pub fn changes_that_suit_the_state_are_made()
    ensures suited_is_made { (c : StoreContents) (m : State) (id : DocId) (change : Change)
        → Represents c m → IsValidState m
        → IsAcceptable m id change → m.next < 18446744073709551616
        → change_result c id change
        ≡ Ok (
          note_for c id change (find_document stored_id c.documents id),
          contents_after c id change,
        ) }
{}

/// A law: the contents have exactly one list of the trees that the index of services lists.
pub fn the_index_has_one_list()
    ensures list_exists { (c : StoreContents) → (trees : List Tree) × AreIndexTrees c trees }
    ensures lists_are_one { (c : StoreContents) (trees others : List Tree) → AreIndexTrees c trees
        → AreIndexTrees c others → trees ≡ others }
{}
