//! Laws of flat lists, each the contract of a function that does nothing.
ghost use Rattle.std.specs.Prelude.{ℕ, List, Ok};
ghost use Rattle.doc_names.specs.declared.doc_id.DocId.{DocId};
ghost use Rattle.store_core.specs.Contents.{StoreContents};
ghost use Rattle.store_core.specs.ValidStates.{AreDistinct};
ghost use Rattle.list_resolve.specs.FlatLists.{IsFlatList};
ghost use Rattle.xcap_laws.specs.ReachedAddresses.{IsMemberOf, LeadsToAddress};

/// A law: no address is twice in the flat list of a service, and each address is in an entry that
/// the service, by its own list or by references to stored documents of its user, leads to.
pub fn flat_lists_are_sound()
    ensures no_repetition { (c : StoreContents) (root : List ℕ) (doc : DocId) (service : List ℕ)
        (uris : List (List ℕ)) → IsFlatList c root doc service (Ok uris) → AreDistinct uris }
    ensures is_in_entry { (c : StoreContents) (root : List ℕ) (doc : DocId)
        (service : List ℕ) (uris : List (List ℕ)) (uri : List ℕ)
        → IsFlatList c root doc service (Ok uris) → IsMemberOf uri uris
        → LeadsToAddress c root doc service uri }
{}
