//! Laws of the definitions, each the contract of a function that does nothing.
ghost use Rattle.std.specs.Prelude.{◌≡◌, ℕ, List, Result};
ghost use Rattle.doc_names.specs.declared.doc_id.DocId.{DocId};
ghost use Rattle.store_core.specs.Contents.{StoreContents};
ghost use Rattle.list_resolve.specs.declared.fault.FlatFault.{FlatFault};
ghost use Rattle.list_resolve.specs.FlatLists.{IsFlatList};

/// A law: under each root each service address has exactly one result in each document of the
/// contents: its flat list, or why there is none.
pub fn services_have_one_flat_list()
    ensures exists_one { (c : StoreContents) (root : List ℕ) (doc : DocId) (uri : List ℕ)
        → (answer : Result (List (List ℕ)) FlatFault) × IsFlatList c root doc uri answer }
    ensures at_most_one { (c : StoreContents) (root : List ℕ) (doc : DocId) (uri : List ℕ)
        (a b : Result (List (List ℕ)) FlatFault)
        → IsFlatList c root doc uri a → IsFlatList c root doc uri b → a ≡ b }
{}
