//! Laws of watched elements, each the contract of a function that does nothing.
ghost use Rattle.std.specs.Prelude.{◌≡◌, ℕ, List, Option, Some};
ghost use Rattle.xml_tree.specs.Tree.{Tree};
ghost use Rattle.doc_names.specs.Usages.{usage_of};
ghost use Rattle.doc_names.specs.declared.usages.Usage.{Usage};
ghost use Rattle.node_select.specs.Selection.{SelectsPath};
ghost use Rattle.node_select.specs.declared.selector.Selector.{Selector};
ghost use Rattle.edit_ops.specs.Notes.{Note};
ghost use Rattle.edit_rules.specs.KeyAddresses.{IsKeyAddressOf};
ghost use Rattle.store_core.specs.DocumentChanges.{find_document, stored_id};
ghost use Rattle.store_core.specs.Contents.{StoredDocument, Represents, StoreContents};
ghost use Rattle.store_core.specs.ValidStates.{IsValidState};
ghost use Rattle.store_core.specs.Since.{ReportedChanges, since};
ghost use Rattle.store_core.specs.State.{State};
ghost use Rattle.element_watch.specs.declared.element_states.ElementState.{ElementState};
ghost use Rattle.element_watch.specs.SelectionHistory.{SelectsElementSince};
ghost use Rattle.element_watch.specs.TouchedElements.{MovesUntouchedThrough};
ghost use Rattle.element_watch.specs.WatchedElements.{IsElementNotice, IsElementState};
ghost use Rattle.element_watch.specs.WatchedElements.{WatchedElement};
ghost use Rattle.element_watch.specs.WatchedElements.{silent_notice};

/// A law: change records move at most one path to a path.
pub fn one_place_passes_to_another()
    ensures places_are_one { (ns : List Note) (p q r : List ℕ) → MovesUntouchedThrough p ns r
        → MovesUntouchedThrough q ns r → p ≡ q }
{}

/// A law: a selector has exactly one state in a tree; and so, where change records since a version
/// are returned for a document, there is exactly one xcap-diff document about an element of it.
pub fn each_element_has_one_notice()
    ensures state_exists { (u : Option Usage) (t : Tree) (selector : Selector) (ns : List Note)
        → (state : ElementState) × IsElementState u t selector ns state }
    ensures states_are_one { (u : Option Usage) (t : Tree) (selector : Selector) (ns : List Note)
        (a b : ElementState) → IsElementState u t selector ns a → IsElementState u t selector ns b
        → a ≡ b }
    ensures notice_exists { (root : List ℕ) (watched : WatchedElement) (c : StoreContents)
        (tag : ℕ) (ns : List Note) → since c watched.doc tag ≡ ReportedChanges ns
        → (notice : Tree) × IsElementNotice root watched c ns notice }
    ensures notices_are_one { (root : List ℕ) (watched : WatchedElement) (c : StoreContents)
        (ns : List Note) (a b : Tree) → IsElementNotice root watched c ns a
        → IsElementNotice root watched c ns b → a ≡ b }
{}

/// A law: where a store represents a valid state and the xcap-diff document reports nothing of an
/// element that a key address selects, that address selects the same element, with all its
/// content, in the known version and in each later one, at a path that the changes since move to
/// the present one.
pub fn unreported_elements_are_the_same()
    ensures finds_same { (root : List ℕ) (watched : WatchedElement) (c : StoreContents)
        (m : State) (tag : ℕ) (ns : List Note) (held : StoredDocument) (u : Usage) (p : List ℕ)
        → IsValidState m → Represents c m → since c watched.doc tag ≡ ReportedChanges ns
        → find_document stored_id c.documents watched.doc ≡ Some held
        → usage_of watched.doc.auid ≡ Some u
        → IsElementNotice root watched c ns (silent_notice root)
        → SelectsPath watched.selector.steps held.tree p
        → IsKeyAddressOf u held.tree watched.selector p
        → SelectsElementSince m watched.doc tag watched.selector.steps p }
{}
