//! Laws of changes, each the contract of a function that does nothing: what has to be checked of
//! a new document is checked beside the change.
ghost use Rattle.std.specs.Prelude.{◌≡◌, ◌↔◌, ◌≤◌, ℕ, suc, IsTrue, List, [], ◌∷◌, ◌++◌, length};
ghost use Rattle.std.specs.Prelude.{remove, slice_get, Option, Some};
ghost use Rattle.std.specs.Option.{ForSome};
ghost use Rattle.node_select.specs.InsertionPoints.{IsLawfulInsertion};
ghost use Rattle.doc_names.specs.declared.usages.Usage.{Usage};
ghost use Rattle.xml_tree.specs.Tree.{Tree, at, child_elements_of};
ghost use Rattle.xml_tree.specs.Edits.{change_at, put_in, put_over, take_in};
ghost use Rattle.xml_tree.specs.TreeScopes.{scope_at};
ghost use Rattle.xml_names.specs.declared.names.Attr.{Attr};
ghost use Rattle.xml_tree.specs.declared.tree.Node.TheVariants.{Elem};
ghost use Rattle.node_select.specs.Selection.{SelectsPath, is_named, is_tested, step_tests};
ghost use Rattle.node_select.specs.declared.selector.Step.{Step};
ghost use Rattle.usage_docs.specs.declared.schema_table.ElementKind.{ElementKind};
ghost use Rattle.usage_docs.specs.declared.key_repeats.Clash.{Clash};
ghost use Rattle.usage_docs.specs.readers.ContentParts.{may_follow};
ghost use Rattle.usage_docs.specs.Validity.{IsValidDocument, IsValidChild};
ghost use Rattle.usage_docs.specs.readers.NeighbourParts.{FitsGapByParts, part_after, part_before};
ghost use Rattle.usage_docs.specs.readers.NeighbourParts.{part_of_child};
ghost use Rattle.usage_docs.specs.ReferenceForms.{MeetsConstraints, IsFormedNode};
ghost use Rattle.usage_docs.specs.UniqueKeys.{IsFirstClash, HasUniqueKeys};
ghost use Rattle.usage_docs.specs.readers.SiblingElements.{IsFirstInOrder};
ghost use Rattle.edit_rules.specs.LawfulInsertions.{KeepsStartTag, IsLawfulGap};
ghost use Rattle.edit_rules.specs.LawfulInsertions.{IsLawfulReplacement};
ghost use Rattle.usage_docs.specs.ElementKinds.{kind_at};
ghost use Rattle.edit_rules.specs.Removals.{NeighboursMayMeet, StillSelectsChild};
ghost use Rattle.edit_rules.specs.NewElements.{ClashesBeside, HasNoDuplicate, HasUniqueKeysInside};
ghost use Rattle.edit_rules.specs.StartTags.{HasFormedAttrs, AreAttrsAllowed, start_tag_with};
ghost use Rattle.edit_rules.specs.StartTags.{with_attrs};

/// A change inside the element that steps select, which leaves its name, declarations and
/// attributes, doesn't change that they select it.
pub fn selection_stays_above_a_change()
    ensures selected_still { (first : Step) (steps : List Step) (t : Tree) (q : List ℕ)
        (f : Tree → Tree)
        → KeepsStartTag f → SelectsPath (first ∷ steps) t q
        → SelectsPath (first ∷ steps) (change_at q f t) q }
{}

/// Where the steps before the last one select the parent, the last step decides: a gap is lawful
/// exactly when that step then selects the new element among the parent's children, and an
/// element may replace a selected one exactly when it passes that step's tests.
pub fn lawful_by_the_last_step()
    ensures new_child { (first : Step) (steps : List Step) (step : Step) (t parent new : Tree)
        (q : List ℕ) (gap : ℕ)
        → SelectsPath (first ∷ steps) t q → at q t ≡ Some parent
        → gap ≤ length (child_elements_of parent)
        → IsLawfulGap (first ∷ (steps ++ step ∷ [])) t new q gap
        ↔ IsLawfulInsertion (step_tests (scope_at q t) step) (child_elements_of parent) new gap }
    ensures replaced_child { (first : Step) (steps : List Step) (step : Step) (t new : Tree)
        (q : List ℕ) (i : ℕ)
        → SelectsPath (first ∷ (steps ++ step ∷ [])) t (q ++ i ∷ [])
        → IsLawfulReplacement (first ∷ (steps ++ step ∷ [])) t new (q ++ i ∷ [])
        ↔ (IsTrue (is_named (scope_at q t) step new) × IsTrue (is_tested (scope_at q t) step new)) }
{}

/// A valid document with a new element in a gap is valid exactly when the element is valid by
/// itself and may come between its two neighbours, by the content model of its parent's kind;
/// likewise with an element replaced by another, and with an element removed where the two
/// neighbours may meet. A foreign parent, or a parent in a foreign element, has no kind and takes
/// everything.
pub fn validity_beside_a_change()
    ensures on_insertion { (u : Usage) (t parent new : Tree) (q : List ℕ) (gap : ℕ)
        → at q t ≡ Some parent → gap ≤ length (child_elements_of parent) → IsValidDocument u t
        → IsValidDocument u (put_in q gap new t)
        ↔ ForSome (kind_at u t q)
        (λ kind. FitsGapByParts kind (scope_at q t) parent.content new gap) }
    ensures on_replacement { (u : Usage) (t parent child_element new : Tree) (q : List ℕ) (i : ℕ)
        → at q t ≡ Some parent → slice_get (child_elements_of parent) i ≡ Some child_element
        → IsValidDocument u t
        → IsValidDocument u (put_over (q ++ i ∷ []) new t)
        ↔ ForSome (kind_at u t q) (λ kind. IsValidChild kind (scope_at q t) new
        × IsTrue (may_follow kind (part_before kind (scope_at q t) 0 i parent.content)
        (part_of_child kind (scope_at q t) new))
        × IsTrue (may_follow kind (part_of_child kind (scope_at q t) new)
        (part_after kind (scope_at q t) (suc i) parent.content))) }
    ensures on_removal { (u : Usage) (t parent child_element : Tree) (q : List ℕ) (i : ℕ)
        → at q t ≡ Some parent → slice_get (child_elements_of parent) i ≡ Some child_element
        → IsValidDocument u t
        → IsValidDocument u (take_in q i t)
        ↔ NeighboursMayMeet (kind_at u t q) (scope_at q t) parent.content i }
{}

/// A document with unique keys and a new element has unique keys exactly when the element has
/// them by itself and no sibling of its kind has its key; and the first clash is the first beside
/// the change. An element that replaces another has the other children as its siblings. Removing
/// an element keeps keys unique.
pub fn clashes_beside_a_change()
    ensures on_insertion { (u : Usage) (t parent new : Tree) (q : List ℕ) (gap : ℕ)
        → at q t ≡ Some parent → gap ≤ length (child_elements_of parent) → HasUniqueKeys u t
        → HasUniqueKeys u (put_in q gap new t)
        ↔ ForSome (kind_at u t q)
        (λ kind. HasNoDuplicate
        (record { kind = kind; scope = scope_at q t; elements = child_elements_of parent }) new
        × HasUniqueKeysInside kind (scope_at q t) new) }
    ensures insertion_first { (u : Usage) (t parent new : Tree) (q : List ℕ) (gap : ℕ)
        (kind : ElementKind) (found : Option Clash)
        → at q t ≡ Some parent → gap ≤ length (child_elements_of parent) → HasUniqueKeys u t
        → kind_at u t q ≡ Some kind
        → IsFirstInOrder (ClashesBeside
        (record { kind = kind; scope = scope_at q t; elements = child_elements_of parent }) new
        gap) q found
        ↔ IsFirstClash u (put_in q gap new t) found }
    ensures on_replacement { (u : Usage) (t parent child_element new : Tree) (q : List ℕ) (i : ℕ)
        → at q t ≡ Some parent → slice_get (child_elements_of parent) i ≡ Some child_element
        → HasUniqueKeys u t
        → HasUniqueKeys u (put_over (q ++ i ∷ []) new t)
        ↔ ForSome (kind_at u t q)
        (λ kind. HasNoDuplicate
        (record {
          kind = kind;
          scope = scope_at q t;
          elements = remove (child_elements_of parent) i;
        })
        new
        × HasUniqueKeysInside kind (scope_at q t) new) }
    ensures replacement_first { (u : Usage) (t parent child_element new : Tree) (q : List ℕ) (i : ℕ)
        (kind : ElementKind) (found : Option Clash)
        → at q t ≡ Some parent → slice_get (child_elements_of parent) i ≡ Some child_element
        → HasUniqueKeys u t → kind_at u t q ≡ Some kind
        → IsFirstInOrder (ClashesBeside
        (record {
          kind = kind;
          scope = scope_at q t;
          elements = remove (child_elements_of parent) i;
        })
        new i) q found
        ↔ IsFirstClash u (put_over (q ++ i ∷ []) new t) found }
    ensures on_removal { (u : Usage) (t parent : Tree) (q : List ℕ) (i : ℕ) → at q t ≡ Some parent
        → HasUniqueKeys u t → HasUniqueKeys u (take_in q i t) }
{}

/// A document within the constraints, with an element inserted or replaced, is within them
/// exactly when the new element is, by its parent's kind. Removing an element keeps a document
/// within them.
pub fn constraints_beside_a_change()
    ensures on_insertion { (u : Usage) (t parent new : Tree) (q : List ℕ) (gap : ℕ)
        → at q t ≡ Some parent → gap ≤ length (child_elements_of parent) → MeetsConstraints u t
        → MeetsConstraints u (put_in q gap new t)
        ↔ ForSome (kind_at u t q) (λ kind. IsFormedNode kind (scope_at q t) (Elem new)) }
    ensures on_replacement { (u : Usage) (t parent child_element new : Tree) (q : List ℕ) (i : ℕ)
        → at q t ≡ Some parent → slice_get (child_elements_of parent) i ≡ Some child_element
        → MeetsConstraints u t
        → MeetsConstraints u (put_over (q ++ i ∷ []) new t)
        ↔ ForSome (kind_at u t q) (λ kind. IsFormedNode kind (scope_at q t) (Elem new)) }
    ensures on_removal { (u : Usage) (t parent : Tree) (q : List ℕ) (i : ℕ) → at q t ≡ Some parent
        → MeetsConstraints u t → MeetsConstraints u (take_in q i t) }
{}

/// Once a child is removed, the steps select something exactly when the last step selects
/// something among the parent's other children.
pub fn selection_after_a_removal()
    ensures last_step_decides { (first : Step) (steps : List Step) (step : Step) (t parent : Tree)
        (q : List ℕ) (j : ℕ)
        → SelectsPath (first ∷ steps) t q → at q t ≡ Some parent
        → ((p : List ℕ) × SelectsPath (first ∷ (steps ++ step ∷ [])) (take_in q j t) p)
        ↔ StillSelectsChild (scope_at q t) step (child_elements_of parent) j }
{}

/// An element below the root with other attributes: the document is valid, and within the
/// constraints, exactly when its start tag passes; the first clash is the clash of its tag among
/// the other children.
pub fn new_attributes_beside_a_change()
    ensures element_stays_valid { (u : Usage) (t parent child_element : Tree) (q : List ℕ) (i : ℕ)
        (attrs : List Attr) → at q t ≡ Some parent
        → slice_get (child_elements_of parent) i ≡ Some child_element
        → at (q ++ i ∷ []) t ≡ Some child_element → IsValidDocument u t
        → IsValidDocument u (put_over (q ++ i ∷ []) (with_attrs attrs child_element) t)
        ↔ AreAttrsAllowed (kind_at u t q) (scope_at q t) (start_tag_with attrs child_element) }
    ensures references_stay_formed { (u : Usage) (t parent child_element : Tree) (q : List ℕ)
        (i : ℕ) (attrs : List Attr) → at q t ≡ Some parent
        → slice_get (child_elements_of parent) i ≡ Some child_element
        → at (q ++ i ∷ []) t ≡ Some child_element → MeetsConstraints u t
        → MeetsConstraints u (put_over (q ++ i ∷ []) (with_attrs attrs child_element) t)
        ↔ HasFormedAttrs (kind_at u t q) (scope_at q t) (start_tag_with attrs child_element) }
    ensures first_clash { (u : Usage) (t parent child_element : Tree) (q : List ℕ) (i : ℕ)
        (attrs : List Attr) (kind : ElementKind) (found : Option Clash)
        → at q t ≡ Some parent → slice_get (child_elements_of parent) i ≡ Some child_element
        → at (q ++ i ∷ []) t ≡ Some child_element → HasUniqueKeys u t → kind_at u t q ≡ Some kind
        → IsFirstInOrder (ClashesBeside
        (record {
          kind = kind;
          scope = scope_at q t;
          elements = remove (child_elements_of parent) i;
        })
        (start_tag_with attrs child_element) i) q found
        ↔ IsFirstClash u (put_over (q ++ i ∷ []) (with_attrs attrs child_element) t) found }
{}
