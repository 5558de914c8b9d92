//! What planned changes make, each law the contract of a function that does nothing: the address
//! then selects exactly what was put, a deleted node isn't found, and a second equal PUT changes
//! nothing (RFC 4825, sections 8.2.3, 8.2.4 and 8.4; RFC 9110, section 9.2.2).
ghost use Rattle.std.specs.Prelude.{◌≡◌, ◌≤◌, ℕ, List, [], None, Some, Result, Ok, IsTrue};
ghost use Rattle.doc_names.specs.declared.usages.Usage.{Usage};
ghost use Rattle.xml_names.specs.declared.limits.TheConstants.{MAX_LEVELS};
ghost use Rattle.xml_names.specs.Characters.{has_only_chars};
ghost use Rattle.xml_tree.specs.Proper.{IsProperTree};
ghost use Rattle.xml_tree.specs.Tree.{Tree, at, height};
ghost use Rattle.xml_names.specs.declared.names.Decl.{Decl};
ghost use Rattle.node_select.specs.Faults.{IsSelectorAnswer};
ghost use Rattle.node_select.specs.Selection.{FindsNode, SelectsPath};
ghost use Rattle.node_select.specs.declared.selector.End.{End};
ghost use Rattle.node_select.specs.declared.selector.End.TheVariants as ends;
ghost use Rattle.node_select.specs.declared.selector.Selector.{Selector};
ghost use Rattle.usage_docs.specs.Validation.{HasFirstFault};
ghost use Rattle.edit_ops.specs.Changes.{edited};
ghost use Rattle.edit_ops.specs.declared.change.Change.{Change};
ghost use Rattle.edit_ops.specs.declared.change.Change.TheVariants.{Replace};
ghost use Rattle.edit_rules.specs.declared.spot.Spot.{Spot};
ghost use Rattle.edit_rules.specs.declared.spot.Spot.TheVariants.{Over, Value};
ghost use Rattle.edit_rules.specs.declared.spot.NoParent.{NoParent};
ghost use Rattle.edit_rules.specs.declared.edit_refusal.EditRefusal.{EditRefusal};
ghost use Rattle.edit_rules.specs.AttributePuts.{FindsValue, IsAttrPlan, IsWritable};
ghost use Rattle.edit_rules.specs.EditContexts.{PutContext};
ghost use Rattle.edit_rules.specs.Deletions.{IsDeletePlan};
ghost use Rattle.edit_rules.specs.CheckedChanges.{LeavesProperTree};
ghost use Rattle.edit_rules.specs.ElementPuts.{FitsWithinLevelsAt, IsProperAt, IsPutPlan};
ghost use Rattle.edit_rules.specs.Spots.{IsSpot, IsSpotOf};

/// After the planned PUT of an element the address selects exactly it, and the document has no
/// fault.
pub fn what_was_put_is_selected()
    ensures put_is_selected { (context : PutContext) (spot : Spot) (e : Tree) (change : Change)
        → IsPutPlan context spot e (Ok change)
        → (p : List ℕ) × SelectsPath context.steps (edited context.document change) p
        × (at p (edited context.document change) ≡ Some e) }
    ensures without_fault { (context : PutContext) (spot : Spot) (e : Tree) (change : Change)
        → IsPutPlan context spot e (Ok change)
        → HasFirstFault context.usage (edited context.document change) None }
{}

/// After the planned PUT of an attribute the address finds it with the value, and the document has
/// no fault.
pub fn what_was_written_is_found()
    ensures value_found { (context : PutContext) (uri local p value : List ℕ) (change : Change)
        → IsAttrPlan context (ends.Attribute uri local) p value (Ok change)
        → FindsValue context.steps (record { path = p; uri = uri; local = local })
        (edited context.document change) value }
    ensures without_fault { (context : PutContext) (uri local p value : List ℕ) (change : Change)
        → IsAttrPlan context (ends.Attribute uri local) p value (Ok change)
        → HasFirstFault context.usage (edited context.document change) None }
{}

/// After the planned DELETE the address finds nothing, and the document has no fault.
pub fn what_was_deleted_is_not_found()
    ensures not_found { (u : Usage) (t : Tree) (selector : Selector) (change : Change)
        → IsDeletePlan u t selector (Ok change) → FindsNode (edited t change) selector → ⊥ }
    ensures without_fault { (u : Usage) (t : Tree) (selector : Selector) (change : Change)
        → IsDeletePlan u t selector (Ok change) → HasFirstFault u (edited t change) None }
{}

/// Where an element was put, the address means its place, a PUT of the same element is planned as
/// its replacement by an equal one, and this leaves the document unchanged.
pub fn an_element_is_put_twice()
    ensures same_plan { (u : Usage) (t : Tree) (selector : Selector) (spot : Spot) (e : Tree)
        (change : Change) → selector.end ≡ ends.Element
        → IsPutPlan (record { usage = u; document = t; steps = selector.steps }) spot e (Ok change)
        → (p : List ℕ) × IsSpotOf (edited t change) selector (Over p)
        × IsPutPlan
        (record { usage = u; document = edited t change; steps = selector.steps }) (Over p) e
        (Ok (Replace p e))
        × (edited (edited t change) (Replace p e) ≡ edited t change) }
{}

/// Where an attribute was written, the address means the same place, a PUT of the same value is
/// planned as the same change, and this leaves the document unchanged.
pub fn an_attribute_is_put_twice()
    ensures same_plan { (u : Usage) (t : Tree) (selector : Selector) (uri local p value : List ℕ)
        (change : Change) → selector.end ≡ ends.Attribute uri local
        → IsAttrPlan (record { usage = u; document = t; steps = selector.steps })
        (ends.Attribute uri local) p value (Ok change)
        → IsSpotOf (edited t change) selector (Value p)
        × IsAttrPlan (record { usage = u; document = edited t change; steps = selector.steps })
        (ends.Attribute uri local) p value (Ok change)
        × (edited (edited t change) change ≡ edited t change) }
{}

/// The rules allow one result each: one edit target, and one plan of a PUT and of a DELETE.
pub fn each_plan_has_one_answer()
    ensures for_spot { (t : Tree) (selector : Selector) (r s : Result Spot NoParent)
        → IsSpot t selector r → IsSpot t selector s → r ≡ s }
    ensures for_element { (context : PutContext) (spot : Spot) (e : Tree)
        (r s : Result Change EditRefusal) → IsPutPlan context spot e r
        → IsPutPlan context spot e s → r ≡ s }
    ensures for_attribute { (context : PutContext) (end : End) (p value : List ℕ)
        (r s : Result Change EditRefusal) → IsAttrPlan context end p value r
        → IsAttrPlan context end p value s → r ≡ s }
    ensures for_deletion { (u : Usage) (t : Tree) (selector : Selector)
        (r s : Result Change EditRefusal) → IsDeletePlan u t selector r
        → IsDeletePlan u t selector s → r ≡ s }
{}

/// The rules have a result for each tree: each address has an edit target or none, each PUT at an
/// edit target has a plan, and so has each DELETE of what isn't read-only.
pub fn each_plan_has_an_answer()
    ensures for_spot { (t : Tree) (selector : Selector) → (r : Result Spot NoParent)
        × IsSpot t selector r }
    ensures for_element { (u : Usage) (t : Tree) (selector : Selector) (spot : Spot) (e : Tree)
        → selector.end ≡ ends.Element → IsSpotOf t selector spot → (r : Result Change EditRefusal)
        × IsPutPlan (record { usage = u; document = t; steps = selector.steps }) spot e r }
    ensures for_attribute { (u : Usage) (t : Tree) (selector : Selector) (p value : List ℕ)
        → IsSpotOf t selector (Value p) → (r : Result Change EditRefusal)
        × IsAttrPlan (record { usage = u; document = t; steps = selector.steps }) selector.end p
        value r }
    ensures for_deletion { (u : Usage) (t : Tree) (selector : Selector)
        → (selector.end ≡ ends.Namespaces → ⊥) → (r : Result Change EditRefusal)
        × IsDeletePlan u t selector r }
{}

/// A planned change fits the document, and leaves it proper and within `MAX_LEVELS` levels, where
/// what is put is proper in the scope of its place and within the levels that are left there.
pub fn planned_changes_leave_proper_documents()
    ensures for_element { (u : Usage) (t : Tree) (selector : Selector) (spot : Spot) (e : Tree)
        (change : Change)
        → IsPutPlan (record { usage = u; document = t; steps = selector.steps }) spot e (Ok change)
        → IsSpotOf t selector spot → IsProperTree [] t → height t ≤ MAX_LEVELS → IsProperAt t spot e
        → FitsWithinLevelsAt spot e
        → LeavesProperTree t change }
    ensures for_attribute { (context : PutContext) (uri local p value : List ℕ) (change : Change)
        → IsAttrPlan context (ends.Attribute uri local) p value (Ok change)
        → IsProperTree [] context.document → height context.document ≤ MAX_LEVELS
        → IsWritable uri local → IsTrue (has_only_chars value)
        → LeavesProperTree context.document change }
    ensures for_deletion { (u : Usage) (t : Tree) (selector : Selector) (change : Change)
        → IsDeletePlan u t selector (Ok change) → IsProperTree [] t → height t ≤ MAX_LEVELS
        → LeavesProperTree t change }
{}

/// The attribute that a selector ends in may be written.
pub fn attributes_of_selectors_may_be_written()
    ensures may_be_written { (bindings : List Decl) (default text : List ℕ) (selector : Selector)
        (uri local : List ℕ) → IsSelectorAnswer bindings default text (Ok selector)
        → selector.end ≡ ends.Attribute uri local
        → IsWritable uri local }
{}
