//! Laws of reading, each the contract of a function that does nothing.
ghost use Rattle.std.specs.Prelude.{◌≡◌, ℕ, List, Option, Result};
ghost use Rattle.xml_names.specs.declared.names.Decl.{Decl};
ghost use Rattle.node_select.specs.Faults.{IsPatchFormAnswer, IsPatchSelectorAnswer};
ghost use Rattle.node_select.specs.Faults.{IsSelectorAnswer};
ghost use Rattle.node_select.specs.declared.fault.SelectorFault.{SelectorFault};
ghost use Rattle.node_select.specs.declared.selector.PatchForm.{PatchForm};
ghost use Rattle.node_select.specs.declared.selector.PatchSelector.{PatchSelector};
ghost use Rattle.node_select.specs.declared.selector.Selector.{Selector};
ghost use Rattle.node_select.specs.readers.WholeSelectors.{parsed_patch_form};
ghost use Rattle.node_select.specs.readers.WholeSelectors.{parsed_patch_selector};
ghost use Rattle.node_select.specs.readers.WholeSelectors.{parsed_selector};

/// By the grammar each text has one answer, with any bindings and any namespace of unprefixed
/// elements: the selector that it spells, or its one fault (RFC 4825, section 6.3). Reading from
/// left to right returns this answer.
pub fn selectors_have_one_answer()
    ensures answer_is_exact { (bindings : List Decl) (default text : List ℕ)
        → IsSelectorAnswer bindings default text (parsed_selector bindings default text) }
    ensures at_most_one { (bindings : List Decl) (default text : List ℕ)
        (a b : Result Selector SelectorFault)
        → IsSelectorAnswer bindings default text a → IsSelectorAnswer bindings default text b
        → a ≡ b }
{}

/// By the grammar each text has one answer as the selector of a patch (RFC 5261, section 4.1).
pub fn patch_selectors_have_one_answer()
    ensures answer_is_exact { (bindings : List Decl) (default text : List ℕ)
        → IsPatchSelectorAnswer bindings default text
        (parsed_patch_selector bindings default text) }
    ensures at_most_one { (bindings : List Decl) (default text : List ℕ)
        (a b : Result PatchSelector SelectorFault)
        → IsPatchSelectorAnswer bindings default text a
        → IsPatchSelectorAnswer bindings default text b → a ≡ b }
{}

/// The last part of a patch's selector has one answer, too, whatever prefixes are bound.
pub fn patch_forms_have_one_answer()
    ensures answer_is_exact { (text : List ℕ) → IsPatchFormAnswer text (parsed_patch_form text) }
    ensures at_most_one { (text : List ℕ) (a b : Option PatchForm) → IsPatchFormAnswer text a
        → IsPatchFormAnswer text b → a ≡ b }
{}
