//! Laws of validation, each the contract of a function that does nothing.
ghost use Rattle.std.specs.Prelude.{◌≡◌, Option};
ghost use Rattle.xml_tree.specs.Tree.{Tree};
ghost use Rattle.doc_names.specs.declared.usages.Usage.{Usage};
ghost use Rattle.usage_docs.specs.Validation.{HasFirstFault};
ghost use Rattle.usage_docs.specs.declared.validation.Fault.{Fault};

/// Each tree has exactly one result: one first fault, or none.
pub fn each_tree_has_one_judgement()
    ensures fault_exists { (usage : Usage) (t : Tree) → (fault : Option Fault)
        × HasFirstFault usage t fault }
    ensures answer_is_one { (usage : Usage) (t : Tree) (one other : Option Fault)
        → HasFirstFault usage t one → HasFirstFault usage t other → one ≡ other }
{}
