//! Laws of key addresses, each the contract of a function that does nothing.
ghost use Rattle.xml_tree.specs.Tree.{Tree};
ghost use Rattle.doc_names.specs.declared.usages.Usage.{Usage};
ghost use Rattle.edit_ops.specs.Changes.{FitsTree, edited};
ghost use Rattle.edit_ops.specs.declared.change.Change.{Change};
ghost use Rattle.edit_rules.specs.KeyAddresses.{IsProperWithUniqueKeys};
ghost use Rattle.edit_rules.specs.KeyWrites.{KeepsKeyAddresses};

/// A change of a proper document with unique keys, which leaves one, leaves what key addresses
/// select.
pub fn a_key_address_keeps_its_element()
    ensures keeps_key_addresses { (u : Usage) (t : Tree) (change : Change)
        → IsProperWithUniqueKeys u t
        → FitsTree t change
        → IsProperWithUniqueKeys u (edited t change) → KeepsKeyAddresses u t change }
{}
