//! A new element in a valid document.
ghost use Rattle.std.specs.Prelude.{ℕ, List, [], ◌∷◌, ◌↔◌};
ghost use Rattle.xml_tree.specs.Tree.{Tree};
ghost use Rattle.xml_tree.specs.Edits.{put_in};
ghost use Rattle.doc_names.specs.declared.usages.Usage.{Usage};
ghost use Rattle.usage_docs.specs.SchemaTable.{root_kind};
ghost use Rattle.usage_docs.specs.Validity.{IsValidDocument};
ghost use Rattle.usage_docs.specs.InsertionPoints.{FitsGapBelow, HasGap};
ghost use Rattle.usage_docs.specs.readers.NeighbourParts.{FitsGapByPartsBelow};

/// A valid document with a new element in a gap is valid exactly when the element is valid by
/// itself and may come between its two neighbours; that is, where its part follows theirs.
pub fn insertion_is_local()
    ensures by_model { (u : Usage) (t new : Tree) (q : List ℕ) (j : ℕ) → HasGap t q j
        → IsValidDocument u t
        → IsValidDocument u (put_in q j new t) ↔ FitsGapBelow (root_kind u) (t.decls ∷ []) t q new
        j }
    ensures by_parts { (u : Usage) (t new : Tree) (q : List ℕ) (j : ℕ) → HasGap t q j
        → IsValidDocument u t
        → IsValidDocument u (put_in q j new t)
        ↔ FitsGapByPartsBelow (root_kind u) (t.decls ∷ []) t q new j }
{}
