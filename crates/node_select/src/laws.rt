//! Laws of selection along paths, each the contract of a function that does nothing.
ghost use Rattle.std.specs.Prelude.{◌≡◌, ◌↔◌, ℕ, IsSome, List, [], ◌∷◌, ◌++◌, Some};
ghost use Rattle.xml_tree.specs.Tree.{Tree, at};
ghost use Rattle.node_select.specs.LastSteps.{SelectsChildAt};
ghost use Rattle.node_select.specs.Selection.{SelectsPath, selected_element_path};
ghost use Rattle.node_select.specs.declared.selector.Step.{Step};

/// Steps select at most one element, whose path is the computed one, and it is in the tree. The
/// last of several steps selects a child of what the steps before it select, in the scope at that
/// element; so whether a new child may be inserted depends on that element's children alone.
pub fn steps_select_one_path()
    ensures computed_is_selected { (steps : List Step) (root : Tree) (p : List ℕ)
        → (selected_element_path steps root ≡ Some p) ↔ SelectsPath steps root p }
    ensures one_path { (steps : List Step) (root : Tree) (p q : List ℕ) → SelectsPath steps root p
        → SelectsPath steps root q → p ≡ q }
    ensures path_exists { (steps : List Step) (root : Tree) (p : List ℕ) → SelectsPath steps root p
        → IsSome (at p root) }
    ensures last_step_alone { (first : Step) (steps : List Step) (step : Step) (root : Tree)
        (p : List ℕ) (i : ℕ)
        → SelectsPath (first ∷ (steps ++ step ∷ [])) root (p ++ i ∷ [])
        ↔ (SelectsPath (first ∷ steps) root p × SelectsChildAt (root.decls ∷ []) root p step i) }
{}
