//! Laws of what holds everywhere in a tree, such as being proper; each is the contract of a
//! function that does nothing.
ghost use Rattle.std.specs.Prelude.{◌≡◌, ◌≤◌, ◌++◌, ℕ, List, Some, length};
ghost use Rattle.std.specs.List.{AllByRecursion};
ghost use Rattle.xml_tree.specs.Edits.{change_at, cut_out, put_in, put_over};
ghost use Rattle.xml_tree.specs.Nodes.{exchange_nodes};
ghost use Rattle.xml_tree.specs.Proper.{HoldsOfNode, IsProperPart, IsProperTree};
ghost use Rattle.xml_names.specs.Scopes.{bound_uri};
ghost use Rattle.xml_tree.specs.TreeScopes.{scope_around, scope_at};
ghost use Rattle.xml_tree.specs.Tree.{Tree, at, child_elements_of};
ghost use Rattle.xml_names.specs.declared.names.Decl.{Decl};
ghost use Rattle.xml_tree.specs.declared.tree.Node.{Node};

/// What is at a place of a proper tree is proper in the scope around it, and a proper tree that
/// is changed at a place stays proper where the change yields an element that is proper in the
/// same scope.
pub fn proper_at_each_place()
    ensures proper_at_place { (p : List ℕ) (c : List (List Decl)) (t e : Tree) → at p t ≡ Some e
        → IsProperTree c t → IsProperTree (c ++ scope_around p t) e }
    ensures proper_after_change { (p : List ℕ) (f : Tree → Tree) (c : List (List Decl)) (t : Tree)
        → ((e : Tree) → at p t ≡ Some e → IsProperTree (c ++ scope_around p t) e
        → IsProperTree (c ++ scope_around p t) (f e)) → IsProperTree c t
        → IsProperTree c (change_at p f t) }
{}

/// A proper tree stays proper where an element or nodes are inserted that are proper in the scope
/// of their place, and where an element is removed.
pub fn proper_after_an_edit()
    ensures on_insertion { (c : List (List Decl)) (p : List ℕ) (j : ℕ) (e t : Tree)
        → IsProperTree (c ++ scope_at p t) e → IsProperTree c t → IsProperTree c (put_in p j e t) }
    ensures on_replacement { (c : List (List Decl)) (p : List ℕ) (e t : Tree)
        → IsProperTree (c ++ scope_around p t) e → IsProperTree c t
        → IsProperTree c (put_over p e t) }
    ensures on_removal { (c : List (List Decl)) (p : List ℕ) (t : Tree) → IsProperTree c t
        → IsProperTree c (cut_out p t) }
    ensures on_node_exchange { (c : List (List Decl)) (p : List ℕ) (from to : ℕ) (ns : List Node)
        (t : Tree) → AllByRecursion (HoldsOfNode IsProperPart (c ++ scope_at p t)) ns
        → IsProperTree c t
        → IsProperTree c (change_at p (exchange_nodes from to ns) t) }
{}

/// An element that was put into a tree that is proper afterwards is proper in the scope of its
/// place.
pub fn proper_when_put()
    ensures inserted_is_proper { (c : List (List Decl)) (p : List ℕ) (j : ℕ) (e t k : Tree)
        → at p t ≡ Some k → j ≤ length (child_elements_of k) → IsProperTree c (put_in p j e t)
        → IsProperTree (c ++ scope_at p t) e }
    ensures replaced_is_proper { (c : List (List Decl)) (p : List ℕ) (e t k : Tree)
        → at p t ≡ Some k → IsProperTree c (put_over p e t)
        → IsProperTree (c ++ scope_around p t) e }
{}

/// What is proper in a scope is proper in each scope with the same bindings.
pub fn proper_in_scopes_that_bind_alike()
    ensures stays_proper { (c d : List (List Decl)) (t : Tree)
        → ((p : List ℕ) → bound_uri c p ≡ bound_uri d p) → IsProperTree c t → IsProperTree d t }
{}
