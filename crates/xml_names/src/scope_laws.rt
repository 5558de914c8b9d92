//! Laws of scopes, each the contract of a function that does nothing.
ghost use Rattle.std.specs.Prelude.{◌≡◌, ℕ, List, [], ◌∷◌, IsTrue};
ghost use Rattle.std.specs.List.{AllByRecursion};
ghost use Rattle.xml_names.specs.Scopes.{AreSortedByPrefix, in_scope_bindings, binds_prefix};
ghost use Rattle.xml_names.specs.Scopes.{bound_uri};
ghost use Rattle.xml_names.specs.declared.names.Decl.{Decl};

/// All bindings of a scope, as one list: they bind what the scope binds, are in the order of
/// their prefixes by code point, and each binds a prefix other than `xml`. No other list does so.
pub fn bindings_are_those_of_the_scope()
    ensures bound_alike { (c : List (List Decl)) (p : List ℕ)
        → bound_uri (in_scope_bindings c ∷ []) p ≡ bound_uri c p }
    ensures prefixes_rise { (c : List (List Decl)) → AreSortedByPrefix (in_scope_bindings c) }
    ensures each_binds { (c : List (List Decl))
        → AllByRecursion (λ d. IsTrue (binds_prefix d)) (in_scope_bindings c) }
    ensures list_is_unique { (c : List (List Decl)) (ds : List Decl) → AreSortedByPrefix ds
        → AllByRecursion (λ d. IsTrue (binds_prefix d)) ds
        → ((p : List ℕ) → bound_uri (ds ∷ []) p ≡ bound_uri c p) → ds ≡ in_scope_bindings c }
{}
