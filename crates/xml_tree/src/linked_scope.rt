//! Scopes as chains of borrows.
ghost use Rattle.std.specs.Prelude.{◌≡◌, ◌++◌, [], ◌∷◌, option_map, chars};
ghost use Rattle.std.specs.Option.{option_copied};
ghost use Rattle.xml_names.specs.Scopes.{bound_uri, declared_uri, scope_decls};

use crate::scope::Scope;
use std::marker::Model;
use xml_names::{IndexedDecls, Prefix, Text, is_xml_prefix, non_empty_uri, xml_uri};

/// A scope that links to the scope around it, so nothing is copied where an element begins.
/// Contracts see it as a list of lists of declarations, outermost first, as they see a `Scope`.
#[derive(Drop)]
#[cycle(around)]
pub struct LinkedScope<'a> {
    place: ScopeLink<'a>,
}

#[derive(Drop)]
#[cycle(around)]
enum ScopeLink<'a> {
    // Nothing is declared.
    Nothing,
    // A scope that isn't linked.
    Outermost(&'a Scope<'a>),
    // Inside an element with these declarations.
    Within(&'a LinkedScope<'a>, &'a IndexedDecls<'a>),
}

impl<'a> Model for LinkedScope<'a> {
    ghost use Rattle.std.specs.Prelude.{List, length};
    ghost use Rattle.std.specs.Coded.{coded_list};
    ghost use Rattle.std.proofs.Common.{arith, length-append};
    ghost use Rattle.xml_names.specs.inner.ValueCodes.{decls_code};
    ghost use Rattle.xml_names.specs.declared.names.Decl.{Decl};

    ghost Value = { List (List Decl) };

    ghost coded = { coded_list decls_code };

    ghost use Rattle.xml_tree.specs.inner.LinkedScopes.{decl_lists};

    ghost view = { λ a. decl_lists a.place };

    ghost size = { length };

    ghost size_decreases = { λ a h. Prim.grind (arith, length-append) };
}

impl<'a> LinkedScope<'a> {
    /// The scope without declarations. Does not allocate.
    pub fn empty() -> LinkedScope<'a>
        ensures declares_nothing { result ≡ [] }
    {
        LinkedScope {
            place: ScopeLink::Nothing,
        }
    }

    /// A scope that others can link to. Does not allocate.
    pub fn from_scope(scope: &'a Scope<'a>) -> LinkedScope<'a>
        ensures exact { result ≡ scope.now }
    {
        LinkedScope {
            place: ScopeLink::Outermost(scope),
        }
    }

    /// The scope inside an element with these declarations, in this scope. Does not allocate.
    pub fn inside<'b>(&'b self, declared: &'b IndexedDecls<'_>) -> LinkedScope<'b>
        ensures adds_declarations { result ≡ self.now ++ declared.now ∷ [] }
    {
        LinkedScope {
            place: ScopeLink::Within(&*self, &*declared),
        }
    }

    /// The URI that a prefix is bound to; the empty prefix is the default namespace. Does not
    /// allocate.
    pub fn resolve(&self, prefix: &Prefix) -> Option<&'a str>
        ensures resolves_as_bound { option_map (λ uri. chars uri.now) result
            ≡ bound_uri self.now prefix.now }
    {
        if is_xml_prefix(prefix.as_str()) {
            return Some(xml_uri());
        }
        non_empty_uri(self.nearest_uri(prefix))
    }

    // The URI in the nearest declaration of a prefix. Most elements declare nothing.
    fn nearest_uri(&self, prefix: &Prefix) -> Option<&'a Text>
        ensures exact { option_copied result ≡ declared_uri (scope_decls self.now) prefix.now }
    {
        match self.place {
            ScopeLink::Nothing => None,
            ScopeLink::Outermost(scope) => scope.nearest_uri(prefix.as_str()),
            ScopeLink::Within(outer, declared) => {
                if declared.is_empty() {
                    return outer.nearest_uri(prefix);
                }
                match declared.uri_of(prefix) {
                    Some(uri) => Some(uri),
                    None => outer.nearest_uri(prefix),
                }
            }
        }
    }
}
