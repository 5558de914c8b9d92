//! The declarations of an element, with an index if they are many.
ghost use Rattle.std.specs.Prelude.{◌≡◌, ◌==◌, [], length, map, IfOk};
ghost use Rattle.std.specs.Option.{option_copied};
ghost use Rattle.xml_names.specs.inner.DeclarationMaps.{with_sorted_decls};
ghost use Rattle.xml_names.specs.Scopes.{AreSortedByPrefix, declared_uri};

use crate::bindings::insert_decls;
use crate::names::{Decl, Prefix};
use crate::prefixes;
use crate::text::Text;
use std::alloc::{AllocError, Global};
use std::collections::BTreeMap;
use std::marker::Model;

// Up to this many declarations are searched without an index.
const FEW: usize = 8;

/// The declarations of an element, borrowed, with an index if they are many. Contracts see the
/// declarations.
#[derive(Drop)]
pub struct IndexedDecls<'a> {
    decls: &'a [Decl],
    // The last declaration of each prefix, in the order of the prefixes; empty without an index.
    index: Vec<&'a Decl>,
}

impl<'a> Model for IndexedDecls<'a> {
    ghost use Rattle.std.specs.Prelude.{List, map};
    ghost use Rattle.xml_names.specs.inner.ValueCodes.{decls_code};
    ghost use Rattle.xml_names.specs.inner.DeclarationMaps.{IsPrefixIndex};
    ghost use Rattle.xml_names.specs.declared.names.Decl.{Decl};

    ghost Value = { List Decl };

    ghost coded = { decls_code };

    ghost view = { λ d. d.decls.now };

    ghost invariant = { λ d. IsPrefixIndex (map (λ x. x.now) d.index.items) d.decls.now };
}

impl<'a> IndexedDecls<'a> {
    /// The declarations without an index, for a list with few look-ups. Does not allocate.
    pub fn new(alloc: Global, decls: &'a [Decl]) -> IndexedDecls<'a>
        ensures holds_declarations { result ≡ decls.now }
    {
        IndexedDecls {
            decls,
            index: Vec::new(alloc),
        }
    }

    /// The declarations, with an index where there are more than `FEW`.
    ///
    /// # Errors
    /// `AllocError` when out of memory.
    pub fn with_index(alloc: Global, decls: &'a [Decl]) -> Result<IndexedDecls<'a>, AllocError>
        ensures holds_declarations { IfOk result (λ made. made ≡ decls.now) }
    {
        if decls.len() <= FEW {
            return Ok(IndexedDecls::new(alloc, decls));
        }
        let index = build_index(alloc, decls)?;
        Ok(IndexedDecls { decls, index })
    }

    /// Whether there are no declarations. Does not allocate.
    pub fn is_empty(&self) -> bool
        ensures exact { result ≡ (length self.now == 0) }
    {
        self.decls.is_empty()
    }

    /// The URI of the last declaration of a prefix, if there is one; it is empty where the prefix
    /// is undeclared. Does not allocate.
    #[inline(never)]
    pub fn uri_of(&self, prefix: &Prefix) -> Option<&'a Text>
        ensures exact { option_copied result ≡ declared_uri self.now prefix.now }
    {
        if self.index.is_empty() {
            return prefixes::declared_uri(self.decls, prefix.as_str());
        }
        find_in_index(&self.index, prefix)
    }
}

// The last declaration of each prefix, in the order of the prefixes.
fn build_index<'a>(alloc: Global, decls: &'a [Decl]) -> Result<Vec<&'a Decl>, AllocError>
    ensures last_of_each { IfOk result
        (λ made. map (λ x. x.now) made.items ≡ with_sorted_decls [] decls.now) }
{
    let mut found = BTreeMap::new(alloc);
    insert_decls(&mut found, decls)?;
    let mut index = Vec::with_capacity(alloc, found.len())?;
    for decl in found.values() {
        index.push(*decl)?;
    }
    Ok(index)
}

// The URI of a prefix in an index.
fn find_in_index<'a>(index: &[&'a Decl], prefix: &Prefix) -> Option<&'a Text>
    requires { AreSortedByPrefix (map (λ x. x.now) index.now) }
    ensures exact { option_copied result ≡ declared_uri (map (λ x. x.now) index.now) prefix.now }
{
    match index.binary_search_by(|decl| decl.prefix.cmp(prefix)) {
        Ok(place) => Some(&index[place].uri),
        Err(_) => None,
    }
}

/// Declarations, with an index if they are many and there is memory for one. What they declare is
/// the same without it.
pub fn index_decls<'a>(alloc: Global, decls: &'a [Decl]) -> IndexedDecls<'a>
    ensures holds_declarations { result ≡ decls.now }
{
    match IndexedDecls::with_index(alloc, decls) {
        Ok(declared) => declared,
        Err(_) => IndexedDecls::new(alloc, decls),
    }
}
