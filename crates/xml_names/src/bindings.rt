//! All bindings of a scope, in the order of their prefixes.
ghost use Rattle.std.specs.Prelude.{◌≡◌, map, filter, IfOk, OnOk};
ghost use Rattle.xml_names.specs.Scopes.{in_scope_bindings, binds_prefix};
ghost use Rattle.xml_names.specs.inner.DeclarationMaps.{AreKeyedByPrefix, with_sorted_decls};
ghost use Rattle.xml_names.specs.inner.DeclarationMaps.{sorted_bindings};
ghost use Rattle.xml_names.specs.inner.DeclarationMaps.{map_decls};

use crate::names::{Decl, push_decl_copy};
use crate::prefixes::is_xml_prefix;
use std::alloc::{AllocError, Global};
use std::collections::BTreeMap;

// Inserts declarations into a map by prefix: a later one replaces an earlier one of its prefix.
pub(crate) fn insert_decls<'a>(
    found: &mut BTreeMap<&'a str, &'a Decl>,
    decls: &'a [Decl],
) -> Result<(), AllocError>
    requires { AreKeyedByPrefix found.old.entries }
    ensures keyed_entries { OnOk result (AreKeyedByPrefix found.new.entries) }
    ensures gathers_nearest { OnOk result
        (map_decls found.new.entries ≡ with_sorted_decls (map_decls found.old.entries) decls.now) }
{
    for decl in decls {
        found.insert(decl.prefix.as_str(), decl)?;
    }
    Ok(())
}

// Whether a declaration binds a prefix that isn't always bound.
fn binds_prefix(decl: &Decl) -> bool
    ensures exact { result ≡ binds_prefix decl.now }
{
    !decl.uri.is_empty() && !is_xml_prefix(decl.prefix.as_str())
}

/// All bindings in these lists of declarations, outermost first, without the binding of `xml`: the
/// default first, then the prefixes by code point.
///
/// # Errors
/// `AllocError` when out of memory.
#[tactic(auto, using(crate::proofs::BindingWords::gathered_are))]
pub fn in_scope_bindings(alloc: Global, lists: &[&[Decl]]) -> Result<Vec<Decl>, AllocError>
    ensures ok { IfOk result (λ made. made.items ≡ in_scope_bindings (map (λ x. x.now) lists.now)) }
{
    collect_bindings(alloc, lists)
}

// The same bindings, as the declarations that bind among those gathered.
fn collect_bindings(alloc: Global, lists: &[&[Decl]]) -> Result<Vec<Decl>, AllocError>
    ensures ok { IfOk result (λ made. made.items ≡ sorted_bindings (map (λ x. x.now) lists.now)) }
{
    let mut found = BTreeMap::new(alloc);
    for list in lists {
        insert_decls(&mut found, list)?;
    }
    filter_bindings(alloc, &found)
}

// Copies of the declarations that bind, in order.
fn filter_bindings(alloc: Global, found: &BTreeMap<&str, &Decl>) -> Result<Vec<Decl>, AllocError>
    ensures ok { IfOk result
        (λ made. made.items ≡ filter binds_prefix (map_decls found.now.entries)) }
{
    let mut ones = Vec::new(alloc);
    for decl in found.values() {
        if binds_prefix(decl) {
            push_decl_copy(alloc, &mut ones, decl)?;
        }
    }
    Ok(ones)
}
