//! Names in start tags: declarations and attributes, and the first wrong name of a tag.
ghost use Rattle.std.specs.Prelude.{◌≡◌, suc, ◌+◌, ◌<◌, ◌^◌, List, [], ◌++◌, ◌∷◌, chars};
ghost use Rattle.std.specs.Prelude.{encode_utf8_all, length, None, IsTrue, IfOk, OnOk, not};
ghost use Rattle.std.specs.Prelude.{if◌then◌else◌};
ghost use Rattle.std.specs.Str.{bytes_eq};
ghost use Rattle.xml_names.specs.Scopes.{xml_prefix, xml_uri, xmlns_uri};
ghost use Rattle.xml_tree.specs.Proper.{is_allowed_decl};
ghost use Rattle.tree_text.specs.Names.{decls_of, is_misnamed, is_repeated, attributes_size};
ghost use Rattle.tree_text.specs.Names.{raw_attribute_decl, is_xmlns_attr_name, is_prefix_unbound};
ghost use Rattle.xml_tokens.specs.Values.{qname_text};
ghost use Rattle.tree_text.specs.readers.TagNameFaults.{attribute_fault, first_attribute_fault};
ghost use Rattle.tree_text.specs.readers.TagNameFaults.{first_name_fault};
ghost use Rattle.tree_text.specs.readers.Bindings.{AreOpenNamespaces, lists};
ghost use Rattle.tree_text.specs.readers.Meanings.{HoldsMeaningsOf};
ghost use Rattle.xml_tokens.specs.readers.TokenViews.{raw_name_view};
ghost use Rattle.tree_text.specs.declared.raw_attribute.RawAttribute.{RawAttribute};

use crate::attribute_meanings::{Meaning, meaning_of};
use crate::bindings::Bindings;
use crate::raw_attribute::RawAttribute;
use crate::start_tags::RawStartTag;
use std::alloc::{AllocError, Global};
use std::collections::BTreeSet;
use tree_print::is_empty_prefix;
use xml_names::{Decl, Name, Prefix, Text, is_xml_prefix, is_xmlns_prefix};
use xml_tokens::{FaultKind, RawName, tag_front_len};

/// Whether a declared prefix is empty: the default namespace is declared.
fn is_default(prefix: &str) -> bool
    ensures exact { result ≡ bytes_eq (chars prefix.now) [] }
{
    prefix.is_empty()
}

/// Whether a URI is empty.
fn is_empty_uri(uri: &Text) -> bool
    ensures exact { result ≡ bytes_eq uri.now [] }
{
    uri.is("")
}

fn is_xml_uri(text: &Text) -> bool
    ensures exact { result ≡ bytes_eq text.now xml_uri }
{
    text.is("http://www.w3.org/XML/1998/namespace")
}

fn is_xmlns_uri(text: &Text) -> bool
    ensures exact { result ≡ bytes_eq text.now xmlns_uri }
{
    text.is("http://www.w3.org/2000/xmlns/")
}

/// Whether an attribute of this name is a declaration.
#[inline(always)]
pub fn declares_namespace(name: &Name) -> bool
    ensures exact { result ≡ is_xmlns_attr_name name.now }
{
    if is_empty_prefix(&name.prefix) {
        return is_xmlns_prefix(name.local.as_str());
    }
    is_xmlns_prefix(name.prefix.as_str())
}

/// The prefix that a declaration declares.
pub fn declared_prefix<'a>(raw_attribute: &'a RawAttribute<'_>) -> &'a str
    ensures prefix_chars { chars result.now ≡ (raw_attribute_decl raw_attribute.now).prefix }
    ensures prefix_bytes { result.now
        ≡ encode_utf8_all (raw_attribute_decl raw_attribute.now).prefix }
{
    if is_empty_prefix(&raw_attribute.name.prefix) {
        raw_attribute.name.prefix.as_str()
    } else {
        raw_attribute.name.local.as_str()
    }
}

/// The declaration that a raw attribute is.
fn decl_of(alloc: Global, raw_attribute: &RawAttribute<'_>) -> Result<Decl, AllocError>
    ensures ok { IfOk result (λ decl. decl ≡ raw_attribute_decl raw_attribute.now) }
{
    let prefix = Prefix::from(alloc, declared_prefix(raw_attribute))?;
    let uri = raw_attribute.value.copy(alloc)?;
    Ok(Decl { prefix, uri })
}

/// Appends a declaration.
#[inline(never)]
fn push_new_decl(
    alloc: Global,
    decls: &mut Vec<Decl>,
    raw_attribute: &RawAttribute<'_>,
) -> Result<(), AllocError>
    ensures adds_declaration { IfOk result
        (λ _. decls.new.items ≡ decls.old.items ++ raw_attribute_decl raw_attribute.now ∷ []) }
{
    let decl = decl_of(alloc, raw_attribute)?;
    decls.push(decl)?;
    Ok(())
}

/// Appends the declaration that a raw attribute is, unless it is an attribute. Most are.
#[inline(always)]
fn push_decl(
    alloc: Global,
    decls: &mut Vec<Decl>,
    raw_attribute: &RawAttribute<'_>,
) -> Result<(), AllocError>
    ensures appends_declared { IfOk result
        (λ _. decls.new.items ≡ decls.old.items ++ decls_of (raw_attribute.now ∷ [])) }
{
    if !declares_namespace(&raw_attribute.name) {
        return Ok(());
    }
    push_new_decl(alloc, decls, raw_attribute)
}

/// Whether there are no raw attributes, or one that is an attribute.
#[inline(always)]
fn is_without_decls(all: &[RawAttribute<'_>]) -> bool
    ensures no_decls { IsTrue result → decls_of all.now ≡ [] }
{
    match all {
        [] => true,
        [only] => !declares_namespace(&only.name),
        _ => false,
    }
}

/// The declarations among raw attributes, in order. Most tags have no raw attribute, or one
/// attribute.
#[inline(always)]
pub fn decls_of(alloc: Global, all: &[RawAttribute<'_>]) -> Result<Vec<Decl>, AllocError>
    ensures ok { IfOk result (λ decls. decls.items ≡ decls_of all.now) }
{
    if is_without_decls(all) {
        return Ok(Vec::new(alloc));
    }
    collect_decls(alloc, all)
}

/// `decls_of`, one by one.
#[inline(never)]
fn collect_decls(alloc: Global, all: &[RawAttribute<'_>]) -> Result<Vec<Decl>, AllocError>
    ensures declarations_among_some { IfOk result (λ decls. decls.items ≡ decls_of all.now) }
{
    let mut decls = Vec::new(alloc);
    for raw_attribute in all {
        push_decl(alloc, &mut decls, raw_attribute)?;
    }
    Ok(decls)
}

/// Whether `xml` is bound to its own namespace, and no other prefix to that namespace.
fn respects_xml_namespace(prefix: &str, uri: &Text) -> bool
    ensures exact { result
        ≡ (if bytes_eq (chars prefix.now) xml_prefix then bytes_eq uri.now xml_uri
        else not (bytes_eq uri.now xml_uri)) }
{
    let own = is_xml_uri(uri);
    if is_xml_prefix(prefix) { own } else { !own }
}

/// Whether a declaration is allowed.
fn is_allowed_decl(prefix: &str, uri: &Text) -> bool
    ensures exact { result ≡ is_allowed_decl (record { prefix = chars prefix.now; uri = uri.now }) }
{
    if is_xmlns_prefix(prefix) {
        return false;
    }
    if is_xmlns_uri(uri) {
        return false;
    }
    if !respects_xml_namespace(prefix, uri) {
        return false;
    }
    if is_default(prefix) {
        return true;
    }
    !is_empty_uri(uri)
}

/// Whether a name has a prefix that isn't bound.
#[inline(always)]
pub fn has_unbound_prefix(here: &Bindings, name: &Name) -> bool
    requires namespaces_in_step { AreOpenNamespaces here.now }
    ensures exact { result ≡ is_prefix_unbound (lists here.now) name.now }
{
    if is_empty_prefix(&name.prefix) {
        return false;
    }
    here.namespace(&name.prefix).is_none()
}

/// Whether a declaration isn't allowed, or an attribute has an unbound prefix.
#[inline(always)]
fn is_misnamed(here: &Bindings, raw_attribute: &RawAttribute<'_>) -> bool
    requires namespaces_in_step { AreOpenNamespaces here.now }
    ensures exact { result ≡ is_misnamed (lists here.now) raw_attribute.now }
{
    if declares_namespace(&raw_attribute.name) {
        return !is_allowed_decl(declared_prefix(raw_attribute), &raw_attribute.value);
    }
    has_unbound_prefix(here, &raw_attribute.name)
}

/// Whether no earlier raw attribute has this one's meaning, which is then added to `seen`.
fn is_first_with_meaning<'a>(
    here: &Bindings,
    seen: &mut BTreeSet<Meaning<'a>>,
    raw_attribute: &'a RawAttribute<'_>,
) -> Result<bool, AllocError>
    requires namespaces_in_step { AreOpenNamespaces here.now }
    ensures first_iff { (es : List RawAttribute) → HoldsMeaningsOf here.now es seen.old
        → IfOk result (λ first. first ≡ not (is_repeated (lists here.now) es raw_attribute.now)) }
    ensures holds_seen { (es : List RawAttribute) → HoldsMeaningsOf here.now es seen.old
        → OnOk result (HoldsMeaningsOf here.now (es ++ raw_attribute.now ∷ []) seen.new) }
{
    let first = seen.insert(meaning_of(here, raw_attribute))?;
    Ok(first)
}

/// What is wrong with a raw attribute, after earlier ones whose meanings are in `seen`. Where
/// nothing is wrong, its own meaning is added.
fn attribute_fault<'a>(
    here: &Bindings,
    seen: &mut BTreeSet<Meaning<'a>>,
    raw_attribute: &'a RawAttribute<'_>,
) -> Result<Option<FaultKind>, AllocError>
    requires namespaces_in_step { AreOpenNamespaces here.now }
    ensures exact_wrong { (es : List RawAttribute) → HoldsMeaningsOf here.now es seen.old
        → IfOk result (λ wrong. wrong ≡ attribute_fault (lists here.now) es raw_attribute.now) }
    ensures holds_seen { (es : List RawAttribute) → HoldsMeaningsOf here.now es seen.old
        → IfOk result (λ wrong. wrong ≡ None
        → HoldsMeaningsOf here.now (es ++ raw_attribute.now ∷ []) seen.new) }
{
    if is_misnamed(here, raw_attribute) {
        return Ok(Some(FaultKind::Unbound));
    }
    if is_first_with_meaning(here, seen, raw_attribute)? {
        return Ok(None);
    }
    Ok(Some(FaultKind::Repeated))
}

/// What is wrong with the only raw attribute of a tag with this name, and how many characters of
/// the tag come before its name.
#[inline(always)]
fn only_attribute_fault(
    here: &Bindings,
    only: &RawAttribute<'_>,
    name: &RawName<'_>,
) -> Option<(FaultKind, usize)>
    requires namespaces_in_step { AreOpenNamespaces here.now }
    requires fits { 2 + length (chars name.now.prefix.now) + length
        (chars name.now.local.now) + attributes_size (only.now ∷ []) < 2 ^ 64 }
    ensures exact { result
        ≡ first_attribute_fault (lists here.now) []
        (suc (length (qname_text (raw_name_view name.now))))
        (only.now ∷ []) }
{
    if is_misnamed(here, only) {
        return Some((FaultKind::Unbound, tag_front_len(name) + only.gap));
    }
    None
}

/// The first wrong raw attribute, as `first_attribute_fault` finds it.
#[inline(never)]
fn first_attribute_fault_by_index<'a>(
    alloc: Global,
    here: &Bindings,
    all: &'a [RawAttribute<'_>],
    tag_front_len: usize,
) -> Result<Option<(FaultKind, usize)>, AllocError>
    requires namespaces_in_step { AreOpenNamespaces here.now }
    requires fits { tag_front_len + attributes_size all.now < 2 ^ 64 }
    ensures ok { IfOk result (λ found. found
        ≡ first_attribute_fault (lists here.now) [] tag_front_len all.now) }
{
    let mut seen = BTreeSet::new(alloc);
    let mut at = tag_front_len;
    for raw_attribute in all {
        if let Some(kind) = attribute_fault(here, &mut seen, raw_attribute)? {
            return Ok(Some((kind, at + raw_attribute.gap)));
        }
        at += raw_attribute.gap + raw_attribute.size.count();
    }
    Ok(None)
}

/// What is wrong with the first wrong raw attribute of a tag with this name, and how many
/// characters of the tag come before its name.
#[inline(always)]
pub fn first_attribute_fault<'a>(
    alloc: Global,
    here: &Bindings,
    all: &'a [RawAttribute<'_>],
    name: &RawName<'_>,
) -> Result<Option<(FaultKind, usize)>, AllocError>
    requires namespaces_in_step { AreOpenNamespaces here.now }
    requires fits { 2 + length (chars name.now.prefix.now) + length
        (chars name.now.local.now) + attributes_size all.now < 2 ^ 64 }
    ensures ok { IfOk result
        (λ found. found ≡ first_attribute_fault (lists here.now) []
        (suc (length (qname_text (raw_name_view name.now)))) all.now) }
{
    match all {
        [] => Ok(None),
        [only] => Ok(only_attribute_fault(here, only, name)),
        _ => first_attribute_fault_by_index(alloc, here, all, tag_front_len(name)),
    }
}

/// What is wrong with the first wrong name of a start tag, in the scope inside it, and how many
/// characters of the tag come before it.
#[inline(always)]
pub fn first_tag_fault<'a>(
    alloc: Global,
    here: &Bindings,
    name: &Name,
    raw_attribute: &'a [RawAttribute<'_>],
    start_tag: &RawStartTag<'_>,
) -> Result<Option<(FaultKind, usize)>, AllocError>
    requires namespaces_in_step { AreOpenNamespaces here.now }
    requires name_matches { name.now ≡ raw_name_view start_tag.now.written }
    requires fits { 2 + length (chars start_tag.now.written.prefix.now) + length
        (chars start_tag.now.written.local.now) + attributes_size raw_attribute.now < 2 ^ 64 }
    ensures ok { IfOk result
        (λ found. found ≡ first_name_fault (lists here.now)
        (raw_name_view start_tag.now.written) raw_attribute.now) }
{
    if has_unbound_prefix(here, name) {
        return Ok(Some((FaultKind::Unbound, 1)));
    }
    first_attribute_fault(alloc, here, raw_attribute, &start_tag.written)
}
