//! The schema table: what an element may contain, by its kind (RFC 4826, sections 3.2 and 4.2).
ghost use Rattle.std.specs.Prelude.{◌≡◌, Some, None, IsTrue, chars, if◌then◌else◌};
ghost use Rattle.usage_docs.specs.AsciiTexts.{is_ascii};
ghost use Rattle.std.specs.Str.{bytes_eq};
ghost use Rattle.usage_docs.specs.declared.schema_table.ElementKind.TheVariants as ElementKind;
ghost use Rattle.usage_docs.specs.SchemaTable.{lists_namespace, services_namespace, root_kind};
ghost use Rattle.usage_docs.specs.SchemaTable.{local_name_of, namespace_of_children, child_kind};
ghost use Rattle.usage_docs.specs.SchemaTable.{element_namespace, kind_by_name, is_foreign};
ghost use Rattle.usage_docs.specs.SchemaTable.{kind_of};
ghost use Rattle.usage_docs.specs.SchemaTable.{is_root};

use doc_names::Usage;
use xml_names::{LocalName, Name};
use xml_tree::LinkedScope;

/// An element kind: the declaration that an element goes by.
#[derive(Clone, Copy, PartialEq, Eq, PartialOrd, Ord)]
pub enum ElementKind {
    /// The root of a resource-lists document.
    ResourceLists,
    /// A `list`, of either namespace.
    EntryList,
    Entry,
    EntryRef,
    External,
    DisplayName,
    /// The root of an rls-services document.
    RlsServices,
    Service,
    ResourceList,
    Packages,
    Package,
}

/// An attribute without a namespace, which is the key of its element.
#[derive(Debug, Clone, Copy, PartialEq, Eq)]
pub enum Key {
    Name,
    Uri,
    Ref,
    Anchor,
}

/// Which attribute without a namespace an element may have.
#[derive(Clone, Copy, PartialEq, Eq)]
pub(crate) enum Attribute {
    Nothing,
    /// An optional attribute.
    May(Key),
    /// A required attribute.
    Must(Key),
}

const LISTS: &str = "urn:ietf:params:xml:ns:resource-lists";

const SERVICES: &str = "urn:ietf:params:xml:ns:rls-services";

// The namespace of resource-lists.
#[tactic(auto, unfolding(crate::specs::SchemaTable::lists_namespace))]
pub(crate) fn lists_namespace() -> &'static str
    ensures expected_word { result.now ≡ lists_namespace }
    ensures is_ascii_alone { IsTrue (is_ascii result.now) }
{
    LISTS
}

// The namespace of rls-services.
#[tactic(auto, unfolding(crate::specs::SchemaTable::services_namespace))]
pub(crate) fn services_namespace() -> &'static str
    ensures expected_word { result.now ≡ services_namespace }
    ensures is_ascii_alone { IsTrue (is_ascii result.now) }
{
    SERVICES
}

/// The kind of a document's root.
#[tactic(auto, unfolding(crate::specs::SchemaTable::root_kind))]
pub fn root_kind(usage: Usage) -> ElementKind
    ensures exact { result ≡ root_kind usage }
{
    match usage {
        Usage::ResourceLists => ElementKind::ResourceLists,
        Usage::RlsServices => ElementKind::RlsServices,
    }
}

// The local name of a document's root.
#[tactic(auto, unfolding(crate::specs::SchemaTable::root_kind, crate::specs::SchemaTable::local_name_of))]
fn root_word(usage: Usage) -> &'static str
    ensures expected_word { result.now ≡ local_name_of (root_kind usage) }
    ensures is_ascii_alone { IsTrue (is_ascii result.now) }
{
    match usage {
        Usage::ResourceLists => "resource-lists",
        Usage::RlsServices => "rls-services",
    }
}

// The namespace of the children of an element of this kind.
#[tactic(auto, unfolding(crate::specs::SchemaTable::namespace_of_children))]
fn own_namespace(row: ElementKind) -> &'static str
    ensures expected_word { result.now ≡ namespace_of_children row }
    ensures is_ascii_alone { IsTrue (is_ascii result.now) }
{
    match row {
        ElementKind::ResourceLists
        | ElementKind::EntryList
        | ElementKind::Entry
        | ElementKind::EntryRef
        | ElementKind::External
        | ElementKind::DisplayName => lists_namespace(),
        ElementKind::RlsServices
        | ElementKind::Service
        | ElementKind::ResourceList
        | ElementKind::Packages
        | ElementKind::Package => services_namespace(),
    }
}

// The kind of a child in its parent's own namespace, by its local name.
#[tactic(auto, unfolding(crate::specs::SchemaTable::child_kind, crate::specs::SchemaTable::content_model_of, crate::specs::SchemaTable::local_name_of))]
fn child_kind(row: ElementKind, local: &LocalName) -> Option<ElementKind>
    ensures exact { result ≡ child_kind row local.now }
{
    match row {
        ElementKind::ResourceLists => kind_if_word(local, "list", ElementKind::EntryList),
        ElementKind::EntryList => list_child_kind(local),
        ElementKind::Entry => kind_if_word(local, "display-name", ElementKind::DisplayName),
        ElementKind::EntryRef => kind_if_word(local, "display-name", ElementKind::DisplayName),
        ElementKind::External => kind_if_word(local, "display-name", ElementKind::DisplayName),
        ElementKind::RlsServices => kind_if_word(local, "service", ElementKind::Service),
        ElementKind::Service => service_child_kind(local),
        ElementKind::Packages => kind_if_word(local, "package", ElementKind::Package),
        ElementKind::DisplayName | ElementKind::ResourceList | ElementKind::Package => None,
    }
}

// This kind, if the name is this word.
fn kind_if_word(local: &LocalName, word: &str, kind: ElementKind) -> Option<ElementKind>
    requires { IsTrue (is_ascii word.now) }
    ensures exact { result ≡ (if bytes_eq local.now word.now then Some kind else None) }
{
    if is_word(local.as_str(), word) {
        Some(kind)
    } else {
        None
    }
}

// A child of a list.
#[tactic(auto, unfolding(crate::specs::SchemaTable::child_kind, crate::specs::SchemaTable::content_model_of, crate::specs::SchemaTable::local_name_of))]
fn list_child_kind(local: &LocalName) -> Option<ElementKind>
    ensures exact { result ≡ child_kind ElementKind.EntryList local.now }
{
    if is_word(local.as_str(), "display-name") {
        return Some(ElementKind::DisplayName);
    }
    if is_word(local.as_str(), "list") {
        return Some(ElementKind::EntryList);
    }
    if is_word(local.as_str(), "external") {
        return Some(ElementKind::External);
    }
    if is_word(local.as_str(), "entry") {
        return Some(ElementKind::Entry);
    }
    kind_if_word(local, "entry-ref", ElementKind::EntryRef)
}

// A child of a service.
#[tactic(auto, unfolding(crate::specs::SchemaTable::child_kind, crate::specs::SchemaTable::content_model_of, crate::specs::SchemaTable::local_name_of))]
fn service_child_kind(local: &LocalName) -> Option<ElementKind>
    ensures exact { result ≡ child_kind ElementKind.Service local.now }
{
    if is_word(local.as_str(), "resource-list") {
        return Some(ElementKind::ResourceList);
    }
    if is_word(local.as_str(), "list") {
        return Some(ElementKind::EntryList);
    }
    kind_if_word(local, "packages", ElementKind::Packages)
}

// The namespace of an element's name, in the scope that ends with its own declarations.
pub(crate) fn element_namespace<'a>(scope: &LinkedScope<'a>, name: &Name) -> &'a str
    ensures exact { chars result.now ≡ element_namespace scope.now name.now }
{
    match scope.resolve(&name.prefix) {
        Some(space) => space,
        None => "",
    }
}

// Whether a text is this ASCII word.
pub(crate) fn is_word(text: &str, word: &str) -> bool
    requires { IsTrue (is_ascii word.now) }
    ensures exact { result ≡ bytes_eq (chars text.now) word.now }
{
    text == word
}

// A child's kind by its expanded name.
pub(crate) fn kind_by_name(row: ElementKind, space: &str, local: &LocalName) -> Option<ElementKind>
    ensures exact { result ≡ kind_by_name row (chars space.now) local.now }
{
    if is_word(space, own_namespace(row)) {
        child_kind(row, local)
    } else {
        None
    }
}

// Whether an element of this namespace is foreign to its parent's kind.
pub(crate) fn is_foreign(row: ElementKind, space: &str) -> bool
    ensures exact { result ≡ is_foreign row (chars space.now) }
{
    !is_word(space, own_namespace(row)) && !is_word(space, "")
}

/// The kind of a child, by the kind of its parent and the scope that ends with its own
/// declarations. Foreign elements and elements that aren't allowed have none. Does not allocate.
#[tactic(auto, unfolding(crate::specs::SchemaTable::kind_of))]
pub fn kind_of(row: ElementKind, scope: &LinkedScope<'_>, name: &Name) -> Option<ElementKind>
    ensures child_kind { result ≡ kind_of row scope.now name.now }
{
    kind_by_name(row, element_namespace(scope, name), &name.local)
}

/// Whether a name is the name of a document's root, in the scope of the root's declarations. Does
/// not allocate.
#[tactic(auto, unfolding(crate::specs::SchemaTable::is_root))]
pub fn is_root(usage: Usage, scope: &LinkedScope<'_>, name: &Name) -> bool
    ensures exact { result ≡ is_root usage scope.now name.now }
{
    is_word(
        element_namespace(scope, name),
        own_namespace(root_kind(usage)),
    ) && is_word(name.local.as_str(), root_word(usage))
}
