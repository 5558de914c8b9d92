//! The index of the services of many documents (RFC 4826, section 4).
ghost use Rattle.std.specs.Prelude.{◌≡◌, ◌≤◌, ◌∷◌, [], ◌++◌, map, IfOk, IfErr, OnOk, OnErr};
ghost use Rattle.xml_tree.specs.declared.tree.Node.TheVariants.{Elem};
ghost use Rattle.usage_docs.specs.Services.{is_service, listed_service, service_elements, index_of};
ghost use Rattle.usage_docs.specs.readers.ServiceNodes.{listed_nodes};
ghost use Rattle.usage_docs.specs.inner.ServiceIndexes.{index_len_with};

use crate::element_maker::{declaration, name};
use crate::schema_table::{ElementKind, kind_of, services_namespace};
use crate::service_lengths::listed_len;
use std::alloc::{AllocError, Global};
use std::marker::Model;
use thiserror::Error;
use xml_names::{Decl, IndexedDecls, ReadError};
use xml_tree::{Element, LinkedScope, Node, Scope, copy_tree};

/// Why a document's services can't be added to an index.
#[derive(Clone, Copy, Debug, Drop, PartialEq, Eq, Error)]
pub enum IndexFault {
    /// The printed index would have this many bytes, which is too many.
    #[error("{0} bytes are too many")]
    TooLarge(usize),
}

/// The greatest length of the printed index, in bytes: 16,777,216. In place of a longer
/// one stands a 507.
pub const INDEX_LIMIT: usize = 16_777_216;

// The length of the index without services.
const EMPTY_LEN: usize = 106;

// The length of everything around the services.
const AROUND_LEN: usize = 124;

/// An index being built. Contracts see its services.
#[derive(Drop)]
pub struct IndexBuilder {
    alloc: Global,
    root: Element,
    inner: usize,
}

impl Model for IndexBuilder {
    ghost use Rattle.std.specs.Prelude.{List};
    ghost use Rattle.xml_tree.specs.inner.TreeCodes.{tree_code};
    ghost use Rattle.std.specs.Coded.{coded_list};
    ghost use Rattle.xml_tree.specs.Tree.{Tree};

    ghost Value = { List Tree };

    ghost coded = { coded_list tree_code };

    ghost use Rattle.xml_tree.specs.Tree.{child_elements_of};
    ghost use Rattle.usage_docs.specs.inner.ServiceIndexes.{IsIndex};

    ghost view = { λ m. child_elements_of m.root };

    ghost invariant = { λ m. IsIndex m.root m.inner };
}

/// Whether a child of a root, in the scope inside the root, is a service. Does not allocate.
pub(crate) fn is_service(alloc: Global, scope: &LinkedScope<'_>, child_element: &Element) -> bool
    ensures exact { result ≡ is_service scope.now child_element.now }
{
    let declared = IndexedDecls::new(alloc, child_element.decls());
    let inside = (&*scope).inside(&declared);
    kind_of(ElementKind::RlsServices, &inside, child_element.name()).is_some()
}

/// A service of a root with these declarations, as the index lists it.
pub(crate) fn listed_service(
    alloc: Global,
    decls: &[Decl],
    child_element: &Element,
) -> Result<Element, AllocError>
    ensures ok { IfOk result (λ made. made ≡ listed_service (decls.now ∷ []) child_element.now) }
{
    let scope = Scope::empty().with(decls);
    let bindings = scope.with(child_element.decls()).bindings(alloc)?;
    let mut made = copy_tree(alloc, child_element)?;
    let _ = made.exchange_decls(bindings);
    Ok(made)
}

// Appends a node of a root with these declarations to services as the index lists them, if it is
// a service.
fn push_listed(
    alloc: Global,
    decls: &[Decl],
    scope: &LinkedScope<'_>,
    node: &Node,
    made: &mut Vec<Node>,
) -> Result<(), AllocError>
    requires { scope.now ≡ decls.now ∷ [] }
    ensures appended { OnOk result
        (made.new.items ≡ made.old.items ++ listed_nodes scope.now (node.now ∷ [])) }
{
    if let Node::Elem(child_element) = node {
        if is_service(alloc, scope, child_element) {
            made.push(Node::Elem(listed_service(alloc, decls, child_element)?))?;
        }
    }
    Ok(())
}

// The services of a root, in the scope inside it, as the index lists them.
fn service_nodes(
    alloc: Global,
    scope: &LinkedScope<'_>,
    root: &Element,
) -> Result<Vec<Node>, AllocError>
    requires { scope.now ≡ root.now.decls ∷ [] }
    ensures ok { IfOk result (λ made. made.items ≡ map Elem (service_elements root.now)) }
{
    let mut made = Vec::new(alloc);
    for node in root.nodes() {
        push_listed(alloc, root.decls(), scope, node, &mut made)?;
    }
    Ok(made)
}

// The services of a document, as the index lists them.
fn service_elements(alloc: Global, root: &Element) -> Result<Vec<Node>, AllocError>
    ensures ok { IfOk result (λ made. made.items ≡ map Elem (service_elements root.now)) }
{
    let declared = IndexedDecls::with_index(alloc, root.decls())?;
    service_nodes(alloc, &LinkedScope::empty().inside(&declared), root)
}

// The length of an index whose services have this length.
fn index_len_with(inner: usize) -> usize
    ensures exact { result ≡ index_len_with inner }
{
    if inner == 0 {
        EMPTY_LEN
    } else {
        inner.saturating_add(AROUND_LEN)
    }
}

impl IndexBuilder {
    ghost use Rattle.xml_names.specs.ReadErrors.{FaultSatisfies};
    ghost use Rattle.xml_tree.specs.Print.{print};
    ghost use Rattle.usage_docs.specs.Services.{service_elements, index_of, index_text, index_len};
    ghost use Rattle.usage_docs.specs.Services.{RefusesServices};
    ghost use Rattle.usage_docs.specs.declared.service_index.TheConstants.{INDEX_LIMIT};

    /// An index without services.
    ///
    /// # Errors
    /// `AllocError` when out of memory.
    pub fn new(alloc: Global) -> Result<IndexBuilder, AllocError>
        ensures ok { IfOk result (λ made. made ≡ []) }
    {
        let root = empty_index(alloc)?;
        Ok(IndexBuilder {
            alloc,
            root,
            inner: 0,
        })
    }

    /// Appends the services of an rls-services document. Their length is counted first, so none
    /// are made where they would be too long.
    ///
    /// # Errors
    /// `TooLarge` exactly when the printed index would have more than `INDEX_LIMIT` bytes, with
    /// their number; else `NoMemory`. The index is then unchanged.
    pub fn add(&mut self, root: &Element) -> Result<(), ReadError<IndexFault>>
        ensures appended { OnOk result (self.new ≡ self.old ++ service_elements root.now) }
        ensures err_unchanged { OnErr result (self.new ≡ self.old) }
        ensures at_most_limit { OnOk result (index_len self.new ≤ INDEX_LIMIT) }
        ensures refused_too_long { IfErr result
            (λ error. FaultSatisfies
            (RefusesServices (self.old ++ service_elements root.now)) error) }
    {
        let inner = self.inner.saturating_add(listed_len(self.alloc, root)?);
        let len = index_len_with(inner);
        if len > INDEX_LIMIT {
            return Err(ReadError::Fault(IndexFault::TooLarge(len)));
        }
        let services = service_elements(self.alloc, root)?;
        let end = self.root.nodes().len();
        self.root.exchange_nodes(end, end, services)?;
        self.inner = inner;
        Ok(())
    }

    /// The index. Does not allocate.
    pub fn finish(self) -> Element
        ensures exact { result ≡ index_of self }
        ensures prints_text { print result ≡ index_text self }
    {
        let IndexBuilder { root, .. } = self;
        root
    }
}

// The index without services.
#[tactic(auto, unfolding(crate::specs::Services::index_name, crate::specs::Services::index_decls))]
fn empty_index(alloc: Global) -> Result<Element, AllocError>
    ensures ok { IfOk result (λ made. made ≡ index_of []) }
{
    let mut root = Element::new(alloc, name(alloc, "rls", "rls-services")?);
    root.push_decl(declaration(alloc, "rls", services_namespace())?)?;
    Ok(root)
}
