//! The printed length of services as the index lists them, counted before they are made.
ghost use Rattle.std.specs.Prelude.{◌≡◌, [], ◌∷◌, map, min, IfOk};
ghost use Rattle.xml_names.specs.Markup.{byte_len};
ghost use Rattle.xml_tree.specs.Print.{print};
ghost use Rattle.xml_names.specs.Scopes.{AreSortedByPrefix, in_scope_bindings};
ghost use Rattle.xml_tree.specs.declared.tree.Node.TheVariants.{Elem};
ghost use Rattle.usage_docs.specs.Services.{service_elements, listed_service};
ghost use Rattle.usage_docs.specs.readers.ServiceNodes.{elems_len, listed_nodes};
ghost use Rattle.usage_docs.specs.readers.ServiceLengths.{CountsBindings, bindings_of_prefix};
ghost use Rattle.usage_docs.specs.readers.ServiceLengths.{decls_len, hidden_bindings};

use crate::service_index::{is_service, listed_service};
use std::alloc::{AllocError, Global};
use std::collections::BTreeSet;
use xml_names::{Decl, IndexedDecls, Prefix, decl_len, decls_len};
use xml_tree::{Element, LinkedScope, Node, Scope, printed_len};

/// The root of a document whose services are counted.
#[derive(Drop)]
struct Outer<'a> {
    // What the root declares.
    decls: &'a [Decl],
    // What is bound inside it.
    bindings: Vec<Decl>,
    // The printed length of these bindings.
    len: usize,
}

impl<'a> Outer<'a> {
    // The root with these declarations, for counting its services.
    fn new(alloc: Global, decls: &'a [Decl]) -> Result<Outer<'a>, AllocError>
        ensures counts_from { IfOk result CountsBindings }
        ensures given_decls { IfOk result (λ made. made.decls.now ≡ decls.now) }
    {
        let bindings = Scope::empty().with(decls).bindings(alloc)?;
        let len = decls_len(&bindings);
        Ok(Outer {
            decls,
            bindings,
            len,
        })
    }
}

// The printed length of the binding of a prefix, if there is one; else 0.
fn binding_len(bindings: &[Decl], prefix: &Prefix) -> usize
    requires { AreSortedByPrefix bindings.now }
    ensures exact { result
        ≡ min (decls_len (bindings_of_prefix prefix.now bindings.now)) usize.MAX }
{
    match bindings.binary_search_by(|binding| binding.prefix.cmp(prefix)) {
        Ok(place) => decl_len(&bindings[place]),
        Err(_) => 0,
    }
}

// The printed length of the bindings whose prefixes these declarations redeclare. Each prefix is
// looked up once.
fn hidden_len(alloc: Global, bindings: &[Decl], own: &[Decl]) -> Result<usize, AllocError>
    requires { AreSortedByPrefix bindings.now }
    ensures ok { IfOk result
        (λ len. len ≡ min (decls_len (hidden_bindings own.now bindings.now)) usize.MAX) }
{
    let mut seen = BTreeSet::new(alloc);
    let mut total = 0usize;
    for decl in own {
        if seen.insert(&decl.prefix)? {
            total = total.saturating_add(binding_len(bindings, &decl.prefix));
        }
    }
    Ok(total)
}

// The printed length of all that these declarations bind.
fn bindings_len(alloc: Global, own: &[Decl]) -> Result<usize, AllocError>
    ensures ok { IfOk result
        (λ len. len ≡ min (decls_len (in_scope_bindings (own.now ∷ []))) usize.MAX) }
{
    let bindings = Scope::empty().with(own).bindings(alloc)?;
    Ok(decls_len(&bindings))
}

// The printed length of a service as the index lists it, which is made for that.
fn built_service_len(
    alloc: Global,
    outer: &Outer<'_>,
    child_element: &Element,
) -> Result<usize, AllocError>
    ensures ok { IfOk result
        (λ len. len ≡ min (byte_len
        (print (listed_service (outer.now.decls.now ∷ []) child_element.now))) usize.MAX) }
{
    let made = listed_service(alloc, outer.decls, child_element)?;
    Ok(printed_len(&made))
}

// The printed length of a service as the index lists it: the root's bindings are added, the ones
// that the service hides are subtracted, and its own bindings replace its declarations.
fn service_len(
    alloc: Global,
    outer: &Outer<'_>,
    child_element: &Element,
) -> Result<usize, AllocError>
    requires { CountsBindings outer.now }
    ensures ok { IfOk result
        (λ len. len ≡ min (byte_len
        (print (listed_service (outer.now.decls.now ∷ []) child_element.now))) usize.MAX) }
{
    let own = child_element.decls();
    let whole = printed_len(child_element).saturating_add(outer.len);
    if own.is_empty() {
        return Ok(whole);
    }
    // Nothing can be subtracted from a saturated sum.
    if whole == usize::MAX {
        return built_service_len(alloc, outer, child_element);
    }
    let hidden_bindings = hidden_len(alloc, &outer.bindings, own)?;
    let shown = bindings_len(alloc, own)?;
    Ok((whole - hidden_bindings - decls_len(own)).saturating_add(shown))
}

// The printed length of a node as the index lists it, if it is a service; else 0.
fn node_len(
    alloc: Global,
    scope: &LinkedScope<'_>,
    outer: &Outer<'_>,
    node: &Node,
) -> Result<usize, AllocError>
    requires counts_from { CountsBindings outer.now }
    requires scope_is_outer { scope.now ≡ outer.now.decls.now ∷ [] }
    ensures ok { IfOk result
        (λ len. len ≡ min (elems_len (listed_nodes scope.now (node.now ∷ []))) usize.MAX) }
{
    if let Node::Elem(child_element) = node {
        if is_service(alloc, scope, child_element) {
            return service_len(alloc, outer, child_element);
        }
    }
    Ok(0)
}

// The printed length of the services of a root, in the scope inside it.
fn nodes_len(
    alloc: Global,
    scope: &LinkedScope<'_>,
    outer: &Outer<'_>,
    root: &Element,
) -> Result<usize, AllocError>
    requires counts_from { CountsBindings outer.now }
    requires same_declarations { outer.now.decls.now ≡ root.now.decls }
    requires scope_is_outer { scope.now ≡ outer.now.decls.now ∷ [] }
    ensures ok { IfOk result (λ len.
        len ≡ min (elems_len (map Elem (service_elements root.now))) usize.MAX) }
{
    let mut total = 0usize;
    for node in root.nodes() {
        total = total.saturating_add(node_len(alloc, scope, outer, node)?);
    }
    Ok(total)
}

/// The printed length of a document's services as the index lists them; `usize::MAX` if it is
/// longer. What all services have in common is counted once.
///
/// # Errors
/// `AllocError` when out of memory.
pub(crate) fn listed_len(alloc: Global, root: &Element) -> Result<usize, AllocError>
    ensures ok { IfOk result (λ len.
        len ≡ min (elems_len (map Elem (service_elements root.now))) usize.MAX) }
{
    let declared = IndexedDecls::with_index(alloc, root.decls())?;
    let outer = Outer::new(alloc, root.decls())?;
    nodes_len(alloc, &LinkedScope::empty().inside(&declared), &outer, root)
}
