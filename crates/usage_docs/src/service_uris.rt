//! The addresses of a document's services (RFC 4826, section 4).
ghost use Rattle.std.specs.Prelude.{◌≡◌, ◌∷◌, [], chars, option_map};
ghost use Rattle.std.specs.Iterator.{YieldsFirstBy, item_count};
ghost use Rattle.usage_docs.specs.Services.{service_uri, service_uris};
ghost use Rattle.usage_docs.specs.readers.ServiceUris.{node_uri, remaining_uris};

use crate::attributes::value_of;
use crate::schema_table::Key;
use crate::service_index::is_service;
use std::alloc::Global;
use xml_names::{IndexedDecls, index_decls};
use xml_tree::{Element, LinkedScope, Node};

/// The addresses of the services that a document has, in order.
#[derive(Drop)]
pub struct ServiceUris<'a> {
    alloc: Global,
    declared: IndexedDecls<'a>,
    nodes: &'a [Node],
}

/// The `uri` of each service of a document, in order.
pub fn services(alloc: Global, root: &Element) -> ServiceUris<'_>
    ensures addresses_in_order { remaining_uris result ≡ service_uris root.now }
{
    ServiceUris {
        alloc,
        declared: index_decls(alloc, root.decls()),
        nodes: root.nodes(),
    }
}

// The address of a child of a root with these declarations, if it is a service.
#[tactic(auto, unfolding(crate::specs::Services::service_uri))]
fn service_uri<'a>(
    alloc: Global,
    root: &IndexedDecls<'_>,
    child_element: &'a Element,
) -> Option<&'a str>
    ensures exact { option_map (λ uri. chars uri.now) result
        ≡ service_uri (root.now ∷ []) child_element.now }
{
    if is_service(alloc, &LinkedScope::empty().inside(root), child_element) {
        value_of(Key::Uri, child_element.attrs())
    } else {
        None
    }
}

// The address of a node, if it is a service.
fn node_uri<'a>(alloc: Global, root: &IndexedDecls<'_>, node: &'a Node) -> Option<&'a str>
    ensures exact { option_map (λ uri. chars uri.now) result ≡ node_uri (root.now ∷ []) node.now }
{
    match node {
        Node::Elem(child_element) => service_uri(alloc, root, child_element),
        Node::Chars(_) => None,
        Node::Comment(_) => None,
    }
}

impl<'a> Iterator for ServiceUris<'a> {
    type Item = &'a str;

    ghost next_gives = { YieldsFirstBy (λ uri. chars uri.now) remaining_uris };

    ghost remaining = { item_count remaining_uris };

    fn next(&mut self) -> Option<&'a str> {
        while let Some((node, others)) = self.nodes.split_first() {
            self.nodes = others;
            if let Some(uri) = node_uri(self.alloc, &self.declared, node) {
                return Some(uri);
            }
        }
        None
    }
}
