//! The documents of services that the index of all services lists (RFC 4826, section 4.4.7).
ghost use Rattle.std.specs.Prelude.{◌≡◌, ◌≤◌, [], map, All, IfOk, None, if◌then◌else◌};
ghost use Rattle.std.specs.Str.{bytes_eq};
ghost use Rattle.std.specs.Option.{option_map};
ghost use Rattle.xml_names.specs.declared.limits.TheConstants.{MAX_LEVELS};
ghost use Rattle.xml_tree.specs.Tree.{Tree, height};
ghost use Rattle.store_core.specs.Indexes.{AreIndexTrees, index, entry_if_listed, home_entry};
ghost use Rattle.store_core.specs.inner.ServiceListing.{with_entries, index_entries};
ghost use Rattle.store_core.specs.inner.ServiceListing.{borrowed_pairs};

use crate::Store;
use crate::step::Documents;
use doc_names::{Auid, DocId, Home};
use std::alloc::{AllocError, Global};
use std::collections::BTreeMap;
use xml_names::Text;
use xml_tree::Element;

// The user who owns the home.
fn user_of(home: &Home) -> Option<&Text>
    ensures indexed_user { (t : Tree)
        → option_map (λ user. (user.now, t)) result ≡ home_entry home.now t }
{
    match home {
        Home::Global => None,
        Home::User(xui) => Some(xui),
    }
}

// The user whose document has the name `index`.
#[tactic(auto, unfolding(crate::specs::Indexes::index))]
fn user_of_index(doc: &DocId) -> Option<&Text>
    ensures indexed_user { (t : Tree)
        → option_map (λ user. (user.now, t)) result
        ≡ (if bytes_eq doc.now.name index then home_entry doc.now.home t else None) }
{
    if !doc.name.is("index") {
        return None;
    }
    user_of(&doc.home)
}

// The user of a document, if the index lists it.
fn listed_user(doc: &DocId) -> Option<&Text>
    ensures indexed_user { (t : Tree)
        → option_map (λ user. (user.now, t)) result
        ≡ entry_if_listed doc.now.auid (bytes_eq doc.now.name index) doc.now.home t }
{
    match doc.auid {
        Auid::ResourceLists => None,
        Auid::RlsServices => user_of_index(doc),
        Auid::XcapCaps => None,
    }
}

// The trees of the documents that the index lists, by their users' names.
fn trees_by_user<'a>(
    alloc: Global,
    documents: &'a Documents,
) -> Result<BTreeMap<&'a Text, &'a Element>, AllocError>
    ensures listed_trees { IfOk result
        (λ made. borrowed_pairs made.entries
        ≡ with_entries [] (index_entries documents.now.entries)) }
{
    let mut made = BTreeMap::new(alloc);
    for (doc, entry) in documents.iter() {
        if let Some(user) = listed_user(doc) {
            made.insert(user, entry.tree.root())?;
        }
    }
    Ok(made)
}

impl Store {
    /// The trees of the users' documents of services with the name `index`, in the order of the
    /// users' names by code point (RFC 4826, section 4.4.7).
    ///
    /// # Errors
    /// `AllocError` when out of memory.
    pub fn user_indexes(&self, alloc: Global) -> Result<Vec<&Element>, AllocError>
        ensures index_trees { IfOk result
            (λ made. AreIndexTrees self.now.content (map (λ e. e.now) made.items)) }
        ensures within_levels { IfOk result
            (λ made. All (λ e. height e.now ≤ MAX_LEVELS) made.items) }
    {
        let trees = trees_by_user(alloc, &self.documents)?;
        trees.into_values().collect(alloc)
    }
}
