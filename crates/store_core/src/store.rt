//! The store of all documents.
ghost use Rattle.std.specs.Prelude.{◌≡◌, ℕ, ◌+◌, ◌≤◌, length, sum_by, IfOk, IfSome, OnOk};
ghost use Rattle.std.specs.Option.{option_map};
ghost use Rattle.xml_names.specs.declared.limits.TheConstants.{MAX_LEVELS};
ghost use Rattle.xml_tree.specs.Tree.{Tree, height};
ghost use Rattle.usage_docs.specs.Services.{document_len};
ghost use Rattle.store_core.specs.State.{State};
ghost use Rattle.store_core.specs.Contents.{Represents, first_contents, first_contents_within};
ghost use Rattle.store_core.specs.declared.limits.TheConstants.{MAX_BYTE_LIMIT};
ghost use Rattle.store_core.specs.ValidStates.{AreCountable, IsSoundDocumentFor, IsValidState};
ghost use Rattle.doc_names.specs.Usages.{usage_of};
ghost use Rattle.store_core.specs.DocumentChanges.{find_document, stored_id};

use crate::limits::Limits;
use crate::registry::Registry;
use crate::step::{Documents, find_entry};
use doc_names::DocId;
use indexmap::IndexMap;
use std::alloc::{AllocError, Global};
use std::marker::Model;
use xml_tree::Element;

/// All documents in order of their creation, each with its etag and the retained change records.
/// Contracts see them and the next number; the contents of a store always represent a valid state.
#[derive(Drop)]
pub struct Store {
    pub(crate) alloc: Global,
    pub(crate) documents: Documents,
    pub(crate) services: Registry,
    pub(crate) limits: Limits,
    pub(crate) last: u64,
    pub(crate) total: u64,
}

impl Model for Store {
    ghost use Rattle.std.specs.Prelude.{◌+◌};
    ghost use Rattle.store_core.specs.StoreViews.{StoreView};
    ghost use Rattle.indexmap.specs.IndexMap.{spare};
    ghost use Rattle.store_core.specs.inner.StoreMemory.{IsConsistentStore, contents_view};
    ghost use Rattle.store_core.specs.inner.StoreMemory.{unshared_flags};
    ghost use Rattle.std.specs.Coded.{codes};
    ghost use Rattle.xml_tree.specs.inner.TreeCodes.{tree_code};
    ghost use Rattle.doc_names.specs.contracts.doc_id.DocId as d;
    ghost use Rattle.edit_ops.specs.contracts.change.Change as c;
    ghost use Rattle.store_core.specs.contracts.limits.Limits as l;

    ghost Value = { StoreView };

    ghost coded = { Prim.hlevel (codes, tree_code, d.the_row.coded, c.the_row.coded, l.the_row.coded) };

    ghost view = { λ s. record {
      content = contents_view s.documents.entries s.limits s.last;
      room = record {
        documents = spare s.documents;
        services = spare s.services;
        trees = unshared_flags s.documents.entries;
      };
    } };

    ghost invariant = { λ s.
        IsConsistentStore s.documents.entries s.services.entries s.limits s.last s.total };
}

impl Store {
    /// A store without documents, under the default limits, whose first change gets the number
    /// `first`. Does not allocate.
    ///
    /// # Errors
    /// None: it always returns a store.
    pub fn new(alloc: Global, first: u64) -> Result<Store, AllocError>
        requires { 1 ≤ first }
        ensures begins_without_documents { IfOk result (λ s. s.content ≡ first_contents first) }
    {
        Store::within(alloc, first, Limits::usual())
    }

    /// A store without documents, under these limits, whose first change gets the number `first`.
    /// Does not allocate.
    ///
    /// # Errors
    /// None: it always returns a store.
    pub fn within(alloc: Global, first: u64, limits: Limits) -> Result<Store, AllocError>
        requires number_given { 1 ≤ first }
        requires limits_countable { AreCountable limits }
        ensures begins_without_documents { IfOk result
            (λ s. s.content ≡ first_contents_within limits first) }
    {
        Ok(Store {
            alloc,
            documents: IndexMap::new(alloc),
            services: IndexMap::new(alloc),
            limits,
            last: first - 1,
            total: 0,
        })
    }

    /// The limits. Does not allocate.
    pub fn limits(&self) -> Limits
        ensures exact { result ≡ self.now.content.limits }
    {
        self.limits
    }

    /// The tree and the etag of a document: None exactly where it isn't stored. The tree is sound
    /// for its application usage, with at most `MAX_LEVELS` levels and, printed, at most
    /// `MAX_DOCUMENT_BYTES` bytes. Does not allocate.
    pub fn get(&self, doc: &DocId) -> Option<(&Element, u64)>
        ensures stored_version { option_map (λ x. (x.0.now, x.1)) result
            ≡ option_map {U = Tree × ℕ} (λ h. (h.tree, h.tag))
            (find_document stored_id self.now.content.documents doc.now) }
        ensures within_levels { IfSome result (λ x. height x.0.now ≤ MAX_LEVELS) }
        ensures tree_is_sound { IfSome result
            (λ x. IsSoundDocumentFor (usage_of doc.now.auid) x.0.now) }
    {
        let entry = find_entry(&self.documents, doc)?;
        Some((entry.tree.root(), entry.tag))
    }

    /// The number of the last change. Does not allocate.
    pub fn last_number(&self) -> u64
        ensures below_next { result + 1 ≡ self.now.content.next }
    {
        self.last
    }

    /// The number of documents. Does not allocate.
    pub fn count(&self) -> usize
        ensures exact { result ≡ length self.now.content.documents }
    {
        self.documents.len()
    }

    /// The number of bytes of all printed documents, at most `MAX_BYTE_LIMIT`. Does not allocate.
    pub fn total(&self) -> u64
        ensures exact { result ≡ sum_by (λ h. document_len h.tree) self.now.content.documents }
        ensures stays_countable { result ≤ MAX_BYTE_LIMIT }
    {
        self.total
    }

    /// A law: the contents of a store represent a valid state.
    pub fn represents_valid_state(&self)
        ensures valid_state { (m : State) × Represents self.now.content m × IsValidState m }
    {
        let _last = self.last;
    }

    /// Reserves memory for one more document and this many service addresses.
    pub(crate) fn reserve(&mut self, addresses: usize) -> Result<(), AllocError>
        ensures contents_unchanged { self.new.content ≡ self.old.content }
        ensures keeps_spare { OnOk result
            ((1 ≤ self.new.room.documents) × (addresses ≤ self.new.room.services)) }
        ensures same_trees { self.new.room.trees ≡ self.old.room.trees }
    {
        self.documents.reserve(1)?;
        self.services.reserve(addresses)
    }
}
