//! The index of all services (RFC 4826, sections 4.4.7 and 4.4.8).
ghost use Rattle.std.specs.Prelude.{◌≤◌, IfErr, IfOk};
ghost use Rattle.xml_names.specs.declared.limits.TheConstants.{MAX_LEVELS};
ghost use Rattle.xml_names.specs.ReadErrors.{FaultSatisfies};
ghost use Rattle.xml_tree.specs.Tree.{height};
ghost use Rattle.usage_docs.specs.Services.{document_len};
ghost use Rattle.usage_docs.specs.declared.service_index.TheConstants.{INDEX_LIMIT};
ghost use Rattle.xcap_machine.specs.Resources.{IsIndexOfServices};
ghost use Rattle.xcap_get.specs.inner.FoundResources.{HasLongIndex};

use std::alloc::Global;
use store_core::Store;
use usage_docs::{IndexBuilder, IndexFault};
use xml_names::ReadError;
use xml_tree::Element;

/// The index of the services of all stored documents.
///
/// # Errors
/// `TooLarge` exactly where the index would be beyond its limit, else `NoMemory`.
pub fn index_of_services(alloc: Global, store: &Store) -> Result<Element, ReadError<IndexFault>>
    ensures lists_services { IfOk result (λ root. IsIndexOfServices store.now.content root) }
    ensures within_limit { IfOk result (λ root. document_len root ≤ INDEX_LIMIT) }
    ensures found_within_levels { IfOk result (λ root. height root ≤ MAX_LEVELS) }
    ensures refused_beyond_limit { IfErr result
        (λ error. FaultSatisfies (λ _. HasLongIndex store.now.content) error) }
{
    let mut maker = IndexBuilder::new(alloc)?;
    for root in store.user_indexes(alloc)? {
        maker.add(root)?;
    }
    Ok(maker.finish())
}
