//! The registry of service addresses: which document has each, by the number of the document's
//! creation (RFC 4826, section 4.4.5).
ghost use Rattle.std.specs.Prelude.{◌≡◌, ℕ, ◌≤◌, List, position, vec_len, Some, None};
ghost use Rattle.std.specs.Prelude.{if◌then◌else◌};
ghost use Rattle.std.specs.Set.{is_member};
ghost use Rattle.std.specs.Str.{bytes_eq};
ghost use Rattle.indexmap.specs.IndexMap.{spare};
ghost use Rattle.store_core.specs.inner.StoreMemory.{is_held_by_other, registered_number};

use indexmap::IndexMap;
use xml_names::Text;

pub(crate) type Registry = IndexMap<Text, u64>;

// ---- look-ups

// Whether a document other than the one with this number has an address.
fn is_taken(registry: &Registry, uri: &Text, own: Option<u64>) -> bool
    ensures exact { result ≡ is_held_by_other own (registered_number registry.now.entries uri.now) }
{
    let Some(holder) = registry.get(uri) else {
        return false;
    };
    match own {
        None => true,
        Some(number) => number != *holder,
    }
}

/// The index of the first of these addresses that a document other than the one with this number
/// has.
pub(crate) fn first_conflict(registry: &Registry, uris: &[Text], own: Option<u64>) -> Option<usize>
    ensures exact { result
        ≡ position
        (λ uri. is_held_by_other own (registered_number registry.now.entries uri)) uris.now }
{
    uris.iter().position(|uri| is_taken(registry, uri, own))
}

// ---- changes

/// Adds addresses, for which memory is reserved.
pub(crate) fn register_addresses(registry: &mut Registry, mut uris: Vec<Text>, number: u64)
    requires { vec_len uris ≤ spare registry.old }
    ensures registers_these { (uri : List ℕ)
        → registered_number registry.new.entries uri
        ≡ (if is_member bytes_eq uris.items uri then Some number
        else registered_number registry.old.entries uri) }
{
    'each: while let Some(uri) = uris.pop() {
        registry.insert(uri, number).unwrap();
    }
}

/// Removes addresses.
pub(crate) fn release_addresses(registry: &mut Registry, uris: &[Text])
    ensures frees_addresses { (uri : List ℕ)
        → registered_number registry.new.entries uri
        ≡ (if is_member bytes_eq uris.now uri then None else registered_number registry.old.entries
        uri) }
    ensures keeps_spare { spare registry.old ≤ spare registry.new }
{
    for uri in uris {
        registry.swap_remove(uri);
    }
}
