//! The service addresses of documents, and those that an edit removes and adds (RFC 4826, section
//! 4.4.5).
ghost use Rattle.std.specs.Prelude.{◌≡◌, ◌∷◌, [], IfOk};
ghost use Rattle.std.specs.Str.{bytes_eq};
ghost use Rattle.usage_docs.specs.KeyAttributes.{attribute_name};
ghost use Rattle.usage_docs.specs.Services.{service_uris};
ghost use Rattle.usage_docs.specs.declared.schema_table.Key.TheVariants as keys;
ghost use Rattle.store_core.specs.ValidStates.{document_addresses};
ghost use Rattle.store_core.specs.inner.Addresses.{service_address, service_address_at};
ghost use Rattle.store_core.specs.inner.Addresses.{replaced_addresses, added_addresses_of};
ghost use Rattle.store_core.specs.inner.Addresses.{first_path_number, first_added_number};
ghost use Rattle.store_core.specs.inner.Addresses.{is_uri_name, removed_addresses_of};
ghost use Rattle.store_core.specs.inner.Addresses.{addresses_put_at};
ghost use Rattle.store_core.specs.inner.Addresses.{added_address, added_service_addresses};
ghost use Rattle.store_core.specs.inner.Addresses.{removed_service_addresses};
ghost use Rattle.store_core.specs.inner.Addresses.{address_set_at};

use doc_names::Auid;
use edit_ops::Change;
use std::alloc::{AllocError, Global};
use usage_docs::{Key, services, value_of};
use xml_names::{List, LocalName, Name, Text};
use xml_tree::{Element, Path};

// ---- all of a document

// The addresses of the document's services, in order.
fn service_addresses(alloc: Global, root: &Element) -> Result<List<Text>, AllocError>
    ensures addresses_in_order { IfOk result (λ made. made ≡ service_uris root.now) }
{
    let mut made = List::empty(alloc);
    let mut left = services(alloc, root);
    'each: while let Some(uri) = left.next() {
        made.push(Text::from(alloc, uri)?)?;
    }
    Ok(made)
}

/// The service addresses of a document of this AUID, in order; of the other AUIDs there are none.
pub(crate) fn addresses(alloc: Global, auid: Auid, root: &Element) -> Result<List<Text>, AllocError>
    ensures ok { IfOk result (λ made. made ≡ document_addresses auid root.now) }
{
    match auid {
        Auid::RlsServices => service_addresses(alloc, root),
        Auid::ResourceLists => Ok(List::empty(alloc)),
        Auid::XcapCaps => Ok(List::empty(alloc)),
    }
}

// ---- of one service

// A list of one text.
fn list_of_one(alloc: Global, text: Text) -> Result<List<Text>, AllocError>
    ensures ok { IfOk result (λ made. made ≡ text ∷ []) }
{
    let mut made = List::empty(alloc);
    made.push(text)?;
    Ok(made)
}

// The address of a service.
fn service_address(alloc: Global, service: &Element) -> Result<List<Text>, AllocError>
    ensures ok { IfOk result (λ made. made ≡ service_address service.now) }
{
    match value_of(Key::Uri, service.attrs()) {
        Some(uri) => list_of_one(alloc, Text::from(alloc, uri)?),
        None => Ok(List::empty(alloc)),
    }
}

// The address of the service at the end of a path of one step from the root.
fn service_address_at(
    alloc: Global,
    root: &Element,
    way: &[usize],
) -> Result<List<Text>, AllocError>
    ensures ok { IfOk result (λ made. made ≡ service_address_at root.now way.now) }
{
    let [number] = way else {
        return Ok(List::empty(alloc));
    };
    match root.child_element(*number) {
        Some(service) => service_address(alloc, service),
        None => Ok(List::empty(alloc)),
    }
}

// The addresses of the services that the replacement of the element at this path removes.
fn replaced_addresses(
    alloc: Global,
    root: &Element,
    way: &[usize],
) -> Result<List<Text>, AllocError>
    ensures ok { IfOk result (λ made. made ≡ replaced_addresses root.now way.now) }
{
    match way {
        [] => service_addresses(alloc, root),
        _ => service_address_at(alloc, root, way),
    }
}

// The addresses of the services that an element put at this path adds.
fn addresses_put_at(
    alloc: Global,
    way: &[usize],
    element: &Element,
) -> Result<List<Text>, AllocError>
    ensures ok { IfOk result (λ made. made ≡ addresses_put_at way.now element.now) }
{
    match way {
        [] => service_addresses(alloc, element),
        [_] => service_address(alloc, element),
        _ => Ok(List::empty(alloc)),
    }
}

// The address of the service that an element inserted under the one at this path adds.
fn added_address(alloc: Global, way: &[usize], element: &Element) -> Result<List<Text>, AllocError>
    ensures ok { IfOk result (λ made. made ≡ added_address way.now element.now) }
{
    match way {
        [] => service_address(alloc, element),
        _ => Ok(List::empty(alloc)),
    }
}

// The value, if it is written at a service.
fn address_set_at(alloc: Global, way: &[usize], value: &Text) -> Result<List<Text>, AllocError>
    ensures ok { IfOk result (λ made. made ≡ address_set_at way.now value.now) }
{
    match way {
        [_] => list_of_one(alloc, value.copy(alloc)?),
        _ => Ok(List::empty(alloc)),
    }
}

// Whether it is the local name of the attribute with a service's address.
fn is_uri_local_name(local: &LocalName) -> bool
    ensures exact { result ≡ bytes_eq local.now (attribute_name keys.Uri) }
{
    local.is(Key::Uri.attribute_name())
}

// Whether it is the name of the attribute with a service's address.
fn is_uri_name(name: &Name) -> bool
    ensures exact { result ≡ is_uri_name name.now }
{
    name.prefix.is("") && is_uri_local_name(&name.local)
}

// ---- of an edit

// The addresses that an edit removes from a document of services.
fn removed_service_addresses(
    alloc: Global,
    before: &Element,
    change: &Change,
) -> Result<List<Text>, AllocError>
    ensures ok { IfOk result (λ made. made ≡ removed_service_addresses before.now change.now) }
{
    match change {
        Change::CreateDocument { .. } => Ok(List::empty(alloc)),
        Change::Insert { .. } => Ok(List::empty(alloc)),
        Change::Replace { at, .. } => replaced_addresses(alloc, before, at.numbers()),
        Change::Remove { at } => service_address_at(alloc, before, at.numbers()),
        Change::SetAttr { at, name, .. } => {
            if !is_uri_name(name) {
                return Ok(List::empty(alloc));
            }
            service_address_at(alloc, before, at.numbers())
        }
        Change::DropAttr { .. } => Ok(List::empty(alloc)),
        Change::RemoveDocument => Ok(List::empty(alloc)),
    }
}

// The addresses that an edit adds to a document of services.
fn added_service_addresses(alloc: Global, change: &Change) -> Result<List<Text>, AllocError>
    ensures ok { IfOk result (λ made. made ≡ added_service_addresses change.now) }
{
    match change {
        Change::CreateDocument { .. } => Ok(List::empty(alloc)),
        Change::Insert {
            parent,
            element,
            ..
        } => added_address(alloc, parent.numbers(), element),
        Change::Replace { at, element } => addresses_put_at(alloc, at.numbers(), element),
        Change::Remove { .. } => Ok(List::empty(alloc)),
        Change::SetAttr { at, name, value } => {
            if !is_uri_name(name) {
                return Ok(List::empty(alloc));
            }
            address_set_at(alloc, at.numbers(), value)
        }
        Change::DropAttr { .. } => Ok(List::empty(alloc)),
        Change::RemoveDocument => Ok(List::empty(alloc)),
    }
}

/// The service addresses that an edit removes from a document of this AUID. Only the place of the
/// edit is looked at, unless the root is replaced.
pub(crate) fn removed_addresses(
    alloc: Global,
    auid: Auid,
    before: &Element,
    change: &Change,
) -> Result<List<Text>, AllocError>
    ensures ok { IfOk result (λ made. made ≡ removed_addresses_of auid before.now change.now) }
{
    match auid {
        Auid::RlsServices => removed_service_addresses(alloc, before, change),
        Auid::ResourceLists => Ok(List::empty(alloc)),
        Auid::XcapCaps => Ok(List::empty(alloc)),
    }
}

/// The service addresses that an edit adds to a document of this AUID.
pub(crate) fn added_addresses(
    alloc: Global,
    auid: Auid,
    change: &Change,
) -> Result<List<Text>, AllocError>
    ensures ok { IfOk result (λ made. made ≡ added_addresses_of auid change.now) }
{
    match auid {
        Auid::RlsServices => added_service_addresses(alloc, change),
        Auid::ResourceLists => Ok(List::empty(alloc)),
        Auid::XcapCaps => Ok(List::empty(alloc)),
    }
}

// The first number of a path; 0 of the empty one.
fn first_path_number(path: &Path) -> usize
    ensures exact { result ≡ first_path_number path.now }
{
    match path.numbers() {
        [] => 0,
        [number, ..] => *number,
    }
}

/// The number of the first service that an edit adds, where it adds one.
pub(crate) fn first_added_number(change: &Change) -> usize
    ensures exact { result ≡ first_added_number change.now }
{
    match change {
        Change::CreateDocument { .. } => 0,
        Change::Insert { gap, .. } => *gap,
        Change::Replace { at, .. } => first_path_number(at),
        Change::Remove { .. } => 0,
        Change::SetAttr { at, .. } => first_path_number(at),
        Change::DropAttr { .. } => 0,
        Change::RemoveDocument => 0,
    }
}
