//! The lengths of the prints of names, declarations and attributes.
ghost use Rattle.std.specs.Prelude.{◌≡◌, flat_map, min};
ghost use Rattle.xml_names.specs.Markup.{byte_len, xmlns_name, print_attr, print_decl, print_name};
ghost use Rattle.xml_names.specs.Markup.{quoted_value};

use crate::escaped_lengths::escaped_value_len;
use crate::names::{Attr, Decl, Name, Prefix};
use crate::text::Text;

// The length of a value in its quotes.
#[tactic(auto, using(crate::proofs::PrintLengths::lengths))]
fn quoted_len(value: &Text) -> usize
    ensures exact { result ≡ min (byte_len (quoted_value value.now)) usize.MAX }
{
    escaped_value_len(value.as_str().as_bytes()).saturating_add(2)
}

/// The length in bytes of a name as printed, with its prefix and the colon; `usize::MAX` if it is
/// longer. Does not allocate.
#[tactic(auto, using(crate::proofs::PrintLengths::lengths))]
pub fn name_len(name: &Name) -> usize
    ensures exact { result ≡ min (byte_len (print_name name.now)) usize.MAX }
{
    let local = name.local.as_str().len();
    if name.prefix.is_empty() {
        return local;
    }
    name.prefix
        .as_str()
        .len()
        .saturating_add(local)
        .saturating_add(1)
}

// The length of the name that declares a prefix.
#[tactic(auto, using(crate::proofs::PrintLengths::lengths))]
fn xmlns_name_len(prefix: &Prefix) -> usize
    ensures exact { result ≡ min (byte_len (xmlns_name prefix.now)) usize.MAX }
{
    if prefix.is_empty() {
        return 5;
    }
    prefix.as_str().len().saturating_add(6)
}

/// The length in bytes of a declaration as printed in a tag, with the space before it;
/// `usize::MAX` if it is longer. Does not allocate.
#[tactic(auto, using(crate::proofs::PrintLengths::lengths))]
pub fn decl_len(decl: &Decl) -> usize
    ensures exact { result ≡ min (byte_len (print_decl decl.now)) usize.MAX }
{
    xmlns_name_len(&decl.prefix)
        .saturating_add(quoted_len(&decl.uri))
        .saturating_add(2)
}

/// The length in bytes of an attribute of this name and value as printed in a tag, with the space
/// before it; `usize::MAX` if it is longer. Does not allocate.
#[tactic(auto, using(crate::proofs::PrintLengths::lengths))]
pub fn attr_len(name: &Name, value: &Text) -> usize
    ensures exact { result
        ≡ min (byte_len (print_attr (record { name = name.now; value = value.now }))) usize.MAX }
{
    name_len(name)
        .saturating_add(quoted_len(value))
        .saturating_add(2)
}

/// The length in bytes of all declarations of an element as printed in its tag. Does not
/// allocate.
#[tactic(auto, using(crate::proofs::PrintLengths::lengths))]
pub fn decls_len(decls: &[Decl]) -> usize
    ensures exact { result ≡ min (byte_len (flat_map print_decl decls.now)) usize.MAX }
{
    let mut total = 0usize;
    for decl in decls {
        total = total.saturating_add(decl_len(decl));
    }
    total
}

/// The length in bytes of all attributes of an element as printed in its tag. Does not
/// allocate.
#[tactic(auto, using(crate::proofs::PrintLengths::lengths))]
pub fn attrs_len(attrs: &[Attr]) -> usize
    ensures exact { result ≡ min (byte_len (flat_map print_attr attrs.now)) usize.MAX }
{
    let mut total = 0usize;
    for attr in attrs {
        total = total.saturating_add(attr_len(&attr.name, &attr.value));
    }
    total
}
