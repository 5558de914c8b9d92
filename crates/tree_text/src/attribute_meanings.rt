//! The meanings of the names in a start tag, no two of which may be equal.
ghost use Rattle.std.specs.Prelude.{◌≡◌, option_map, Some};
ghost use Rattle.xml_names.specs.ExpandedNames.{attr_name};
ghost use Rattle.tree_text.specs.readers.Bindings.{AreOpenNamespaces, lists, namespace_number};
ghost use Rattle.tree_text.specs.readers.Meanings.{IsMeaningOf};

use crate::bindings::Bindings;
use crate::names::{declared_prefix, declares_namespace};
use crate::raw_attribute::RawAttribute;
use tree_print::is_empty_prefix;
use xml_names::{LocalName, Name};

/// The meaning of a name in a start tag.
#[derive(Drop, PartialEq, Eq, PartialOrd, Ord)]
pub enum Meaning<'a> {
    /// A declaration, with the prefix that it declares.
    Declared(&'a str),
    /// An attribute, with its local name and the number of its namespace.
    Named(&'a LocalName, Option<usize>),
}

/// The number of the namespace of an attribute of this name.
fn attr_number(here: &Bindings, name: &Name) -> Option<usize>
    requires { AreOpenNamespaces here.now }
    ensures exact { option_map Some result
        ≡ option_map (namespace_number here.now.namespaces)
        (attr_name (lists here.now) name.now).uri }
{
    if is_empty_prefix(&name.prefix) {
        return None;
    }
    here.namespace(&name.prefix)
}

/// The meaning of a raw attribute, in the scope inside its tag.
pub fn meaning_of<'a>(here: &Bindings, raw_attribute: &'a RawAttribute<'_>) -> Meaning<'a>
    requires { AreOpenNamespaces here.now }
    ensures means_as_written { IsMeaningOf here.now raw_attribute.now result }
{
    if declares_namespace(&raw_attribute.name) {
        return Meaning::Declared(declared_prefix(raw_attribute));
    }
    Meaning::Named(
        &raw_attribute.name.local,
        attr_number(here, &raw_attribute.name),
    )
}
