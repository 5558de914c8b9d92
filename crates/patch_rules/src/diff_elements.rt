//! Elements and attributes of diff documents, and a diff document without `document` elements (RFC
//! 5874, section 3).
ghost use Rattle.std.specs.Prelude.{◌≡◌, [], ◌∷◌, ◌++◌, IfOk, OnOk, chars, codes};
ghost use Rattle.edit_ops.specs.DiffOperations.{plain_attr};
ghost use Rattle.xml_names.specs.ExpandedNames.{name_from_parts};
ghost use Rattle.xml_names.specs.Scopes.{decl_from_parts};
ghost use Rattle.xml_tree.specs.Tree.{last, tree_of};
ghost use Rattle.patch_rules.specs.Notices.{diff, diff_uri};

use std::alloc::{AllocError, Global};
use xml_names::{Attr, Decl, LocalName, Name, Prefix, Text};
use xml_tree::Element;

// The namespace of diff documents (RFC 5874, section 7.2).
const DIFF_URI: &str = "urn:ietf:params:xml:ns:xcap-diff";

/// An empty element in the namespace of diff documents, with the given prefix.
///
/// # Errors
/// `AllocError` when out of memory.
pub fn new_diff_element(alloc: Global, prefix: &Prefix, word: &str) -> Result<Element, AllocError>
    ensures ok { IfOk result
        (λ made. made ≡ tree_of (name_from_parts prefix.now (chars word.now)) [] [] (last [])) }
{
    let prefix = prefix.copy(alloc)?;
    let local = LocalName::from(alloc, word)?;
    Ok(Element::new(alloc, Name { prefix, local }))
}

/// Gives an element an attribute without prefix, after its others.
///
/// # Errors
/// `AllocError` when out of memory.
#[tactic(auto, using(crate::proofs::Words::words))]
pub fn push_plain_attr(
    alloc: Global,
    element: &mut Element,
    word: &str,
    value: Text,
) -> Result<(), AllocError>
    ensures appended { OnOk result
        (element.new ≡ record element.old {
          attrs = element.old.attrs ++ plain_attr (chars word.now) value ∷ [];
        }) }
{
    let prefix = Prefix::from(alloc, "")?;
    let local = LocalName::from(alloc, word)?;
    let name = Name { prefix, local };
    element.push_attr(Attr { name, value })
}

// The address of the server's root, as a diff document has it.
fn root_with_slash(alloc: Global, root: &str) -> Result<Text, AllocError>
    ensures ok { IfOk result (λ text. text ≡ chars root.now ++ codes "/") }
{
    let mut text = Text::from(alloc, root)?;
    text.push('/')?;
    Ok(text)
}

// Declares the namespace of diff documents, and names the server's root.
fn declare_diff_root(
    alloc: Global,
    notice: &mut Element,
    prefix: &Prefix,
    root: &str,
) -> Result<(), AllocError>
    ensures declares_and_names { OnOk result (notice.new ≡ record notice.old {
      decls = notice.old.decls ++ decl_from_parts prefix.now diff_uri ∷ [];
      attrs = notice.old.attrs ++ plain_attr (codes "xcap-root") (chars root.now ++ codes "/") ∷ [];
    }) }
{
    let prefix = prefix.copy(alloc)?;
    let uri = Text::from(alloc, DIFF_URI)?;
    notice.push_decl(Decl { prefix, uri })?;
    push_plain_attr(alloc, notice, "xcap-root", root_with_slash(alloc, root)?)
}

/// A diff document without `document` elements, under the server's root, which is written without
/// its last `/`.
///
/// # Errors
/// `AllocError` when out of memory.
pub fn empty_notice(alloc: Global, prefix: &Prefix, root: &str) -> Result<Element, AllocError>
    ensures notice_without_documents { IfOk result
        (λ made. made ≡ diff prefix.now (chars root.now) []) }
{
    let mut made = new_diff_element(alloc, prefix, "xcap-diff")?;
    declare_diff_root(alloc, &mut made, prefix, root)?;
    Ok(made)
}
