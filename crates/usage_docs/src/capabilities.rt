//! The capabilities document (RFC 4825, section 12).
ghost use Rattle.std.specs.Prelude.{◌≡◌, [], IfOk, OnOk, IsTrue, codes};
ghost use Rattle.xml_tree.specs.Edits.{with_elem};
ghost use Rattle.xml_tree.specs.Tree.{last, content_of_children};
ghost use Rattle.xml_tree.specs.Print.{print};
ghost use Rattle.usage_docs.specs.AsciiTexts.{is_ascii};
ghost use Rattle.usage_docs.specs.Capabilities.{element_around, auids_element, namespaces_element};
ghost use Rattle.usage_docs.specs.Capabilities.{capabilities};
ghost use Rattle.usage_docs.specs.Capabilities.{capabilities_text};

use crate::element_maker::{declaration, name};
use std::alloc::{AllocError, Global};
use xml_tree::Element;

// An element of this name without content.
fn empty_element(alloc: Global, local: &str) -> Result<Element, AllocError>
    requires { IsTrue (is_ascii local.now) }
    ensures named_alone { IfOk result
        (λ made. made ≡ element_around local.now (content_of_children [])) }
{
    Ok(Element::new(alloc, name(alloc, "", local)?))
}

// An element of this name, with this text.
#[tactic(auto, using(crate::proofs::Words::chars_ascii))]
fn text_element(alloc: Global, local: &str, text: &str) -> Result<Element, AllocError>
    requires ascii_local { IsTrue (is_ascii local.now) }
    requires ascii_text { IsTrue (is_ascii text.now) }
    ensures ok { IfOk result (λ made. made ≡ element_around local.now (last text.now)) }
{
    let mut made = empty_element(alloc, local)?;
    made.push_chars(text)?;
    Ok(made)
}

// Appends an element of this name, with this text.
fn push_text_element(
    alloc: Global,
    made: &mut Element,
    local: &str,
    text: &str,
) -> Result<(), AllocError>
    requires ascii_local { IsTrue (is_ascii local.now) }
    requires ascii_text { IsTrue (is_ascii text.now) }
    ensures ok { OnOk result
        (made.new ≡ record made.old {
          content = with_elem (element_around local.now (last text.now)) made.old.content;
        }) }
{
    let word = text_element(alloc, local, text)?;
    made.push_elem(word)
}

// Appends the application usages to an element without nodes.
fn push_auids(alloc: Global, made: &mut Element) -> Result<(), AllocError>
    requires { made.old.content ≡ content_of_children [] }
    ensures ok { OnOk result (made.new ≡ record made.old { content = auids_element.content }) }
{
    push_text_element(alloc, made, "auid", "resource-lists")?;
    push_text_element(alloc, made, "auid", "rls-services")?;
    push_text_element(alloc, made, "auid", "xcap-caps")
}

// The application usages.
fn auids_element(alloc: Global) -> Result<Element, AllocError>
    ensures ok { IfOk result (λ made. made ≡ auids_element) }
{
    let mut made = empty_element(alloc, "auids")?;
    push_auids(alloc, &mut made)?;
    Ok(made)
}

// Appends the namespaces to an element without nodes.
fn push_namespaces(alloc: Global, made: &mut Element) -> Result<(), AllocError>
    requires { made.old.content ≡ content_of_children [] }
    ensures ok { OnOk result (made.new ≡ record made.old { content = namespaces_element.content }) }
{
    let local = "namespace";
    push_text_element(alloc, made, local, "urn:ietf:params:xml:ns:resource-lists")?;
    push_text_element(alloc, made, local, "urn:ietf:params:xml:ns:rls-services")?;
    push_text_element(alloc, made, local, "urn:ietf:params:xml:ns:xcap-caps")?;
    push_text_element(alloc, made, local, "urn:ietf:params:xml:ns:xcap-diff")?;
    push_text_element(alloc, made, local, "urn:ietf:params:xml:ns:xcap-error")
}

// The element that lists the namespaces that the server knows.
fn namespaces_element(alloc: Global) -> Result<Element, AllocError>
    ensures ok { IfOk result (λ made. made ≡ namespaces_element) }
{
    let mut made = empty_element(alloc, "namespaces")?;
    push_namespaces(alloc, &mut made)?;
    Ok(made)
}

// Appends the parts of the document.
fn push_parts(alloc: Global, made: &mut Element) -> Result<(), AllocError>
    ensures ok { OnOk result
        (made.new ≡ record made.old {
          content =
              with_elem namespaces_element
              (with_elem (element_around (codes "extensions") (content_of_children []))
              (with_elem auids_element made.old.content));
        }) }
{
    made.push_elem(auids_element(alloc)?)?;
    made.push_elem(empty_element(alloc, "extensions")?)?;
    made.push_elem(namespaces_element(alloc)?)
}

// The document.
fn capabilities(alloc: Global) -> Result<Element, AllocError>
    ensures ok { IfOk result (λ made. made ≡ capabilities) }
{
    let mut made = empty_element(alloc, "xcap-caps")?;
    made.push_decl(declaration(alloc, "", "urn:ietf:params:xml:ns:xcap-caps")?)?;
    push_parts(alloc, &mut made)?;
    Ok(made)
}

/// The document xcap-caps/global/index.
///
/// # Errors
/// `AllocError` when out of memory.
pub fn capabilities_document(alloc: Global) -> Result<Element, AllocError>
    ensures makes_document { IfOk result (λ root. root ≡ capabilities) }
    ensures prints_text { IfOk result (λ root. print root ≡ capabilities_text) }
{
    let root = capabilities(alloc)?;
    Ok(root)
}
