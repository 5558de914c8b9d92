//! Printing documents, elements and bodies.
ghost use Rattle.std.specs.Prelude.{◌≡◌, [], ◌∷◌, ◌++◌, IfOk, OnOk, chars, encode_utf8_all};
ghost use Rattle.std.specs.Prelude.{flat_map};
ghost use Rattle.std.specs.Str.{bytes_eq};
ghost use Rattle.xml_names.specs.Markup.{end_tag_text, xmlns_name, tag_front, print_attr};
ghost use Rattle.xml_names.specs.Markup.{print_comment};
ghost use Rattle.xml_names.specs.Markup.{print_decl, print_name, print_text, value_escape};
ghost use Rattle.xml_names.specs.Markup.{quoted_value};
ghost use Rattle.xml_tree.specs.Print.{rest_of_element, is_empty, print, print_content, header};
ghost use Rattle.xml_tree.specs.Print.{document_print};
ghost use Rattle.xml_tree.specs.inner.Print.{print_node};
ghost use Rattle.tree_print.specs.AttributeBodyPrints.{body_escape, body_print};

use crate::escapes::{EscapeContext, push_escaped};
use crate::output::Output;
use std::alloc::{AllocError, Global};
use xcap_io::Bytes;
use xml_names::{Attr, Decl, Name, Prefix, Text, value_reference};
use xml_tree::{Element, Node};

/// Appends a character of a value in quotes.
fn push_value_char(out: &mut Output, c: char) -> Result<(), AllocError>
    ensures appended { OnOk result (out.new ≡ out.old ++ value_escape c) }
{
    match value_reference(c) {
        Some(reference) => out.push_str(reference),
        None => out.push(c),
    }
}

/// Appends a character of a body, escaped for either quotes.
#[tactic(auto, using(crate::proofs::PrintLemmas::literals))]
fn push_body_char(out: &mut Output, c: char) -> Result<(), AllocError>
    ensures appended { OnOk result (out.new ≡ out.old ++ body_escape c) }
{
    match c {
        '\'' => out.push_str("&apos;"),
        _ => push_value_char(out, c),
    }
}

fn push_text(out: &mut Output, text: &str) -> Result<(), AllocError>
    ensures adds_text { OnOk result (out.new ≡ out.old ++ print_text (chars text.now)) }
{
    push_escaped(out, text, EscapeContext::Content)
}

fn push_value(out: &mut Output, value: &str) -> Result<(), AllocError>
    ensures appended { OnOk result (out.new ≡ out.old ++ flat_map value_escape (chars value.now)) }
{
    push_escaped(out, value, EscapeContext::Quotes)
}

fn push_body(out: &mut Output, value: &str) -> Result<(), AllocError>
    ensures appended { OnOk result (out.new ≡ out.old ++ body_print (chars value.now)) }
{
    for c in value.chars() {
        push_body_char(out, c)?;
    }
    Ok(())
}

/// Appends `=` and a value in quotes.
#[tactic(auto, using(crate::proofs::PrintLemmas::literals, crate::proofs::PrintLemmas::set_value))]
fn push_quoted_value(out: &mut Output, value: &Text) -> Result<(), AllocError>
    ensures appended { OnOk result (out.new ≡ out.old ++ 61 ∷ quoted_value value.now) }
{
    out.push_str("=\"")?;
    push_value(out, value.as_str())?;
    out.push('"')
}

/// Whether a prefix is empty.
#[inline(always)]
pub fn is_empty_prefix(prefix: &Prefix) -> bool
    ensures exact { result ≡ bytes_eq prefix.now [] }
{
    prefix.is_empty()
}

#[tactic(auto, using(crate::proofs::PrintLemmas::three))]
fn push_name(out: &mut Output, name: &Name) -> Result<(), AllocError>
    ensures appended { OnOk result (out.new ≡ out.old ++ print_name name.now) }
{
    if is_empty_prefix(&name.prefix) {
        return out.push_str(name.local.as_str());
    }
    out.push_str(name.prefix.as_str())?;
    out.push(':')?;
    out.push_str(name.local.as_str())
}

/// Appends the name that declares a prefix.
#[tactic(auto, using(crate::proofs::PrintLemmas::literals))]
fn push_xmlns_name(out: &mut Output, prefix: &Prefix) -> Result<(), AllocError>
    ensures appended { OnOk result (out.new ≡ out.old ++ xmlns_name prefix.now) }
{
    if is_empty_prefix(prefix) {
        return out.push_str("xmlns");
    }
    out.push_str("xmlns:")?;
    out.push_str(prefix.as_str())?;
    Ok(())
}

#[tactic(auto, using(crate::proofs::PrintLemmas::three))]
fn push_decl(out: &mut Output, decl: &Decl) -> Result<(), AllocError>
    ensures adds_declaration { OnOk result (out.new ≡ out.old ++ print_decl decl.now) }
{
    out.push(' ')?;
    push_xmlns_name(out, &decl.prefix)?;
    push_quoted_value(out, &decl.uri)
}

#[tactic(auto, using(crate::proofs::PrintLemmas::three))]
fn push_attr(out: &mut Output, attr: &Attr) -> Result<(), AllocError>
    ensures adds_attribute { OnOk result (out.new ≡ out.old ++ print_attr attr.now) }
{
    out.push(' ')?;
    push_name(out, &attr.name)?;
    push_quoted_value(out, &attr.value)
}

fn push_decls(out: &mut Output, decls: &[Decl]) -> Result<(), AllocError>
    ensures appended { OnOk result (out.new ≡ out.old ++ flat_map print_decl decls.now) }
{
    for decl in decls {
        push_decl(out, decl)?;
    }
    Ok(())
}

fn push_attrs(out: &mut Output, attrs: &[Attr]) -> Result<(), AllocError>
    ensures appended { OnOk result (out.new ≡ out.old ++ flat_map print_attr attrs.now) }
{
    for attr in attrs {
        push_attr(out, attr)?;
    }
    Ok(())
}

/// Appends `<`, a name, declarations and attributes.
fn push_tag_front(out: &mut Output, element: &Element) -> Result<(), AllocError>
    ensures appended { OnOk result
        (out.new ≡ out.old ++ tag_front element.now.name element.now.decls element.now.attrs) }
{
    out.push('<')?;
    push_name(out, element.name())?;
    push_decls(out, element.decls())?;
    push_attrs(out, element.attrs())
}

#[tactic(auto, using(crate::proofs::PrintLemmas::literals, crate::proofs::PrintLemmas::three))]
fn push_end_tag(out: &mut Output, name: &Name) -> Result<(), AllocError>
    ensures appended { OnOk result (out.new ≡ out.old ++ end_tag_text name.now) }
{
    out.push_str("</")?;
    push_name(out, name)?;
    out.push('>')
}

#[tactic(auto, using(crate::proofs::PrintLemmas::literals, crate::proofs::PrintLemmas::three))]
fn push_comment(out: &mut Output, text: &Text) -> Result<(), AllocError>
    ensures adds_comment { OnOk result (out.new ≡ out.old ++ print_comment text.now) }
{
    out.push_str("<!--")?;
    out.push_str(text.as_str())?;
    out.push_str("-->")
}

/// Appends the print of a node.
#[cycle(print)]
fn push_node(out: &mut Output, node: &Node) -> Result<(), AllocError>
    ensures adds_node { OnOk result (out.new ≡ out.old ++ print_node node.now) }
{
    match node {
        Node::Elem(element) => push_element(out, element),
        Node::Chars(text) => push_text(out, text.as_str()),
        Node::Comment(text) => push_comment(out, text),
    }
}

/// Appends what follows the attributes of an element: `/>`, or `>`, its nodes and its end tag.
#[cycle(print)]
fn push_rest_of_element(out: &mut Output, element: &Element) -> Result<(), AllocError>
    ensures appended { OnOk result
        (out.new ≡ out.old ++ rest_of_element element.now.name (is_empty element.now.content)
        (print_content element.now.content)) }
{
    let nodes = element.nodes();
    if nodes.is_empty() {
        out.push_str("/>")?;
        return Ok(());
    }
    out.push('>')?;
    for node in nodes {
        push_node(out, node)?;
    }
    push_end_tag(out, element.name())?;
    Ok(())
}

/// Appends the print of an element.
#[cycle(print)]
fn push_element(out: &mut Output, element: &Element) -> Result<(), AllocError>
    ensures adds_element { OnOk result (out.new ≡ out.old ++ print element.now) }
{
    push_tag_front(out, element)?;
    push_rest_of_element(out, element)
}

/// The print of an element: one of the texts that are read as it.
///
/// # Errors
/// `AllocError` when out of memory.
pub fn print_element(alloc: Global, element: &Element) -> Result<Bytes, AllocError>
    ensures ok { IfOk result (λ bytes. bytes ≡ encode_utf8_all (print element.now)) }
{
    let mut out = Output::new(alloc);
    push_element(&mut out, element)?;
    Ok(out.into_bytes())
}

/// The XML declaration and a line feed.
#[tactic(auto, using(crate::proofs::PrintLemmas::literals))]
fn push_header(out: &mut Output) -> Result<(), AllocError>
    ensures appended { OnOk result (out.new ≡ out.old ++ header) }
{
    out.push_str("<?xml version=\"1.0\" encoding=\"UTF-8\"?>\n")?;
    Ok(())
}

/// The print of a document with this root element: the XML declaration, a line feed and the
/// element.
///
/// # Errors
/// `AllocError` when out of memory.
pub fn print_document(alloc: Global, root: &Element) -> Result<Bytes, AllocError>
    ensures prints_document { IfOk result
        (λ bytes. bytes ≡ encode_utf8_all (document_print root.now)) }
{
    let mut out = Output::new(alloc);
    push_header(&mut out)?;
    push_element(&mut out, root)?;
    Ok(out.into_bytes())
}

/// The print of an attribute body that spells this value.
///
/// # Errors
/// `AllocError` when out of memory.
pub fn print_att_value(alloc: Global, value: &str) -> Result<Bytes, AllocError>
    ensures ok { IfOk result (λ bytes. bytes ≡ encode_utf8_all (body_print (chars value.now))) }
{
    let mut out = Output::new(alloc);
    push_body(&mut out, value)?;
    Ok(out.into_bytes())
}
