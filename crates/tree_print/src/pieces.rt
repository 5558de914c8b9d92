//! Prints that are given piece by piece.
ghost use Rattle.std.specs.Prelude.{◌≡◌, ◌+◌, ◌*◌, ◌<◌, ◌≤◌, ◌++◌, ◌∷◌, chars, encode_utf8_all};
ghost use Rattle.std.specs.Prelude.{flat_map, length, IsSome, MatchOption, []};
ghost use Rattle.xml_names.specs.Markup.{byte_len, end_tag_text, print_attr, print_comment};
ghost use Rattle.xml_names.specs.Markup.{print_decl, print_name, quoted_value};
ghost use Rattle.xml_names.specs.declared.limits.TheConstants.{MAX_LEVELS};
ghost use Rattle.xml_tree.specs.Nodes.{content_of, node_height};
ghost use Rattle.xml_tree.specs.Print.{print, print_content};
ghost use Rattle.xml_tree.specs.Tree.{content_height, height};
ghost use Rattle.xml_tree.specs.inner.Print.{print_node};
ghost use Rattle.tree_print.specs.PrintPieces.{print_of};
ghost use Rattle.tree_print.specs.declared.parts.TheConstants.{CAPACITY};
ghost use Rattle.tree_print.specs.inner.Escapes.{escaped_char};
ghost use Rattle.tree_print.specs.inner.Parts.{Opens, attr_pieces, decl_pieces, element_pieces};
ghost use Rattle.tree_print.specs.inner.Parts.{ending_pieces, ending_print, node_pieces};
ghost use Rattle.tree_print.specs.inner.Parts.{nodes_room, part_pieces, part_print, part_room};
ghost use Rattle.tree_print.specs.inner.Parts.{text_pieces, total};

use crate::escapes::{EscapeContext, first_reference, is_plain};
use crate::parts::{Part, Parts};
use crate::printing::is_empty_prefix;
use std::marker::Model;
use xml_names::{Attr, Decl, Name, Text};
use xml_tree::{Element, Node};

// Each function opens one part: it returns the first piece of its print, and pushes what follows.

// A text that has a reference.
fn open_broken<'a>(parts: &mut Parts<'a>, text: &'a str, place: EscapeContext) -> &'a str
    requires { parts.old.taken + 2 ≤ CAPACITY }
    ensures opens { Opens (flat_map (escaped_char place) (chars text.now))
        (text_pieces (length text.now)) parts.old result.now parts.new }
{
    let Some((at, reference)) = first_reference(place, text.as_bytes()) else {
        return text;
    };
    let rest = &text[at + 1..];
    parts.push(Part::Broken(rest, place));
    parts.push(Part::Plain(reference));
    &text[..at]
}

// A text, of which most contain nothing that is printed as a reference.
fn open_text<'a>(parts: &mut Parts<'a>, text: &'a str, place: EscapeContext) -> &'a str
    requires { parts.old.taken + 2 ≤ CAPACITY }
    ensures opens { Opens (flat_map (escaped_char place) (chars text.now))
        (text_pieces (length text.now)) parts.old result.now parts.new }
{
    if is_plain(place, text.as_bytes()) {
        return text;
    }
    open_broken(parts, text, place)
}

fn open_name<'a>(parts: &mut Parts<'a>, name: &'a Name) -> &'a str
    requires { parts.old.taken + 2 ≤ CAPACITY }
    ensures opens { Opens (print_name name.now) 3 parts.old result.now parts.new }
{
    if is_empty_prefix(&name.prefix) {
        return name.local.as_str();
    }
    parts.push(Part::Plain(name.local.as_str()));
    parts.push(Part::Plain(":"));
    name.prefix.as_str()
}

fn open_end_tag<'a>(parts: &mut Parts<'a>, name: &'a Name) -> &'a str
    requires { parts.old.taken + 3 ≤ CAPACITY }
    ensures opens { Opens (end_tag_text name.now) 5 parts.old result.now parts.new }
{
    parts.push(Part::Plain(">"));
    parts.push(Part::Named(name));
    "</"
}

// Pushes `=` and a value in quotes.
fn push_quoted_value<'a>(parts: &mut Parts<'a>, value: &'a Text)
    requires { parts.old.taken + 4 ≤ CAPACITY }
    ensures text_before { parts.new.text ≡ (61 ∷ quoted_value value.now) ++ parts.old.text }
    ensures more_pieces { parts.new.pieces
        ≡ 2 + text_pieces (byte_len value.now) + parts.old.pieces }
    ensures three_more { parts.new.taken ≡ parts.old.taken + 3 }
{
    parts.push(Part::Plain("\""));
    parts.push(Part::Escaped(value.as_str(), EscapeContext::Quotes));
    parts.push(Part::Plain("=\""));
}

fn open_decl<'a>(parts: &mut Parts<'a>, decl: &'a Decl) -> &'a str
    requires { parts.old.taken + 5 ≤ CAPACITY }
    ensures opens { Opens (print_decl decl.now) (decl_pieces decl.now)
        parts.old result.now parts.new }
{
    push_quoted_value(parts, &decl.uri);
    if is_empty_prefix(&decl.prefix) {
        return " xmlns";
    }
    parts.push(Part::Plain(decl.prefix.as_str()));
    " xmlns:"
}

fn open_attr<'a>(parts: &mut Parts<'a>, attr: &'a Attr) -> &'a str
    requires { parts.old.taken + 5 ≤ CAPACITY }
    ensures opens { Opens (print_attr attr.now) (attr_pieces attr.now)
        parts.old result.now parts.new }
{
    push_quoted_value(parts, &attr.value);
    parts.push(Part::Named(&attr.name));
    " "
}

// What follows the attributes.
fn open_ending<'a>(parts: &mut Parts<'a>, element: &'a Element) -> &'a str
    requires { parts.old.taken + 1 + nodes_room (content_height element.now.content) ≤ CAPACITY }
    ensures opens { Opens (ending_print element.now) (ending_pieces element.now)
        parts.old result.now parts.new }
{
    let nodes = element.nodes();
    if nodes.is_empty() {
        return "/>";
    }
    parts.push(Part::EndTag(element.name()));
    parts.push(Part::Nodes(nodes));
    ">"
}

fn open_attrs<'a>(parts: &mut Parts<'a>, attrs: &'a [Attr], element: &'a Element) -> &'a str
    requires { parts.old.taken + 1 + nodes_room (content_height element.now.content) ≤ CAPACITY }
    ensures opens { Opens (flat_map print_attr attrs.now ++ ending_print element.now)
        (total attr_pieces attrs.now + ending_pieces element.now)
        parts.old result.now parts.new }
{
    let Some((attr, others)) = attrs.split_first() else {
        return open_ending(parts, element);
    };
    parts.push(Part::Attrs(others, element));
    open_attr(parts, attr)
}

fn open_decls<'a>(parts: &mut Parts<'a>, decls: &'a [Decl], element: &'a Element) -> &'a str
    requires { parts.old.taken + 1 + nodes_room (content_height element.now.content) ≤ CAPACITY }
    ensures opens { Opens
        (flat_map print_decl decls.now
        ++ (flat_map print_attr element.now.attrs ++ ending_print element.now))
        (total decl_pieces decls.now
        + (total attr_pieces element.now.attrs + ending_pieces element.now))
        parts.old result.now parts.new }
{
    let Some((decl, others)) = decls.split_first() else {
        return open_attrs(parts, element.attrs(), element);
    };
    parts.push(Part::Decls(others, element));
    open_decl(parts, decl)
}

fn open_element<'a>(parts: &mut Parts<'a>, element: &'a Element) -> &'a str
    requires { parts.old.taken + 1 + nodes_room (content_height element.now.content) ≤ CAPACITY }
    ensures opens { Opens (print element.now) (element_pieces element.now)
        parts.old result.now parts.new }
{
    parts.push(Part::Decls(element.decls(), element));
    parts.push(Part::Named(element.name()));
    "<"
}

fn open_comment<'a>(parts: &mut Parts<'a>, text: &'a Text) -> &'a str
    requires { parts.old.taken + 2 ≤ CAPACITY }
    ensures opens { Opens (print_comment text.now) 3 parts.old result.now parts.new }
{
    parts.push(Part::Plain("-->"));
    parts.push(Part::Plain(text.as_str()));
    "<!--"
}

fn open_node<'a>(parts: &mut Parts<'a>, node: &'a Node) -> &'a str
    requires { parts.old.taken + 7 + 2 * node_height node.now ≤ CAPACITY }
    ensures opens { Opens (print_node node.now) (node_pieces node.now)
        parts.old result.now parts.new }
{
    match node {
        Node::Elem(element) => open_element(parts, element),
        Node::Chars(text) => open_text(parts, text.as_str(), EscapeContext::Content),
        Node::Comment(text) => open_comment(parts, text),
    }
}

fn open_nodes<'a>(parts: &mut Parts<'a>, nodes: &'a [Node]) -> &'a str
    requires { parts.old.taken + nodes_room (content_height (content_of nodes.now)) ≤ CAPACITY }
    ensures opens { Opens (print_content (content_of nodes.now))
        (1 + total node_pieces nodes.now) parts.old result.now parts.new }
{
    let Some((node, others)) = nodes.split_first() else {
        return "";
    };
    parts.push(Part::Nodes(others));
    open_node(parts, node)
}

fn open<'a>(parts: &mut Parts<'a>, part: Part<'a>) -> &'a str
    requires { parts.old.taken + part_room part ≤ CAPACITY }
    ensures opens { Opens (part_print part.entry) (part_pieces part.entry)
        parts.old result.now parts.new }
{
    match part {
        Part::Plain(text) => text,
        Part::Escaped(text, place) => open_text(parts, text, place),
        Part::Broken(text, place) => open_broken(parts, text, place),
        Part::Named(name) => open_name(parts, name),
        Part::Decls(decls, element) => open_decls(parts, decls, element),
        Part::Attrs(attrs, element) => open_attrs(parts, attrs, element),
        Part::Nodes(nodes) => open_nodes(parts, nodes),
        Part::EndTag(name) => open_end_tag(parts, name),
        Part::Whole(element) => open_element(parts, element),
    }
}

/// The pieces of a print that are still to come. Contracts see the characters of the print, and a
/// number that the pieces don't exceed.
#[derive(Drop)]
pub struct Pieces<'a> {
    parts: Parts<'a>,
}

impl<'a> Model for Pieces<'a> {
    ghost use Rattle.tree_print.specs.PrintPieces.{PrintRest};

    ghost Value = { PrintRest };

    ghost view = { λ p. record { text = p.parts.text; most = p.parts.pieces } };
}

impl<'a> Pieces<'a> {
    /// The next piece of the print; none at its end. A piece may be empty. Does not allocate.
    pub fn next(&mut self) -> Option<&'a str>
        ensures next_characters { MatchOption result (self.old.text ≡ [])
            (λ piece. self.old.text ≡ chars piece.now ++ self.new.text) }
        ensures comes_to_an_end { IsSome result → self.new.most < self.old.most }
    {
        let Some(part) = self.parts.pop() else {
            return None;
        };
        Some(open(&mut self.parts, part))
    }
}

/// The print of a document with this root, or of an element, in pieces that are borrowed from the
/// tree: `next` gives one after the other. Does not allocate.
pub fn print_pieces(root: &Element, document: bool) -> Pieces<'_>
    requires { height root.now ≤ MAX_LEVELS }
    ensures whole_print { result.text ≡ print_of root.now document }
{
    let mut parts = Parts::new();
    parts.push(Part::Whole(root));
    if document {
        parts.push(Part::Plain("<?xml version=\"1.0\" encoding=\"UTF-8\"?>\n"));
        return Pieces { parts };
    }
    Pieces { parts }
}
