//! XCAP roots (RFC 4825, section 6.1): the URI that begins all addresses of a server.
ghost use Rattle.std.specs.Prelude.{◌≡◌, true, IfOk, chars, option_map, Some};
ghost use Rattle.std.specs.List.{list_all};
ghost use Rattle.xcap_uri.specs.Delimiters.{pieces};
ghost use Rattle.xcap_uri.specs.Roots.{authority_of, is_authority_char, is_segment_char};
ghost use Rattle.xcap_uri.specs.Roots.{is_one_or_more, path_of, root_of, slash, is_root_text};
ghost use Rattle.xcap_uri.specs.readers.Roots.{are_authority_and_segments, strip_scheme};

use crate::delimiters::{cut, cut_before, strip_front};
use std::alloc::{AllocError, Global};
use std::marker::Model;
use xml_names::Text;
use xml_tokens::empty_text;

/// The greatest number of octets of a root.
const MAX_ROOT_LEN: usize = 256;

/// An XCAP root. Contracts see its text, which is ASCII.
#[derive(Drop)]
pub struct Root {
    text: Text,
    authority: Text,
    path: Text,
}

impl Model for Root {
    ghost use Rattle.std.specs.Prelude.{◌≡◌, ℕ, List, true};
    ghost use Rattle.xcap_uri.specs.Roots.{authority_of, is_root_text, path_of};

    ghost Value = { List ℕ };

    ghost view = { λ r. r.text };

    ghost invariant = { λ r.
        (is_root_text r.text ≡ true) × (r.authority ≡ authority_of r.text)
        × (r.path ≡ path_of r.text) };
}

impl Root {
    /// The text of the root. Does not allocate.
    pub fn text(&self) -> &str
        ensures exact { chars result.now ≡ self.now }
        ensures valid_root_text { is_root_text self.now ≡ true }
    {
        self.text.as_str()
    }

    /// Its authority. Does not allocate.
    pub fn authority(&self) -> &str
        ensures exact { chars result.now ≡ authority_of self.now }
    {
        self.authority.as_str()
    }

    /// Its path: empty, or segments with a slash before each. Does not allocate.
    pub fn path(&self) -> &str
        ensures root_path { chars result.now ≡ path_of self.now }
        ensures valid_root_text { is_root_text self.now ≡ true }
    {
        self.path.as_str()
    }

    /// A copy of the root.
    ///
    /// # Errors
    /// `AllocError` when out of memory.
    pub fn copy(&self, alloc: Global) -> Result<Root, AllocError>
        ensures equal_copy { IfOk result (λ made. made ≡ self.now) }
    {
        let text = self.text.copy(alloc)?;
        let authority = self.authority.copy(alloc)?;
        let path = self.path.copy(alloc)?;
        Ok(Root {
            text,
            authority,
            path,
        })
    }
}

// Whether an authority may have this character.
fn is_authority_char(b: u8) -> bool
    ensures exact { result ≡ is_authority_char b }
{
    b.is_ascii_alphanumeric() || matches!(b, b'.' | b'-' | b':' | b'[' | b']')
}

// Whether a segment of a root's path may have this character.
fn is_segment_char(b: u8) -> bool
    ensures exact { result ≡ is_segment_char b }
{
    b.is_ascii_alphanumeric() || matches!(b, b'-' | b'.' | b'_' | b'~')
}

// Whether an authority may have all these characters.
fn are_authority_chars(piece: &[u8]) -> bool
    ensures exact { result ≡ list_all is_authority_char piece.now }
{
    piece.iter().all(|b| is_authority_char(*b))
}

// Whether a segment of a root's path may have all these characters.
fn are_segment_chars(piece: &[u8]) -> bool
    ensures exact { result ≡ list_all is_segment_char piece.now }
{
    piece.iter().all(|b| is_segment_char(*b))
}

// Whether the piece is an authority.
#[tactic(auto, using(crate::proofs::Pieces::some_of))]
fn is_authority(piece: &[u8]) -> bool
    ensures exact { result ≡ is_one_or_more is_authority_char piece.now }
{
    match piece {
        [] => false,
        [_, ..] => are_authority_chars(piece),
    }
}

// Whether the piece is a segment of a root's path.
#[tactic(auto, using(crate::proofs::Pieces::some_of))]
fn is_segment(piece: &[u8]) -> bool
    ensures exact { result ≡ is_one_or_more is_segment_char piece.now }
{
    match piece {
        [] => false,
        [_, ..] => are_segment_chars(piece),
    }
}

// Whether the pieces between slashes are segments.
#[tactic(auto, using(crate::proofs::Pieces::pieces_cut))]
fn are_segments(text: &[u8]) -> bool
    ensures exact { result ≡ list_all (is_one_or_more is_segment_char) (pieces slash text.now) }
{
    let mut rest = text;
    'segments: loop {
        let (segment, after) = cut(rest, b'/');
        if !is_segment(segment) {
            return false;
        }
        match after {
            None => return true,
            Some(tail) => rest = tail,
        }
    }
}

// The text after the scheme.
fn strip_scheme(text: &[u8]) -> Option<&[u8]>
    ensures exact { option_map (λ x. x.now) result ≡ strip_scheme text.now }
{
    match strip_front(text, b"http://") {
        Some(rest) => Some(rest),
        None => strip_front(text, b"https://"),
    }
}

// Whether the text is an authority and then segments.
#[tactic(auto, using(crate::proofs::Pieces::pieces_cut))]
fn are_authority_and_segments(rest: &[u8]) -> bool
    ensures exact { result ≡ are_authority_and_segments (pieces slash rest.now) }
{
    let (authority, after) = cut(rest, b'/');
    if !is_authority(authority) {
        return false;
    }
    match after {
        None => true,
        Some(segments) => are_segments(segments),
    }
}

// A text with a character for each octet.
fn ascii_text(alloc: Global, octets: &[u8]) -> Result<Text, AllocError>
    ensures ok { IfOk result (λ text. text ≡ octets.now) }
{
    let mut text = empty_text(alloc);
    for &b in octets {
        text.push(b as char)?;
    }
    Ok(text)
}

// The root of a text that is one, given the text after its scheme.
#[tactic(auto, using(crate::proofs::RootAnswers::authority_behind, crate::proofs::RootAnswers::path_behind))]
fn make_root(alloc: Global, text: &[u8], rest: &[u8]) -> Result<Root, AllocError>
    requires valid_root_text { is_root_text text.now ≡ true }
    requires after_scheme { strip_scheme text.now ≡ Some rest.now }
    ensures ok { IfOk result (λ made. made ≡ text.now) }
{
    let (authority, path) = cut_before(rest, b'/');
    let text = ascii_text(alloc, text)?;
    let authority = ascii_text(alloc, authority)?;
    let path = ascii_text(alloc, path)?;
    Ok(Root {
        text,
        authority,
        path,
    })
}

/// The root that a text is, if it is one.
///
/// # Errors
/// `AllocError` when out of memory.
#[tactic(auto, unfolding(crate::specs::Roots::root_of), using(crate::proofs::RootAnswers::read_as_root))]
pub fn read_root(alloc: Global, text: &str) -> Result<Option<Root>, AllocError>
    ensures ok { IfOk result (λ root. root ≡ root_of text.now) }
{
    let text = text.as_bytes();
    let Some(rest) = strip_scheme(text) else {
        return Ok(None);
    };
    if text.len() > MAX_ROOT_LEN {
        return Ok(None);
    }
    if !are_authority_and_segments(rest) {
        return Ok(None);
    }
    let root = make_root(alloc, text, rest)?;
    Ok(Some(root))
}
