//! Names, declarations and elements made of ASCII words.
ghost use Rattle.std.specs.Prelude.{◌≡◌, ◌≤◌, IfOk, IsTrue};
ghost use Rattle.xml_names.specs.Scopes.{decl_from_parts};
ghost use Rattle.xml_names.specs.ExpandedNames.{name_from_parts};
ghost use Rattle.usage_docs.specs.AsciiTexts.{is_ascii};

use std::alloc::{AllocError, Global};
use xml_names::{Decl, LocalName, Name, Prefix, SmallText, Text};

// A text of these letters.
#[tactic(auto, using(crate::proofs::Words::chars_ascii))]
fn text(alloc: Global, word: &str) -> Result<Text, AllocError>
    requires { IsTrue (is_ascii word.now) }
    ensures ok { IfOk result (λ made. made ≡ word.now) }
{
    Text::from(alloc, word)
}

// A part of a name, of these letters.
#[tactic(auto, using(crate::proofs::Words::chars_ascii))]
fn small_text<const N: usize>(alloc: Global, letters: &str) -> Result<SmallText<N>, AllocError>
    requires within_max { N ≤ 64 }
    requires ascii_letters { IsTrue (is_ascii letters.now) }
    ensures ok { IfOk result (λ made. made ≡ letters.now) }
{
    SmallText::from(alloc, letters)
}

pub(crate) fn name(alloc: Global, prefix: &str, local: &str) -> Result<Name, AllocError>
    requires ascii_prefix { IsTrue (is_ascii prefix.now) }
    requires ascii_local { IsTrue (is_ascii local.now) }
    ensures ok { IfOk result (λ made. made ≡ name_from_parts prefix.now local.now) }
{
    let prefix: Prefix = small_text(alloc, prefix)?;
    let local: LocalName = small_text(alloc, local)?;
    Ok(Name { prefix, local })
}

pub(crate) fn declaration(alloc: Global, prefix: &str, uri: &str) -> Result<Decl, AllocError>
    requires ascii_prefix { IsTrue (is_ascii prefix.now) }
    requires ascii_uri { IsTrue (is_ascii uri.now) }
    ensures ok { IfOk result (λ made. made ≡ decl_from_parts prefix.now uri.now) }
{
    let prefix: Prefix = small_text(alloc, prefix)?;
    let uri = text(alloc, uri)?;
    Ok(Decl { prefix, uri })
}
