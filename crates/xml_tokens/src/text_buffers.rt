//! Texts made from characters, and the characters of texts.
ghost use Rattle.std.specs.Prelude.{◌≡◌, ◌≤◌, ◌++◌, [], take, chars, length, IsTrue, IfSome, IfOk};
ghost use Rattle.std.specs.Prelude.{OnOk};
ghost use Rattle.std.specs.List.{list_all};
ghost use Rattle.std.specs.Str.{IsAscii};
ghost use Rattle.xml_tokens.specs.readers.CharacterRuns.{is_ascii, HasChars};

use std::alloc::{AllocError, Global};
use xml_names::{SmallText, Text};

// How many characters are converted to bytes at a time.
const CHUNK: usize = 64;

/// The empty text. Does not allocate.
pub fn empty_text(alloc: Global) -> Text
    ensures holds_no_characters { result ≡ [] }
{
    Text::own(String::new(alloc))
}

fn is_ascii(c: char) -> bool
    ensures exact { result ≡ is_ascii c }
{
    c <= '\u{7F}'
}

// The text of the first `len` bytes, which are ASCII.
fn ascii_str(bytes: &[u8; 64], len: usize) -> &str
    requires at_most_64 { len ≤ 64 }
    requires ascii_str { IsAscii (take len bytes.now) }
    ensures front_bytes { chars result.now ≡ take len bytes.now }
{
    // These bytes are proved to be ASCII.
    unsafe { str::from_utf8_unchecked(&bytes[..len]) }
}

// Writes characters as bytes, and returns whether all are ASCII; then the bytes are the text.
fn write_ascii(run: &[char], bytes: &mut [u8; 64]) -> bool
    requires { length run.now ≤ 64 }
    ensures copies_ascii { IsTrue result → take (length run.now) bytes.new ≡ run.now }
    ensures is_ascii_alone { IsTrue result → IsTrue (list_all is_ascii run.now) }
{
    for (i, &c) in run.iter().enumerate() {
        if !is_ascii(c) {
            return false;
        }
        bytes[i] = c as u8;
    }
    true
}

// A run as a text, if it is short and ASCII.
fn plain_ascii<'a>(run: &[char], bytes: &'a mut [u8; 64]) -> Option<&'a str>
    ensures spells_run { IfSome result (λ text. HasChars run.now text.now) }
{
    if run.len() > CHUNK {
        return None;
    }
    if !write_ascii(run, bytes) {
        return None;
    }
    Some(ascii_str(bytes, run.len()))
}

// Appends characters one by one.
fn push_each_char(text: &mut Text, chars: &[char]) -> Result<(), AllocError>
    ensures appended { OnOk result (text.new ≡ text.old ++ chars.now) }
{
    for &c in chars {
        text.push(c)?;
    }
    Ok(())
}

// Appends a few characters, all at once if they are ASCII.
fn push_chunk(text: &mut Text, chars: &[char]) -> Result<(), AllocError>
    ensures appended { OnOk result (text.new ≡ text.old ++ chars.now) }
{
    let mut bytes = [0; 64];
    match plain_ascii(chars, &mut bytes) {
        Some(plain_ascii) => text.push_str(plain_ascii),
        None => push_each_char(text, chars),
    }
}

// Appends characters to a text.
fn push_chunks(text: &mut Text, chars: &[char]) -> Result<(), AllocError>
    ensures appended { OnOk result (text.new ≡ text.old ++ chars.now) }
{
    let mut rest = chars;
    while !rest.is_empty() {
        let (chunk, after) = rest.split_at(rest.len().min(CHUNK));
        push_chunk(text, chunk)?;
        rest = after;
    }
    Ok(())
}

/// A text of these characters.
///
/// # Errors
/// `AllocError` when out of memory.
pub fn text_of(alloc: Global, chars: &[char]) -> Result<Text, AllocError>
    ensures ok { IfOk result (λ text. text ≡ chars.now) }
{
    let mut bytes = [0; 64];
    match plain_ascii(chars, &mut bytes) {
        Some(plain_ascii) => Text::from(alloc, plain_ascii),
        None => text_in_chunks(alloc, chars),
    }
}

// `text_of` in chunks.
fn text_in_chunks(alloc: Global, chars: &[char]) -> Result<Text, AllocError>
    ensures ok { IfOk result (λ text. text ≡ chars.now) }
{
    let mut text = Text::with_capacity(alloc, chars.len())?;
    push_chunks(&mut text, chars)?;
    Ok(text)
}

/// A part of a name of these characters.
///
/// # Errors
/// `AllocError` when out of memory.
pub fn name_part<const N: usize>(alloc: Global, chars: &[char]) -> Result<SmallText<N>, AllocError>
    requires within_max { N ≤ 64 }
    ensures ok { IfOk result (λ part. part ≡ chars.now) }
{
    let mut bytes = [0; 64];
    match plain_ascii(chars, &mut bytes) {
        Some(plain_ascii) => SmallText::from(alloc, plain_ascii),
        None => chunk_text(alloc, chars),
    }
}

// `name_part` from a text built in chunks.
fn chunk_text<const N: usize>(alloc: Global, chars: &[char]) -> Result<SmallText<N>, AllocError>
    requires within_max { N ≤ 64 }
    ensures ok { IfOk result (λ part. part ≡ chars.now) }
{
    let text = text_in_chunks(alloc, chars)?;
    SmallText::from(alloc, text.as_str())
}

// The characters of ASCII bytes.
fn chars_of_ascii(alloc: Global, bytes: &[u8]) -> Result<Vec<char>, AllocError>
    ensures ok { IfOk result (λ all. all.items ≡ bytes.now) }
{
    bytes.iter().map(|&byte| byte as char).collect(alloc)
}

/// The characters of a text.
///
/// # Errors
/// `AllocError` when out of memory.
pub fn chars_of_text(alloc: Global, text: &str) -> Result<Vec<char>, AllocError>
    ensures same_chars { IfOk result (λ all. all.items ≡ chars text.now) }
{
    if text.is_ascii() {
        return chars_of_ascii(alloc, text.as_bytes());
    }
    text.chars().collect(alloc)
}
