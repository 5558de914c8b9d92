//! The segments of a path (RFC 3986, section 3.3), decoded, up to the separator (RFC 4825, section
//! 6).
ghost use Rattle.std.specs.Prelude.{◌≡◌, [], option_map, unwrap_or};
ghost use Rattle.std.specs.Str.{bytes_eq};
ghost use Rattle.xcap_uri.specs.inner.Results.{GivesStated};
ghost use Rattle.xcap_uri.specs.readers.Targets.{parsed_path};
ghost use Rattle.doc_names.specs.DocIds.{selector_separator};

use crate::delimiters::cut;
use crate::escapes::read_part;
use crate::fault::UriFault;
use std::alloc::Global;
use xml_names::{ReadError, Text};

// Whether it is the separator `~~`, after which comes the node selector.
fn is_separator(segment: &Text) -> bool
    ensures exact { result ≡ bytes_eq segment.now selector_separator }
{
    segment.is("~~")
}

// The text after a segment, empty where the path ends.
fn or_empty(after: Option<&[u8]>) -> &[u8]
    ensures exact { result.now ≡ unwrap_or (option_map (λ x. x.now) after.entry) [] }
{
    match after {
        None => &[],
        Some(tail) => tail,
    }
}

/// The segments before the separator, decoded, and where there is one, the text after it and its
/// slash.
///
/// # Errors
/// `BadEscape` exactly where a segment up to the separator decodes to no text; `NoMemory` when out
/// of memory.
pub fn read_path(
    alloc: Global,
    path: &[u8],
) -> Result<(Vec<Text>, Option<&[u8]>), ReadError<UriFault>>
    ensures reads_rule { GivesStated (λ x. (x.0.items, option_map (λ y. y.now) x.1)) result
        (parsed_path path.now) }
{
    let mut segments = Vec::new(alloc);
    let mut rest = path;
    'segments: loop {
        let (raw, after) = cut(rest, b'/');
        let segment = read_part(alloc, raw)?;
        if is_separator(&segment) {
            return Ok((segments, Some(or_empty(after))));
        }
        segments.push(segment)?;
        match after {
            None => return Ok((segments, None)),
            Some(tail) => rest = tail,
        }
    }
}
