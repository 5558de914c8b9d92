//! Escapes in printed addresses (RFC 3986, section 2.1).
ghost use Rattle.std.specs.Prelude.{◌≡◌, ◌++◌, OnOk, string_bytes};
ghost use Rattle.doc_names.specs.PercentEscapes.{escape_octets, is_visible, escape_part};

use percent_encoding::{
    AsciiSet, CONTROLS, NON_ALPHANUMERIC, ascii_set, percent_encode, utf8_percent_encode,
};
use std::alloc::AllocError;
use xml_names::Text;

/// The ASCII octets that are escaped in a printed part of an address: all but those of `pchar`
/// (RFC 3986, section 3.3).
const ESCAPED_IN_PARTS: AsciiSet = ascii_set!(
    NON_ALPHANUMERIC
        .remove(b'-')
        .remove(b'.')
        .remove(b'_')
        .remove(b'~')
        .remove(b'!')
        .remove(b'$')
        .remove(b'&')
        .remove(b'\'')
        .remove(b'(')
        .remove(b')')
        .remove(b'*')
        .remove(b'+')
        .remove(b',')
        .remove(b';')
        .remove(b'=')
        .remove(b':')
        .remove(b'@')
);

/// The ASCII octets that aren't visible.
const INVISIBLE: AsciiSet = ascii_set!(CONTROLS.add(b' '));

/// Appends a text as a part of a printed address.
///
/// # Errors
/// `AllocError` when out of memory.
pub fn push_escaped_part(line: &mut String, text: &Text) -> Result<(), AllocError>
    ensures appended { OnOk result
        (string_bytes line.new ≡ string_bytes line.old ++ escape_part text.now) }
{
    utf8_percent_encode(text.as_str(), ESCAPED_IN_PARTS).append_to(line)?;
    Ok(())
}

/// Appends octets, each escaped unless it is visible.
///
/// # Errors
/// `AllocError` when out of memory.
pub fn push_escaped_octets(line: &mut String, octets: &[u8]) -> Result<(), AllocError>
    ensures appended { OnOk result
        (string_bytes line.new ≡ string_bytes line.old ++ escape_octets is_visible octets.now) }
{
    percent_encode(octets, INVISIBLE).append_to(line)?;
    Ok(())
}
