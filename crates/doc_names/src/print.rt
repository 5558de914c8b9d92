//! Printed document ids: `AUID/users/XUI/NAME` or `AUID/global/NAME` (RFC 4825, section 6.2),
//! with each part escaped.
ghost use Rattle.std.specs.Prelude.{◌≡◌, ◌++◌, OnOk, IfOk, string_bytes};
ghost use Rattle.doc_names.specs.DocIds.{home_text, id_text};
ghost use Rattle.doc_names.specs.Usages.{auid_text};

use crate::doc_id::{Auid, DocId, Home};
use crate::escapes::push_escaped_part;
use std::alloc::{AllocError, Global};
use xml_names::Text;

// Appends the AUID of a usage.
fn push_auid(line: &mut String, auid: Auid) -> Result<(), AllocError>
    ensures appended { OnOk result
        (string_bytes line.new ≡ string_bytes line.old ++ auid_text auid) }
{
    line.push_str(auid.text())
}

// Appends the segments of a home, between slashes.
fn push_home(line: &mut String, home: &Home) -> Result<(), AllocError>
    ensures appended { OnOk result
        (string_bytes line.new ≡ string_bytes line.old ++ home_text home.now) }
{
    match home {
        Home::Global => line.push_str("/global/"),
        Home::User(xui) => {
            line.push_str("/users/")?;
            push_escaped_part(line, xui)?;
            line.push_str("/")
        }
    }
}

/// The printed id of a document; every octet of it is ASCII.
///
/// # Errors
/// `AllocError` when out of memory.
pub fn print_doc_id(alloc: Global, doc: &DocId) -> Result<Text, AllocError>
    ensures ok { IfOk result (λ text. text ≡ id_text doc.now) }
{
    let mut line = String::new(alloc);
    push_auid(&mut line, doc.auid)?;
    push_home(&mut line, &doc.home)?;
    push_escaped_part(&mut line, &doc.name)?;
    Ok(Text::own(line))
}
