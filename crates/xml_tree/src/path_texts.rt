//! The positional selector of a place (RFC 4825, section 6.3).
ghost use Rattle.std.specs.Prelude.{◌≡◌, IfOk};
ghost use Rattle.xml_tree.specs.PathTexts.{path_text};

use crate::path::Path;
use std::alloc::{AllocError, Global};
use xml_names::Text;

/// The positional selector of a place: `*` for the root, and `/*[i]` for each number, counted
/// from 1.
///
/// # Errors
/// `AllocError` when out of memory.
pub fn print_path(alloc: Global, path: &Path) -> Result<Text, AllocError>
    ensures ok { IfOk result (λ text. text ≡ path_text path.now) }
{
    let mut text = String::from_str(alloc, "*")?;
    for number in path.numbers() {
        let step = format!(in alloc; "/*[{}]", *number as u128 + 1)?;
        text.push_str(&step)?;
    }
    Ok(Text::own(text))
}
