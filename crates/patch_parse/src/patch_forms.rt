//! What the selector of an operation ends in (RFC 5261, section 4.1).
ghost use Rattle.std.specs.Prelude.{◌≡◌, IfOk};
ghost use Rattle.xml_grammar.specs.readers.RuleReaders.{read_whole_text};
ghost use Rattle.node_select.specs.readers.Selectors.{read_patch_selector};
ghost use Rattle.node_select.specs.readers.WholeSelectors.{raw_form_if_parsed};

use node_select::{PatchForm, read_patch_form};
use std::alloc::{AllocError, Global};
use xml_names::Text;

/// What a selector ends in, whatever its prefixes are bound to: none where the text is no
/// selector.
pub(crate) fn patch_form(alloc: Global, sel: &Text) -> Result<Option<PatchForm>, AllocError>
    ensures ok { IfOk result
        (λ form. form ≡ raw_form_if_parsed (read_whole_text read_patch_selector sel.now)) }
{
    read_patch_form(alloc, sel.as_str())
}
