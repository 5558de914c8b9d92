//! The lengths of the parts of an operation's text, in bytes. They are counted, and nothing is
//! printed. Each is `usize::MAX` if the part is longer.
ghost use Rattle.std.specs.Prelude.{◌≡◌, [], ◌∷◌, min};
ghost use Rattle.xml_names.specs.Markup.{byte_len, print_name, print_text};
ghost use Rattle.xml_tree.specs.PathTexts.{path_text, steps_text};
ghost use Rattle.edit_ops.specs.inner.OperationLengths.{value_text_len};

use xml_names::{Name, SmallText, Text};
use xml_tree::Path;

// ---- texts and values

// A text between tags.
#[tactic(auto, using(xml_names::proofs::PrintLengths::lengths))]
pub(crate) fn text_len(text: &Text) -> usize
    ensures exact { result ≡ min (byte_len (print_text text.now)) usize.MAX }
{
    xml_names::escaped_text_len(text.as_str().as_bytes())
}

// A value, without its quotes.
#[tactic(auto, using(crate::proofs::Values::written))]
pub(crate) fn value_len(value: &Text) -> usize
    ensures exact { result ≡ min (value_text_len value.now) usize.MAX }
{
    xml_names::escaped_value_len(value.as_str().as_bytes())
}

// A part of a name, within a value.
#[tactic(auto, using(crate::proofs::Values::written))]
fn part_len<const N: usize>(part: &SmallText<N>) -> usize
    ensures exact { result ≡ min (value_text_len part.now) usize.MAX }
{
    xml_names::escaped_value_len(part.as_str().as_bytes())
}

// A name within a value.
#[tactic(auto, using(crate::proofs::Values::written))]
pub(crate) fn name_len(name: &Name) -> usize
    ensures exact { result ≡ min (value_text_len (print_name name.now)) usize.MAX }
{
    let local = part_len(&name.local);
    if name.prefix.is_empty() {
        return local;
    }
    part_len(&name.prefix)
        .saturating_add(local)
        .saturating_add(1)
}

// ---- paths within a value

// One step: `/*[`, the number counted from 1, and `]`.
pub(crate) fn step_len(number: usize) -> usize
    ensures exact { result ≡ value_text_len (steps_text (number ∷ [])) }
{
    (number as u128 + 1).ilog10() as usize + 5
}

// The positional selector of a place.
pub(crate) fn path_len(path: &Path) -> usize
    ensures exact { result ≡ min (value_text_len (path_text path.now)) usize.MAX }
{
    let mut total = 1usize;
    for number in path.numbers() {
        total = total.saturating_add(step_len(*number));
    }
    total
}
