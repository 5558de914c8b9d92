// Whether a text is a document of a usage, and why it isn't.
ghost use Rattle.std.specs.Prelude.{◌≡◌, ◌≤◌, ◌⊎◌, Ok};
ghost use Rattle.xml_tree.specs.Tree.{height};
ghost use Rattle.xcap_app.specs.TextVerdicts.{IsTreeVerdict, IsTextVerdict, exit_of_judgement};
ghost use Rattle.xcap_app.specs.TextVerdicts.{refusal_of_text};

use crate::exit::Exit;
use crate::refusal::Refusal;
use doc_names::Usage;
use std::alloc::Global;
use tree_text::{TextFault, read_document};
use usage_docs::Fault;
use xml_names::{MAX_LEVELS, ReadError};
use xml_tree::Element;

// How the command ends with the first fault of a tree, or none.
fn exit_after_check(judged: Option<Fault>) -> Exit
    ensures exact { result ≡ exit_of_judgement judged }
{
    match judged {
        None => Exit::Done,
        Some(fault) => Exit::Refused(Refusal::Faulty(fault)),
    }
}

// The verdict on a text that is parsed as this tree.
fn judge_tree(alloc: Global, usage: Usage, root: &Element) -> Exit
    requires { height root.now ≤ MAX_LEVELS }
    ensures has_first_fault { IsTreeVerdict usage (Ok root.now) result }
{
    let fault = usage_docs::first_fault(alloc, usage, root);
    exit_after_check(fault)
}

// The verdict on a text that can't be parsed.
fn judge_fault(fault: TextFault) -> Exit
    ensures exact { result ≡ Exit.Refused (refusal_of_text fault) }
{
    match fault {
        TextFault::NotUtf8 => Exit::Refused(Refusal::NotUtf8),
        TextFault::NotWellFormed(place)
        | TextFault::Namespace(place)
        | TextFault::RepeatedAttribute(place)
        | TextFault::TooDeep(place)
        | TextFault::Doctype(place) => Exit::Refused(Refusal::NotWellFormed(place)),
    }
}

/// `Done` where the text is a document of the usage, and else why it isn't, or that memory ran
/// out.
pub(crate) fn judge_text(alloc: Global, usage: Usage, text: &[u8]) -> Exit
    ensures judges_text { IsTextVerdict usage text.now result ⊎ (result ≡ Exit.OutOfMemory) }
{
    match read_document(alloc, text, MAX_LEVELS) {
        Ok(root) => judge_tree(alloc, usage, &root),
        Err(ReadError::Fault(fault)) => judge_fault(fault),
        Err(ReadError::NoMemory) => Exit::OutOfMemory,
    }
}
