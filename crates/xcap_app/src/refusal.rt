// Why a text is refused.
ghost use Rattle.std.specs.Prelude.{◌≡◌, IfOk, string_bytes};
ghost use Rattle.xcap_app.specs.Exits.{refusal_message};

use std::alloc::{AllocError, Global};
use usage_docs::{Clash, Fault};
use xml_tree::print_path;

/// Why the input of `check` is no valid document, the first reason in this order.
#[derive(Drop)]
pub enum Refusal {
    /// It has more than `MAX_DOCUMENT_BYTES` bytes.
    TooLarge,
    /// It isn't UTF-8.
    NotUtf8,
    /// It can't be parsed as a tree of at most `MAX_LEVELS` levels; its first fault is at this
    /// byte (XML 1.0; Namespaces in XML 1.0).
    NotWellFormed(usize),
    /// Its tree is no document of its usage: this is its first fault (RFC 4826, sections 3 and 4).
    Faulty(Fault),
}

// The message about an element whose key repeats a sibling's.
fn clash_message(alloc: Global, clash: &Clash) -> Result<String, AllocError>
    ensures ok { IfOk result
        (λ words. string_bytes words
        ≡ refusal_message (Refusal.Faulty (Fault.Repeated clash.now))) }
{
    let place = print_path(alloc, &clash.path)?;
    let mut words = String::from_str(alloc, "uniqueness-failure ")?;
    words.push_str(place.as_str())?;
    words.push_str("/@")?;
    words.push_str(clash.key.attribute_name())?;
    words.push_str("\n")?;
    Ok(words)
}

// The message about a tree that is no document of its usage.
fn fault_message(alloc: Global, fault: &Fault) -> Result<String, AllocError>
    ensures ok { IfOk result
        (λ words. string_bytes words ≡ refusal_message (Refusal.Faulty fault.now)) }
{
    match fault {
        Fault::Invalid => String::from_str(alloc, "schema-validation-error\n"),
        Fault::Unformed => String::from_str(alloc, "constraint-failure\n"),
        Fault::Repeated(clash) => clash_message(alloc, clash),
    }
}

impl Refusal {
    /// The message about it.
    ///
    /// # Errors
    /// `AllocError` when out of memory.
    pub(crate) fn words(&self, alloc: Global) -> Result<String, AllocError>
        ensures ok { IfOk result (λ words. string_bytes words ≡ refusal_message self.now) }
    {
        match self {
            Refusal::TooLarge => String::from_str(alloc, "too-large\n"),
            Refusal::NotUtf8 => String::from_str(alloc, "not-utf-8\n"),
            Refusal::NotWellFormed(place) => format!(in alloc; "not-well-formed {place}\n"),
            Refusal::Faulty(fault) => fault_message(alloc, fault),
        }
    }
}
