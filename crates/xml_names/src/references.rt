//! The characters that a print writes as references, and their references.
ghost use Rattle.std.specs.Prelude.{◌≡◌, ◌∷◌, [], IfNone, IfSome, chars};
ghost use Rattle.xml_names.specs.Markup.{text_escape, value_escape};

/// The reference that a character of a text is written as, unless it is written as itself.
#[tactic(auto, using(crate::proofs::ReferenceLetters::letters))]
pub fn text_reference(c: char) -> Option<&'static str>
    ensures reference_bytes { IfSome result (λ reference. reference.now ≡ text_escape c) }
    ensures reference_chars { IfSome result (λ reference. chars reference.now ≡ text_escape c) }
    ensures plain_as_itself { IfNone result (text_escape c ≡ c ∷ []) }
{
    match c {
        '&' => Some("&amp;"),
        '<' => Some("&lt;"),
        '>' => Some("&gt;"),
        '\r' => Some("&#xD;"),
        _ => None,
    }
}

/// The reference that a character of a value in quotes is written as, unless it is written as
/// itself.
#[tactic(auto, using(crate::proofs::ReferenceLetters::letters))]
pub fn value_reference(c: char) -> Option<&'static str>
    ensures reference_bytes { IfSome result (λ reference. reference.now ≡ value_escape c) }
    ensures reference_chars { IfSome result (λ reference. chars reference.now ≡ value_escape c) }
    ensures plain_as_itself { IfNone result (value_escape c ≡ c ∷ []) }
{
    match c {
        '&' => Some("&amp;"),
        '<' => Some("&lt;"),
        '"' => Some("&quot;"),
        '\t' => Some("&#x9;"),
        '\n' => Some("&#xA;"),
        '\r' => Some("&#xD;"),
        _ => None,
    }
}
