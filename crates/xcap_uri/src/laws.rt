//! Laws of targets; nothing here runs.
ghost use Rattle.std.specs.Prelude.{◌≡◌, ◌↔◌, ◌⊎◌, ◌++◌, ◌∷◌, ℕ, true, List, Option, Result, All};
ghost use Rattle.std.specs.Prelude.{Ok, Err};
ghost use Rattle.xml_names.specs.declared.names.Decl.{Decl};
ghost use Rattle.xml_names.specs.ReadErrors.{ResultSatisfies};
ghost use Rattle.doc_names.specs.DocIds.{IsAddressable, id_text};
ghost use Rattle.xcap_uri.specs.Meanings.{IsNowhereFault, IsOwnAddress, IsOwnTarget};
ghost use Rattle.xcap_uri.specs.Meanings.{IsTarget, LeadsNowhere};
ghost use Rattle.xcap_uri.specs.Queries.{IsQuery};
ghost use Rattle.xcap_uri.specs.Roots.{IsRoot, authority_of, path_of, slash, is_root_text};
ghost use Rattle.xcap_uri.specs.inner.OctetTexts.{IsOctet, IsDecodedText, IsDecodedHome};
ghost use Rattle.xcap_uri.specs.Targets.{IsReadableTarget, IsTargetResult};
ghost use Rattle.xcap_uri.specs.declared.fault.UriFault.{UriFault};
ghost use Rattle.xcap_uri.specs.declared.target.Target.{Target};
ghost use Rattle.xcap_uri.specs.declared.target.Target.TheVariants as targets;
ghost use Rattle.xcap_uri.specs.readers.Queries.{parsed_optional_bindings};
ghost use Rattle.xcap_uri.specs.readers.Targets.{parsed_target};

use crate::root::Root;
use doc_names::{DocId, Home};
use xml_names::Text;

// Octets are small numbers.
fn octets_are_bytes(octets: &[u8])
    ensures all_octets { All IsOctet octets.now }
{}

// Every text is the decoding of some octets.
fn text_is_decoded(text: &Text)
    ensures spelled_text { IsDecodedText text.now }
{
    octets_are_bytes(text.as_str().as_bytes());
}

// The user of a home is the decoding of some octets.
fn home_is_decoded(home: &Home)
    ensures spelled_home { IsDecodedHome home.now }
{
    match home {
        Home::Global => {}
        Home::User(xui) => text_is_decoded(xui),
    }
}

/// A law: the printed id of a document that an address can name reads back as that document, after
/// the path of a root and a slash and after the whole root and a slash (RFC 4825, section 6.2).
pub fn printed_id_reads_back(root: &Root, doc: &DocId)
    ensures below_root_path { IsAddressable doc.now
        → IsTargetResult root.now (path_of root.now ++ (slash ∷ id_text doc.now))
        (Ok (targets.Document doc.now)) }
    ensures below_whole_root { IsAddressable doc.now
        → IsTargetResult root.now (root.now ++ (slash ∷ id_text doc.now))
        (Ok (targets.Document doc.now)) }
{
    let _text = root.text();
    home_is_decoded(&doc.home);
    text_is_decoded(&doc.name);
}

/// A law: by the rules each target has one result under a root: its meaning, or the first of its
/// faults (RFC 4825, section 6). It is what reading from left to right gives, and an address can
/// name each id in it.
pub fn targets_have_one_answer()
    ensures exists_one { (root target : List ℕ) → (answer : Result Target UriFault)
        × IsTargetResult root target answer }
    ensures at_most_one { (root target : List ℕ) (a b : Result Target UriFault)
        → IsTargetResult root target a → IsTargetResult root target b → a ≡ b }
    ensures answer_is_exact { (root target : List ℕ)
        → ResultSatisfies (IsTargetResult root target) (parsed_target root target) }
    ensures ids_are_readable { (root target : List ℕ) (t : Target)
        → IsTargetResult root target (Ok t)
        → IsReadableTarget t }
{}

/// A law: what an address means by itself is what reading it gives (RFC 4825, section 6): a target
/// that the address means is read; one that is read is what the address means, except for this
/// server's own addresses; and the first fault says whether the address leads nowhere.
pub fn addresses_are_read_as_they_mean()
    ensures meaning_is_read { (root target : List ℕ) (t : Target) → IsTarget root target t
        → IsTargetResult root target (Ok t) }
    ensures reading_is_meant { (root target : List ℕ) (t : Target)
        → IsTargetResult root target (Ok t)
        → IsTarget root target t ⊎ (IsOwnAddress root target × IsOwnTarget t) }
    ensures fault_says_nowhere { (root target : List ℕ) (fault : UriFault)
        → IsTargetResult root target (Err fault)
        → LeadsNowhere root target ↔ IsNowhereFault fault }
{}

/// A law: by the rules a query has at most one list of bindings, and it is what reading from left
/// to right gives; where that gives none, there is none (RFC 4825, section 6.4).
pub fn queries_have_one_reading()
    ensures read_iff { (query : Option (List ℕ)) (bindings : List Decl)
        → IsQuery query bindings ↔ (parsed_optional_bindings query ≡ Ok bindings) }
    ensures at_most_one { (query : Option (List ℕ)) (a b : List Decl) → IsQuery query a
        → IsQuery query b → a ≡ b }
{}

/// A law: a text is a root by its pieces between slashes exactly where it is one by the grammar,
/// with this authority and path and no others (RFC 4825, section 6.1).
pub fn roots_are_spelled_by_the_grammar()
    ensures root_by_pieces { (text authority path : List ℕ)
        → IsRoot text authority path
        ↔ ((is_root_text text ≡ true) × (authority ≡ authority_of text) × (path ≡ path_of text)) }
{}
