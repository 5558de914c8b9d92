//! A law about printed names, the contract of a function that does nothing.
ghost use Rattle.std.specs.Prelude.{◌≡◌, ℕ, true, List, Ok};
ghost use Rattle.doc_names.specs.DocIds.{id_text};
ghost use Rattle.doc_names.specs.declared.doc_id.DocId.{DocId};
ghost use Rattle.xcap_uri.specs.PrintedNames.{is_encodable, is_name_of};
ghost use Rattle.xcap_uri.specs.Targets.{IsTargetResult};
ghost use Rattle.xcap_uri.specs.declared.target.Mode.{Mode};
ghost use Rattle.xcap_uri.specs.declared.target.Target.TheVariants.{Feed};

/// A law: the printed name of a document names it, where its user and name consist of Unicode
/// characters; and so they do in each address that asks for the feed of a document (RFC 4825,
/// section 6.2).
pub fn printed_names_name_their_documents()
    ensures printed_name { (doc : DocId) → is_encodable doc ≡ true
        → is_name_of doc (id_text doc) ≡ true }
    ensures addressed_name { (root target : List ℕ) (mode : Mode) (tag : ℕ) (doc : DocId)
        → IsTargetResult root target (Ok (Feed mode tag doc)) → is_encodable doc ≡ true }
{}
