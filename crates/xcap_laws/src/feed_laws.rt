//! Laws of feeds, each the contract of a function that does nothing.
ghost use Rattle.std.specs.Prelude.{◌≡◌, ◌≢◌, ℕ, ◌≤◌, ◌++◌, List, Ok, Some, slice_get, sum_by};
ghost use Rattle.xml_tree.specs.Tree.{at};
ghost use Rattle.doc_names.specs.Usages.{usage_of};
ghost use Rattle.doc_names.specs.declared.usages.Usage.{Usage};
ghost use Rattle.doc_names.specs.declared.doc_id.DocId.{DocId};
ghost use Rattle.http_wire.specs.declared.request.Request.{Request};
ghost use Rattle.edit_ops.specs.Notes.{Note};
ghost use Rattle.edit_ops.specs.DiffOperations.{weight};
ghost use Rattle.edit_rules.specs.KeyAddresses.{IsKeyAddressOf};
ghost use Rattle.node_select.specs.Selection.{SelectsPath};
ghost use Rattle.element_watch.specs.WatchedElements.{SelectsSome};
ghost use Rattle.element_watch.specs.declared.element_states.ElementState.TheVariants.{Exists};
ghost use Rattle.element_watch.specs.declared.element_states.ElementState.TheVariants.{Missing};
ghost use Rattle.element_watch.specs.SelectionHistory.{notes_after};
ghost use Rattle.request_checks.specs.Methods.{method_of};
ghost use Rattle.request_checks.specs.declared.method.Method.TheVariants.{Get};
ghost use Rattle.store_core.specs.Contents.{Represents, StoreContents, contents_of};
ghost use Rattle.store_core.specs.DocumentChanges.{find_document, document_id};
ghost use Rattle.store_core.specs.declared.limits.TheConstants.{MAX_NOTES, MAX_WEIGHT};
ghost use Rattle.store_core.specs.Since.{ReportedChanges, since};
ghost use Rattle.store_core.specs.State.{Document, State, Version, versions};
ghost use Rattle.store_core.specs.ValidStates.{IsUserHome, IsValidState};
ghost use Rattle.xcap_uri.specs.Targets.{IsTargetResult};
ghost use Rattle.xcap_uri.specs.declared.target.Mode.{Mode};
ghost use Rattle.xcap_uri.specs.declared.target.Target.TheVariants.{Feed};
ghost use Rattle.xcap_uri.specs.declared.target.Target.TheVariants.{Document as a_document};
ghost use Rattle.xcap_machine.specs.Answers.{Answer};
ghost use Rattle.xcap_machine.specs.ElementFeeds.{ElementQuery};
ghost use Rattle.xcap_machine.specs.Requests.{IsAnswer};
ghost use Rattle.xcap_machine.specs.ReachedStates.{ReachesByValidSteps, HasVersion};
ghost use Rattle.xcap_laws.specs.ElementReplies.{AnswersElementFeed, element_notice_text};
ghost use Rattle.xcap_laws.specs.FetchedVersions.{SendsVersion};
ghost use Rattle.xcap_laws.specs.RetainedVersions.{changes_after_version};

/// A law: the changes since a version of a stored document are known exactly where they are one at
/// most, or at most `MAX_NOTES` that together weigh at most `MAX_WEIGHT`; and then they are the
/// change records of all later versions, in order. A feed since such a version is never 410.
pub fn near_versions_are_known()
    ensures known_exactly { (c : StoreContents) (m : State) (id : DocId) (d : Document)
        (number : ℕ) (v : Version) → IsValidState m → Represents c m
        → find_document document_id m.documents id ≡ Some d
        → slice_get (versions d) number ≡ Some v
        → since c id v.tag ≡ changes_after_version number d }
    ensures near_is_known { (c : StoreContents) (m : State) (id : DocId) (d : Document)
        (number : ℕ) (v : Version) → IsValidState m → Represents c m
        → find_document document_id m.documents id ≡ Some d
        → slice_get (versions d) number ≡ Some v → number ≤ MAX_NOTES
        → sum_by weight (notes_after number (versions d)) ≤ MAX_WEIGHT
        → since c id v.tag ≡ ReportedChanges (notes_after number (versions d)) }
    ensures never_410 { (root : List ℕ) (c : StoreContents) (m : State) (request : Request)
        (a : Answer) (mode : Mode) (id : DocId) (d : Document) (number : ℕ) (v : Version)
        → IsValidState m → Represents c m
        → find_document document_id m.documents id ≡ Some d
        → slice_get (versions d) number ≡ Some v → number ≤ MAX_NOTES
        → sum_by weight (notes_after number (versions d)) ≤ MAX_WEIGHT
        → IsAnswer root c request a
        → IsTargetResult root request.target (Ok (Feed mode v.tag id)) → a.reply.status ≢ 410 }
{}

/// A law: the reply 200 to a GET of a stored document sends a version of it: the current one, by
/// its entity tag and a text that spells its tree. Since that tag a feed reports no change, so
/// who has fetched a document may ask for its feeds from there.
pub fn what_is_fetched_is_a_version()
    ensures sends_version { (root : List ℕ) (c : StoreContents) (m : State) (request : Request)
        (a : Answer) (id : DocId) → IsValidState m → Represents c m → IsAnswer root c request a
        → IsTargetResult root request.target (Ok (a_document id)) → IsUserHome id.home
        → method_of request.method ≡ Get → a.reply.status ≡ 200 → SendsVersion c m id a.reply }
{}

/// A law: what was reported at a version is never reported again. Where a document was in a
/// version and still has it after steps of the machine, and the changes since an older version are
/// known before and after them, then those after are those that were known before, and then those
/// since the version between, which are known too: none is lost, repeated or merged.
pub fn changes_are_told_once()
    ensures told_once { (root : List ℕ) (m n : State) (id : DocId) (d : Document) (number : ℕ)
        (u : Version) (earlier all : List Note) → IsValidState m → ReachesByValidSteps root m n
        → find_document document_id m.documents id ≡ Some d
        → slice_get (versions d) number ≡ Some u → HasVersion n id d.now
        → since (contents_of m) id u.tag ≡ ReportedChanges earlier
        → since (contents_of n) id u.tag ≡ ReportedChanges all
        → (later : List Note) × (since (contents_of n) id d.now.tag ≡ ReportedChanges later)
        × (all ≡ earlier ++ later) }
{}

/// A law: the feed of an element misses nothing. Its reply since a version says that the element
/// exists where a key address selects it now, and selects no equal element in that version; and
/// that it doesn't where the selector selects nothing now, and selected something in that version.
pub fn element_notices_miss_nothing()
    ensures change_reported { (root : List ℕ) (c : StoreContents) (m : State)
        (query : ElementQuery) (a : Answer) (u : Usage) (p : List ℕ)
        → (feed : AnswersElementFeed root c m query a)
        → usage_of query.watched.doc.auid ≡ Some u
        → SelectsPath query.watched.selector.steps feed.document.now.tree p
        → IsKeyAddressOf u feed.document.now.tree query.watched.selector p
        → ((q : List ℕ) → SelectsPath query.watched.selector.steps feed.from.tree q
        → at q feed.from.tree ≡ at p feed.document.now.tree → ⊥)
        → a.reply.body ≡ element_notice_text root query Exists }
    ensures removal_reported { (root : List ℕ) (c : StoreContents) (m : State)
        (query : ElementQuery) (a : Answer) → (feed : AnswersElementFeed root c m query a)
        → (SelectsSome query.watched.selector feed.document.now.tree → ⊥)
        → SelectsSome query.watched.selector feed.from.tree
        → a.reply.body ≡ element_notice_text root query Missing }
{}
