//! Laws about journals that break off, each the contract of a function that does nothing.
ghost use Rattle.std.specs.Prelude.{◌≡◌, ℕ, ◌≤◌, ◌++◌, List, [], Result, false, length, take, All};
ghost use Rattle.http_wire.specs.declared.request.Request.{Request};
ghost use Rattle.edit_journal.specs.Journals.{IsPrefixOf};
ghost use Rattle.edit_journal.specs.JournalLogs.{HoldsRecords, LogState};
ghost use Rattle.edit_journal.specs.declared.limits.TheConstants.{MAX_JOURNAL_BYTES};
ghost use Rattle.edit_journal.specs.Restarts.{RestartState, RestartsReplayer};
ghost use Rattle.edit_journal.specs.JournalTexts.{IsRecordedRequest, HasCompleteRecords};
ghost use Rattle.edit_journal.specs.JournalTexts.{journal_text};
ghost use Rattle.edit_journal.specs.declared.journal_restart.RestartFault.{RestartFault};
ghost use Rattle.edit_journal.specs.JournalPrefixes.{IsJournalPrefix};
ghost use Rattle.edit_journal.specs.PrefixRestarts.{RestartEndsAfter};

use crate::Replayer;

/// A law: a prefix of the text of a list of requests has, complete, the records of the first of
/// these, as many as fit it; and after them nothing, or a proper prefix of the next record.
pub fn first_bytes_hold_the_first_requests()
    ensures some_are_whole { (all : List Request) (bytes : List ℕ) → All IsRecordedRequest all
        → IsPrefixOf bytes (journal_text all)
        → (first : List Request) × (rest : List ℕ) × HasCompleteRecords bytes first rest }
    ensures first_requests_whole { (all first : List Request) (bytes rest : List ℕ)
        → All IsRecordedRequest all → IsPrefixOf bytes (journal_text all)
        → HasCompleteRecords bytes first rest
        → (left : List Request) × IsJournalPrefix all bytes first left rest }
{}

/// A law: a prefix of a journal is a prefix of a text: of the requests whose records are in the
/// journal and, only where its log is torn, of at most one more.
pub fn journals_begin_a_text()
    ensures begins_text { (log : LogState) (requests : List Request) (held bytes : List ℕ)
        → HoldsRecords log requests held → IsPrefixOf bytes held
        → (torn : List Request) × (length torn ≤ 1) × (log.is_torn ≡ false → torn ≡ [])
        × All IsRecordedRequest (requests ++ torn)
        × IsPrefixOf bytes (journal_text (requests ++ torn)) }
{}

/// A law: a restart from a prefix of the text of a list of requests replayed the first of these.
/// Where it read all that it reads, these are exactly those whose records are complete in the
/// bytes; it finds no damage; and it stops at a request only where that is refused after the ones
/// before it.
pub fn restarts_do_the_first_requests<R: Replayer>()
    ensures does_first { (all : List Request) (old new : RestartState R)
        (result : Result LogState RestartFault)
        → All IsRecordedRequest all
        → (restarts : RestartsReplayer R.stands R.refuses old new result)
        → IsPrefixOf (take MAX_JOURNAL_BYTES restarts.bytes) (journal_text all)
        → (left : List Request) × RestartEndsAfter R.refuses
        (record {
          all = all;
          bytes = take MAX_JOURNAL_BYTES restarts.bytes;
          done = restarts.requests;
          left = left;
          rest = restarts.rest;
        })
        new.replayer result }
{}

/// A law: a new journal can be distinguished from the old one that it was written from. However a
/// restart ends, the new journal has a prefix of the old one, or all of it; and where it continues
/// with one more record, it is no such prefix. So a new journal that is no prefix of the old one
/// has all of the old one's records and more, and one that is has no record that the old one
/// lacks.
pub fn new_journals_are_told_from_old_ones<R: Replayer>()
    ensures copies_prefix { (old new : RestartState R) (result : Result LogState RestartFault)
        → (restarts : RestartsReplayer R.stands R.refuses old new result)
        → IsPrefixOf new.journal.held restarts.bytes }
    ensures next_record_shown { (bytes rest torn : List ℕ) (requests more : List Request)
        → HasCompleteRecords bytes requests rest → All IsRecordedRequest more
        → IsPrefixOf (journal_text (requests ++ more) ++ torn) bytes → more ≡ [] }
{}
