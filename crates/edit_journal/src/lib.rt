//! The journal of accepted requests: its records, serving with a log, and a restart from it.
//! `JournalLog` and `Journal` add a record, `LoggedMachine` serves with a log, and `restart`
//! replays.
//! Upward: a request's record is complete in the journal before its change is made, or the reply
//! is the 500 and nothing changes (`AnswersWithJournal`, `AddsRecord`); a restart replays exactly
//! the requests whose records are complete in the bytes given, in order (`RestartsReplayer`); and
//! the laws of `recovery_laws` say so of any prefix of a journal. The form of records is this
//! project's own; no standard defines one.
//! A log is a length and a mark: how much is whole records, and whether a piece of one may follow,
//! which is cut off before the next record.
#![tactic(auto)]

mod accept_loop;
mod field_parsers;
mod journal;
mod journal_log;
mod journal_restart;
mod journaled_machine;
mod laws;
mod limits;
mod logged_machine;
mod mem_journal;
mod read_buffer;
mod record_fields;
mod record_parser;
mod record_scan;
mod records;
mod recovery_laws;
mod replayer;
mod stream_journal;

pub use accept_loop::serve_streams_logged;
pub use journal::Journal;
pub use journal_log::{AppendFault, JournalLog};
pub use journal_restart::{RestartFault, restart};
pub use laws::bytes_have_one_list;
pub use limits::{MAX_JOURNAL_BYTES, MAX_RECORD_BYTES};
pub use logged_machine::LoggedMachine;
pub use mem_journal::MemJournal;
pub use recovery_laws::{
    first_bytes_hold_the_first_requests, journals_begin_a_text,
    new_journals_are_told_from_old_ones, restarts_do_the_first_requests,
};
pub use replayer::{ReplayStep, Replayer};
pub use stream_journal::StreamJournal;
