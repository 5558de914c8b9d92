// Replays an old journal at a restart.
ghost use Rattle.std.specs.Prelude.{◌≡◌, ◌+◌, ◌≤◌, ℕ, List, [], ◌++◌, length, false, OnOk};
ghost use Rattle.edit_journal.specs.JournalLogs.{LogFitsJournal};
ghost use Rattle.edit_journal.specs.declared.limits.TheConstants.{MAX_JOURNAL_BYTES};
ghost use Rattle.edit_journal.specs.Records.{record_of};
ghost use Rattle.edit_journal.specs.JournalTexts.{IsRecordedRequest, HasNoRecord, IsTorn};
ghost use Rattle.edit_journal.specs.Restarts.{RestartsReplayer};
ghost use Rattle.edit_journal.specs.inner.ReplaySteps.{ReplaysBufferedRecords};

use crate::read_buffer::{FillResult, ReadBuffer};
use crate::{AppendFault, Journal, JournalLog, ReplayStep, Replayer};
use http_wire::Request;
use std::alloc::{AllocError, Global};
use xcap_io::{Failed, Line, Source};

/// Why a restart ended before the old journal was read to its end.
#[derive(Clone, Copy, PartialEq, Eq)]
pub enum RestartFault {
    /// The source failed, and its counter of read faults rose.
    ReadFailed,
    /// The new journal failed, and its fault counter rose.
    AppendFailed,
    /// From this offset on the bytes of the old journal begin no record.
    Damaged(u64),
    /// The request of this record, counted from 1, is refused in the state after the requests
    /// before it.
    Refused(u64),
    /// The old journal has more than `MAX_JOURNAL_BYTES` bytes.
    TooLong,
    /// Out of memory.
    NoMemory,
}

impl From<AllocError> for RestartFault {
    ghost use Rattle.edit_journal.specs.declared.journal_restart.RestartFault.{RestartFault};

    ghost from_gives = { λ _ fault. fault ≡ RestartFault.NoMemory };

    fn from(_none: AllocError) -> RestartFault {
        RestartFault::NoMemory
    }
}

impl From<Failed> for RestartFault {
    ghost use Rattle.edit_journal.specs.declared.journal_restart.RestartFault.{RestartFault};

    ghost from_gives = { λ _ fault. fault ≡ RestartFault.ReadFailed };

    fn from(_failed: Failed) -> RestartFault {
        RestartFault::ReadFailed
    }
}

impl From<AppendFault> for RestartFault {
    ghost use Rattle.edit_journal.specs.inner.ReplaySteps.{restart_fault_of};

    ghost from_gives = { λ fault made. made ≡ restart_fault_of fault };

    fn from(fault: AppendFault) -> RestartFault {
        match fault {
            AppendFault::Failed => RestartFault::AppendFailed,
            AppendFault::NoMemory => RestartFault::NoMemory,
        }
    }
}

// Replays a request, and adds its record to the journal, after `count` earlier ones.
fn replay_request<J: Journal, R: Replayer>(
    alloc: Global,
    request: &Request,
    journal: &mut J,
    replayer: &mut R,
    log: &mut JournalLog,
    count: &mut u64,
) -> Result<(), RestartFault>
    requires is_reported { IsRecordedRequest request.now }
    requires not_torn { log.old.is_torn ≡ false }
    requires fits { LogFitsJournal log.old (J.state journal.old) }
    requires length_bounded { log.old.len ≤ MAX_JOURNAL_BYTES }
    requires within_max { count.old ≤ MAX_JOURNAL_BYTES }
    ensures redoes_request { (more : List ℕ)
        → ReplaysBufferedRecords R.stands R.refuses
        (record {
          replayer = replayer.old;
          journal = J.state journal.old;
          log = log.old;
          count = count.old;
        })
        (record {
          replayer = replayer.new;
          journal = J.state journal.new;
          log = log.new;
          count = count.new;
        })
        (record_of request.now ++ more) more result }
    ensures same_subject { R.about replayer.new ≡ R.about replayer.old }
{
    match replayer.redo(request) {
        ReplayStep::Done => {}
        ReplayStep::Refused => return Err(RestartFault::Refused(*count + 1)),
        ReplayStep::NoMemory => return Err(RestartFault::NoMemory),
    }
    *count += 1;
    log.append(alloc, journal, request)?;
    Ok(())
}

// Replays the requests whose records are complete in the buffer, in order, and adds their records
// to the journal.
fn replay_buffered<J: Journal, R: Replayer>(
    alloc: Global,
    read_buffer: &mut ReadBuffer,
    journal: &mut J,
    replayer: &mut R,
    log: &mut JournalLog,
    count: &mut u64,
) -> Result<(), RestartFault>
    requires not_torn { log.old.is_torn ≡ false }
    requires fits { LogFitsJournal log.old (J.state journal.old) }
    requires length_bounded { log.old.len + length read_buffer.old.held ≤ MAX_JOURNAL_BYTES }
    requires within_max { count.old ≤ log.old.len }
    ensures redoes_whole { ReplaysBufferedRecords R.stands R.refuses
        (record {
          replayer = replayer.old;
          journal = J.state journal.old;
          log = log.old;
          count = count.old;
        })
        (record {
          replayer = replayer.new;
          journal = J.state journal.new;
          log = log.new;
          count = count.new;
        })
        read_buffer.old.held read_buffer.new.held result }
    ensures torn_rest { OnOk result
        (HasNoRecord read_buffer.new.held × IsTorn read_buffer.new.held) }
    ensures takes_no_more { read_buffer.new.taken ≡ read_buffer.old.taken }
    ensures same_subject { R.about replayer.new ≡ R.about replayer.old }
{
    'records: while let Some(request) = read_buffer.next_record(alloc, log.len())? {
        replay_request(alloc, &request, journal, replayer, log, count)?;
    }
    Ok(())
}

/// Restores a replayer from the bytes of an old journal: replays each request whose record is
/// complete in them, in order, and adds its record to the new journal, which is empty at first. A
/// torn rest is left out.
///
/// # Errors
/// The first fault that is met in the bytes, in order; no request after it was replayed.
pub fn restart<S: Source, J: Journal, R: Replayer>(
    alloc: Global,
    source: &mut S,
    journal: &mut J,
    replayer: &mut R,
) -> Result<JournalLog, RestartFault>
    requires { (J.state journal.old).held ≡ [] }
    ensures as_specified { RestartsReplayer R.stands R.refuses
        (record {
          source = S.state source.old;
          journal = J.state journal.old;
          replayer = replayer.old;
        })
        (record {
          source = S.state source.new;
          journal = J.state journal.new;
          replayer = replayer.new;
        })
        result }
    ensures same_subject { R.about replayer.new ≡ R.about replayer.old }
{
    let mut read_buffer = ReadBuffer::new(alloc)?;
    let mut log = JournalLog::new();
    let mut count = 0;
    'reading: loop {
        match read_buffer.fill(source)? {
            FillResult::Some => replay_buffered(
                alloc,
                &mut read_buffer,
                journal,
                replayer,
                &mut log,
                &mut count,
            )?,
            FillResult::End => return Ok(log),
            FillResult::Beyond => return Err(RestartFault::TooLong),
        }
    }
}
