// Adds records to a journal.
ghost use Rattle.std.specs.Prelude.{◌≡◌, ◌≤◌, ◌<◌, ◌+◌, ◌-◌, ◌^◌, List, [], length, false, Err};
ghost use Rattle.std.specs.Prelude.{OnOk, OnErr};
ghost use Rattle.http_wire.specs.declared.request.Request.{Request as TheRequest};
ghost use Rattle.edit_journal.specs.declared.journal_log.AppendFault.{AppendFault};
ghost use Rattle.xml_names.specs.Limits.{u64_max};
ghost use Rattle.edit_journal.specs.Journals.{IsJournalProgress};
ghost use Rattle.edit_journal.specs.declared.limits.TheConstants.{MAX_RECORD_BYTES};
ghost use Rattle.edit_journal.specs.Records.{IsRecordable, record_of};
ghost use Rattle.edit_journal.specs.JournalLogs.{LogFitsJournal, HoldsRecords, AddsRecord};
ghost use Rattle.edit_journal.specs.JournalLogs.{with_request};
ghost use Rattle.edit_journal.specs.inner.AppendSteps.{RepairsLog, AppendsToLog, FailsToAppend};

use crate::Journal;
use crate::records::record_of;
use http_wire::Request;
use std::alloc::{AllocError, Global};
use std::marker::Model;
use xcap_io::Failed;

/// The length of the complete records in a journal, and whether a part of a record may come after
/// them.
#[derive(Drop)]
pub struct JournalLog {
    len: u64,
    is_torn: bool,
}

impl Model for JournalLog {
    ghost use Rattle.edit_journal.specs.JournalLogs.{LogState};

    ghost Value = { LogState };

    ghost view = { λ log. record { len = log.len; is_torn = log.is_torn } };
}

/// Why a record wasn't added.
#[derive(Clone, Copy, PartialEq, Eq)]
pub enum AppendFault {
    /// The journal failed, and its fault counter rose. A part of the record may come after the
    /// complete ones.
    Failed,
    /// Memory ran out before anything was added.
    NoMemory,
}

impl From<Failed> for AppendFault {
    ghost use Rattle.edit_journal.specs.declared.journal_log.AppendFault.{AppendFault};

    ghost from_gives = { λ _ fault. fault ≡ AppendFault.Failed };

    fn from(_failed: Failed) -> AppendFault {
        AppendFault::Failed
    }
}

impl From<AllocError> for AppendFault {
    ghost use Rattle.edit_journal.specs.declared.journal_log.AppendFault.{AppendFault};

    ghost from_gives = { λ _ fault. fault ≡ AppendFault.NoMemory };

    fn from(_none: AllocError) -> AppendFault {
        AppendFault::NoMemory
    }
}

impl JournalLog {
    /// The log of an empty journal. Does not allocate.
    pub fn new() -> JournalLog
        ensures holds_nothing { result ≡ record { len = 0; is_torn = false } }
    {
        JournalLog {
            len: 0,
            is_torn: false,
        }
    }

    /// The length of the complete records in bytes.
    pub fn len(&self) -> u64
        ensures exact { result ≡ self.now.len }
    {
        self.len
    }

    /// Whether a part of a record may come after the complete ones.
    pub fn is_torn(&self) -> bool
        ensures exact { result ≡ self.now.is_torn }
    {
        self.is_torn
    }

    // Cuts off what may come after the complete records.
    #[tactic(auto, using(crate::proofs::JournalCalls::going))]
    fn repair<J: Journal>(&mut self, journal: &mut J) -> Result<(), Failed>
        requires { LogFitsJournal self.old (J.state journal.old) }
        ensures repairs_tail { OnOk result
            (RepairsLog self.old (J.state journal.old) self.new (J.state journal.new)) }
        ensures err_keeps_whole { OnErr result
            (FailsToAppend self.old (J.state journal.old) [] self.new (J.state journal.new)) }
        ensures still_fits { LogFitsJournal self.new (J.state journal.new) }
        ensures goes_on { IsJournalProgress (J.state journal.old) (J.state journal.new) }
    {
        if !self.is_torn {
            return Ok(());
        }
        journal.cut(self.len)?;
        self.is_torn = false;
        Ok(())
    }

    // Appends bytes to the complete records, after which nothing comes.
    fn add<J: Journal>(&mut self, journal: &mut J, bytes: &[u8]) -> Result<(), Failed>
        requires not_torn { self.old.is_torn ≡ false }
        requires room_left { self.old.len + length bytes.now < 2 ^ 64 }
        requires fits { LogFitsJournal self.old (J.state journal.old) }
        ensures adds_bytes { OnOk result
            (AppendsToLog self.old (J.state journal.old) bytes.now self.new (J.state journal.new)) }
        ensures err_keeps_whole { OnErr result
            (FailsToAppend self.old (J.state journal.old) bytes.now self.new
            (J.state journal.new)) }
        ensures still_fits { LogFitsJournal self.new (J.state journal.new) }
        ensures goes_on { IsJournalProgress (J.state journal.old) (J.state journal.new) }
    {
        self.is_torn = true;
        journal.append(bytes)?;
        self.is_torn = false;
        self.len += bytes.len() as u64;
        Ok(())
    }

    /// Adds the record of a request to the complete ones, after cutting off what may come after
    /// them.
    ///
    /// # Errors
    /// `Failed` where the journal failed and its fault counter rose; the complete records are
    /// unchanged, and the log is torn. `NoMemory` when out of memory; then nothing has changed.
    #[tactic(auto, using(crate::proofs::JournalCalls::going))]
    pub fn append<J: Journal>(
        &mut self,
        alloc: Global,
        journal: &mut J,
        request: &Request,
    ) -> Result<(), AppendFault>
        requires recordable { IsRecordable request.now }
        requires fits { LogFitsJournal self.old (J.state journal.old) }
        requires room_left { self.old.len ≤ u64_max - MAX_RECORD_BYTES }
        ensures adds_record { AddsRecord
            (record { log = self.old; journal = J.state journal.old }) (record_of request.now)
            result (record { log = self.new; journal = J.state journal.new }) }
        ensures keeps_records { (requests : List TheRequest)
            → HoldsRecords self.old requests (J.state journal.old).held
            → HoldsRecords self.new (with_request result requests request.now)
            (J.state journal.new).held }
        ensures no_memory_unchanged { result ≡ Err AppendFault.NoMemory
            → journal.new ≡ journal.old }
        ensures still_fits { LogFitsJournal self.new (J.state journal.new) }
        ensures goes_on { IsJournalProgress (J.state journal.old) (J.state journal.new) }
    {
        let record = record_of(alloc, request)?;
        self.repair(journal)?;
        self.add(journal, record.as_slice())?;
        Ok(())
    }
}
