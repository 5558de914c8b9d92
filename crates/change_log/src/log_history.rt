// The history of a log, for contracts alone. It occupies no memory, and its calls do nothing at
// run time.
ghost use Rattle.std.specs.Prelude.{◌≡◌, ◌++◌, ◌∷◌, []};
ghost use Rattle.std.specs.Borrow.{ftrue};
ghost use Rattle.change_log.specs.LogContents.{no_contents, snapshot_of, with_change, with_part};
ghost use Rattle.change_log.specs.LogHistories.{History, history_from, with_appended_change};
ghost use Rattle.change_log.specs.LogHistories.{with_draft};
ghost use Rattle.change_log.specs.LogHistories.{with_possible_snapshot, without_open_change};
ghost use Rattle.change_log.specs.LogHistories.{with_open_change};
ghost use Rattle.change_log.specs.LogHistories.{with_snapshot, with_step};

use std::marker::Model;

/// What a restart finds in a log at each moment, as contracts see it. Each call here accompanies
/// the call that it records.
#[derive(Drop)]
pub struct LogHistory {
    pub ghost log: { History },
}

impl Model for LogHistory {
    ghost also_owns = { λ _. ftrue };
}

impl LogHistory {
    /// A log in which nothing was ever written.
    pub fn new() -> LogHistory
        ensures exact { result.log ≡ history_from no_contents }
    {
        LogHistory {}
    }

    /// A part of the snapshot was found when the log was opened.
    pub fn record_found_part(&mut self, _bytes: &[u8])
        ensures exact { self.new.log ≡ history_from (with_part _bytes.now self.old.log.now.kept) }
    {}

    /// The end of the snapshot was found when the log was opened.
    pub fn record_found_first(&mut self, _number: u64)
        ensures exact { self.new.log
            ≡ history_from (snapshot_of self.old.log.now.kept.parts _number) }
    {}

    /// A change was found when the log was opened.
    pub fn record_found_change(&mut self, _bytes: &[u8])
        ensures exact { self.new.log ≡ history_from (with_change _bytes.now self.old.log.now.kept) }
    {}

    /// A call that leaves the log as it was.
    pub fn record_no_change(&mut self)
        ensures exact { self.new.log ≡ with_step self.old.log (λ m. m) }
    {}

    /// The change may be there from now on.
    pub fn record_open_change(&mut self, _bytes: &[u8])
        ensures exact { self.new.log ≡ with_step self.old.log (with_open_change _bytes.now) }
    {}

    /// The change whose append failed is taken back.
    pub fn record_no_open_change(&mut self)
        ensures exact { self.new.log ≡ with_step self.old.log without_open_change }
    {}

    /// The change is there.
    pub fn record_appended_change(&mut self, _bytes: &[u8])
        ensures exact { self.new.log ≡ with_step self.old.log (with_appended_change _bytes.now) }
    {}

    /// A snapshot was begun.
    pub fn begin_draft(&mut self)
        ensures exact { self.new.log ≡ with_draft [] self.old.log }
    {}

    /// The part was added to the snapshot.
    pub fn add_part(&mut self, _bytes: &[u8])
        ensures exact { self.new.log
            ≡ with_draft (self.old.log.draft ++ _bytes.now ∷ []) self.old.log }
    {}

    /// The snapshot may be there instead from now on.
    pub fn record_possible_snapshot(&mut self, _number: u64)
        ensures exact { self.new.log ≡ with_possible_snapshot _number self.old.log }
    {}

    /// The snapshot is there, and nothing else.
    pub fn record_snapshot(&mut self, _number: u64)
        ensures exact { self.new.log ≡ with_snapshot _number self.old.log }
    {}
}
