// The traffic of a stream, for contracts alone. It occupies no memory, and its calls do nothing at
// run time.
ghost use Rattle.std.specs.Prelude.{◌≡◌};
ghost use Rattle.std.specs.Borrow.{ftrue};
ghost use Rattle.xcap_io.specs.ConnectionHistories.{ConnectionHistory, no_history};
ghost use Rattle.xcap_io.specs.ConnectionHistories.{with_connection_end, with_read};
ghost use Rattle.xcap_io.specs.ConnectionHistories.{with_next_connection, with_write};

use std::marker::Model;

/// What the calls on a stream have read and written so far, as contracts see it. Each call here
/// accompanies the call that it records.
#[derive(Drop)]
pub struct TrafficLog {
    pub ghost history: { ConnectionHistory },
}

impl Model for TrafficLog {
    ghost also_owns = { λ _. ftrue };
}

impl TrafficLog {
    /// An empty log.
    pub fn new() -> TrafficLog
        ensures empty_history { result.history ≡ no_history }
    {
        TrafficLog {}
    }

    /// Records a read that gave these bytes; no bytes mean the end of the input.
    pub fn record_read(&mut self, _bytes: &[u8])
        ensures given_is_logged { self.new.history ≡ with_read self.old.history _bytes.now }
    {}

    /// Records a write of these bytes.
    pub fn record_write(&mut self, _bytes: &[u8])
        ensures taken_is_logged { self.new.history ≡ with_write self.old.history _bytes.now }
    {}

    /// The present connection ended, if there was one.
    pub fn record_end(&mut self)
        ensures connection_ended { self.new.history ≡ with_connection_end self.old.history }
    {}

    /// A new connection began, after those that ended.
    pub fn record_begin(&mut self)
        ensures next_is_logged { self.new.history ≡ with_next_connection self.old.history }
    {}
}
