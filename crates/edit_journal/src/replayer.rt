// What requests are replayed on.
ghost use Rattle.std.specs.Prelude.{◌≡◌, ℕ, List};
ghost use Rattle.http_wire.specs.declared.request.Request.{Request as TheRequest};
ghost use Rattle.edit_journal.specs.Replayers.{ReplaysRequest};

use http_wire::Request;

/// The result of replaying a request.
#[derive(Clone, Copy, PartialEq, Eq)]
pub enum ReplayStep {
    /// The request was replayed.
    Done,
    /// The request can't be replayed now. Nothing has changed.
    Refused,
    /// Out of memory. Nothing has changed.
    NoMemory,
}

/// An object on which accepted requests are replayed, one after the other.
pub trait Replayer {
    /// Its state represents these requests, made one after the other.
    ghost stands: { Self → List TheRequest → Type 0 };

    /// It refuses this request.
    ghost refuses: { Self → TheRequest → Type 0 };

    /// What no request changes, such as the root of a server.
    ghost about: { Self → List ℕ };

    /// Replays a request. `Refused` comes exactly where it refuses the request, unless out of
    /// memory.
    fn redo(&mut self, request: &Request) -> ReplayStep
        ensures redoes_request { ReplaysRequest stands refuses self.old request.now result
            self.new }
        ensures same_subject { about self.new ≡ about self.old };
}
