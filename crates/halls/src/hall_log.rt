// What has passed over the connections of a hall, for contracts alone. It occupies no memory, and
// its calls do nothing at run time.
ghost use Rattle.std.specs.Prelude.{◌≡◌};
ghost use Rattle.std.specs.Borrow.{ftrue};
ghost use Rattle.halls.specs.HallState.{HallState, new_hall};

use crate::hall::{ConnectionId, Event, Progress};
use std::marker::Model;
use xcap_io::Failed;

/// A call on a hall, and what it returned.
#[derive(Clone, Copy, Drop)]
pub enum Call<'a> {
    Listen(&'a [u8], Result<(), Failed>),
    /// With whether more connections were taken.
    Wait(bool, Result<Event, Failed>),
    Accept(usize, Result<Option<ConnectionId>, Failed>),
    /// With the buffer as the read left it.
    Read(ConnectionId, &'a [u8], Result<Progress, Failed>),
    Write(ConnectionId, &'a [u8], Result<Progress, Failed>),
    Close(ConnectionId),
}

/// What the calls on a hall have made of its state so far, as contracts see it.
#[derive(Drop)]
pub struct HallLog {
    pub ghost state: { HallState },
}

impl Model for HallLog {
    ghost also_owns = { λ _. ftrue };
}

impl HallLog {
    ghost use Rattle.halls.specs.StateChanges.{hall_after_call};

    /// An empty log.
    pub fn new() -> HallLog
        ensures nothing_passed { result.state ≡ new_hall }
    {
        HallLog {}
    }

    /// The log with one more call.
    pub fn with_call(&self, _call: &Call<'_>) -> HallLog
        ensures call_is_logged { result.state ≡ hall_after_call self.now.state _call.now }
    {
        HallLog {}
    }
}
