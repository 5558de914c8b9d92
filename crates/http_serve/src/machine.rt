//! The machine that answers requests.
ghost use Rattle.std.specs.Prelude.{◌≡◌, ℕ, suc, Option, None, IfOk, IfSome, OnErr};
ghost use Rattle.reply_text.specs.ReplyHeads.{SentReply};
ghost use Rattle.http_wire.specs.declared.request.Request.{Request as TheRequest};
ghost use Rattle.http_serve.specs.ReadRequests.{IsReadRequest};

use http_wire::{LentReply, Request};
use reply_text::Reply;
use std::alloc::AllocError;

/// The reply to a request, and the edit that the request made, if it made one.
#[derive(Drop)]
pub struct MachineReply<E> {
    pub reply: Reply,
    pub edit: Option<E>,
}

/// An object that answers requests, one after the other.
pub trait Machine {
    /// The edit that is reported for a change.
    type Edit: Drop;

    /// Relates a state, a request, the reply, the state after it, and the edit.
    ghost steps: { Self → TheRequest → SentReply → Self → Option Self.Edit → Type 0 };

    /// The machine can answer this many more requests.
    ghost takes: { Self → ℕ → Type 0 };

    /// The reply to a request that was read on a connection, its body lent by the machine, which
    /// is unchanged: None where it lends none. A connection asks for it where `answer` is out of
    /// memory. The reply closes the connection exactly where the request does.
    ///
    /// # Errors
    /// `AllocError` when out of memory.
    fn answer_reading<'a>(&'a self, request: &Request) -> Result<Option<LentReply<'a>>, AllocError>
        requires request_read { IsReadRequest request.now }
        requires room_left { takes self.now 1 }
        ensures makes_step { IfOk result (λ lent. IfSome lent
            (λ reply. steps self.now request.now reply self.now None)) }
        ensures closes_as_asked { IfOk result (λ lent. IfSome lent
            (λ reply. reply.closes ≡ request.now.closes)) };

    /// Answers a request that was read on a connection. The reply closes the connection exactly
    /// where the request does.
    ///
    /// # Errors
    /// `AllocError` when out of memory; the state is then unchanged.
    fn answer(&mut self, request: &Request) -> Result<MachineReply<Self::Edit>, AllocError>
        requires request_read { IsReadRequest request.now }
        requires room_left { takes self.old 1 }
        ensures makes_step { IfOk result
            (λ answered. steps self.old request.now answered.reply self.new answered.edit) }
        ensures closes_as_asked { IfOk result
            (λ answered. answered.reply.closes ≡ request.now.closes) }
        ensures err_unchanged { OnErr result (self.new ≡ self.old) }
        ensures takes_one_fewer { (n : ℕ) → takes self.old (suc n) → takes self.new n };

    /// A machine that can answer n + 1 requests can answer n.
    ghost takes_fewer: { (machine : Self) (n : ℕ) → takes machine (suc n) → takes machine n };
}
