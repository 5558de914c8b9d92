//! The server that answers requests for its status, and as the machine does all others.
ghost use Rattle.std.specs.Prelude.{◌≡◌, ◌≤◌, true, false, IfOk, OnErr};
ghost use Rattle.store_core.specs.Contents.{first_contents_within};
ghost use Rattle.store_core.specs.ValidStates.{AreCountable};
ghost use Rattle.host_status.specs.HostSteps.{asks_for_status};
ghost use Rattle.host_status.specs.inner.StatusServers.{AnswersAsHost};

use crate::answer_counts::AnswerCounts;
use crate::status_replies::status_reply;
use crate::status_requests::asks_for_status;
use edit_ops::Edit;
use http_serve::{Machine, MachineReply};
use http_wire::{LentReply, Request};
use std::alloc::{AllocError, Global};
use std::marker::Model;
use store_core::Limits;
use xcap_server::{Server, answer};
use xcap_uri::Root;

/// A server of documents under a root, which counts the requests that it answers. Contracts see the
/// root, and the contents of the store.
#[derive(Drop)]
pub struct StatusServer {
    alloc: Global,
    server: Server,
    counts: AnswerCounts,
}

impl Model for StatusServer {
    ghost use Rattle.xcap_machine.specs.ServerStates.{ServerState};
    ghost use Rattle.std.specs.Coded.{codes};
    ghost use Rattle.xml_tree.specs.inner.TreeCodes.{tree_code};
    ghost use Rattle.doc_names.specs.contracts.doc_id.DocId as d;
    ghost use Rattle.edit_ops.specs.contracts.change.Change as c;

    ghost Value = { ServerState };

    ghost coded = { Prim.hlevel (codes, tree_code, d.the_row.coded, c.the_row.coded) };

    ghost view = { λ s. s.server };
}

impl StatusServer {
    /// A server without documents under this root and these limits, whose first change gets the
    /// number `first`, and which has answered no request.
    ///
    /// # Errors
    /// `AllocError` when out of memory.
    pub fn within(
        alloc: Global,
        root: &Root,
        first: u64,
        limits: Limits,
    ) -> Result<StatusServer, AllocError>
        requires positive { 1 ≤ first }
        requires limits_countable { AreCountable limits }
        ensures given_root { IfOk result (λ server. server.root ≡ root.now) }
        ensures without_documents { IfOk result
            (λ server. server.content ≡ first_contents_within limits first) }
    {
        let server = Server::within(alloc, root, first, limits)?;
        Ok(StatusServer {
            alloc,
            server,
            counts: AnswerCounts::new(),
        })
    }

    // Answers a request for the status.
    fn respond_with_status(&mut self, request: &Request) -> Result<MachineReply<Edit>, AllocError>
        requires asked { asks_for_status self.old.root request.now ≡ true }
        ensures makes_step { IfOk result
            (λ answered. AnswersAsHost self.old request.now answered.reply self.new
            answered.edit) }
        ensures closes_as_asked { IfOk result
            (λ answered. answered.reply.closes ≡ request.now.closes) }
        ensures err_unchanged { OnErr result (self.new ≡ self.old) }
    {
        let reply = status_reply(self.alloc, &self.server, &self.counts, request)?;
        Ok(MachineReply { reply, edit: None })
    }

    // Answers another request.
    fn respond_to_other(&mut self, request: &Request) -> Result<MachineReply<Edit>, AllocError>
        requires other { asks_for_status self.old.root request.now ≡ false }
        ensures makes_step { IfOk result
            (λ answered. AnswersAsHost self.old request.now answered.reply self.new
            answered.edit) }
        ensures closes_as_asked { IfOk result
            (λ answered. answered.reply.closes ≡ request.now.closes) }
        ensures err_unchanged { OnErr result (self.new ≡ self.old) }
    {
        answer(&mut self.server, request)
    }

    // Answers a request.
    fn respond(&mut self, request: &Request) -> Result<MachineReply<Edit>, AllocError>
        ensures makes_step { IfOk result
            (λ answered. AnswersAsHost self.old request.now answered.reply self.new
            answered.edit) }
        ensures closes_as_asked { IfOk result
            (λ answered. answered.reply.closes ≡ request.now.closes) }
        ensures err_unchanged { OnErr result (self.new ≡ self.old) }
    {
        if self.is_asked(request) {
            return self.respond_with_status(request);
        }
        self.respond_to_other(request)
    }

    // Whether it is a request for the status.
    fn is_asked(&self, request: &Request) -> bool
        ensures exact { result ≡ asks_for_status self.now.root request.now }
    {
        asks_for_status(self.server.root(), request)
    }

    // One more request was answered, with this status.
    fn count_answer(&mut self, status: u16)
        ensures same_server { self.new ≡ self.old }
    {
        self.counts.count(status);
    }
}

impl Machine for StatusServer {
    ghost use Rattle.host_status.specs.inner.StatusServers.{AnswersAsHost};

    type Edit = Edit;

    ghost steps = { AnswersAsHost };

    // any number of requests
    ghost takes = { λ _ _. Unit {0} };

    // No body is lent: connections of a hall ask for none.
    fn answer_reading<'a>(
        &'a self,
        _request: &Request,
    ) -> Result<Option<LentReply<'a>>, AllocError> {
        Ok(None)
    }

    fn answer(&mut self, request: &Request) -> Result<MachineReply<Edit>, AllocError> {
        let answered = self.respond(request)?;
        self.count_answer(answered.reply.status());
        Ok(answered)
    }

    ghost takes_fewer = { λ _ _ _. tt };
}
