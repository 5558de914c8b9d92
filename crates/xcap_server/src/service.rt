// The documents under a root, as a machine that answers requests.
ghost use Rattle.std.specs.Prelude.{◌≡◌, ◌≤◌, None, IsOk, IfOk, OnErr};
ghost use Rattle.xcap_uri.specs.Roots.{IsRoot, authority_of, path_of};
ghost use Rattle.xcap_uri.specs.Targets.{rest_under_root};
ghost use Rattle.store_core.specs.Contents.{Represents, first_contents_within};
ghost use Rattle.store_core.specs.ValidStates.{AreCountable, IsValidState};
ghost use Rattle.store_core.specs.State.{State};
ghost use Rattle.xcap_machine.specs.Machine.{answer_with_edit, content_after_answer};
ghost use Rattle.xcap_get.specs.LentReplies.{LendsFoundReply};
ghost use Rattle.xcap_put.specs.Decisions.{IsReadyFor, answer_of};
ghost use Rattle.xcap_server.specs.inner.ServerSteps.{AnswersRequest, IsUnchanged};

use crate::lent_answers::lend_answer;
use crate::request_decisions::decide;
use edit_ops::Edit;
use http_serve::{Machine, MachineReply};
use http_wire::{LentReply, Request};
use std::alloc::{AllocError, Global};
use std::marker::Model;
use store_core::{Limits, Store};
use xcap_put::Decision;
use xcap_uri::{Root, roots_are_spelled_by_the_grammar};

// Allocates from `alloc`. Contracts see the root, and the contents of the store.
#[derive(Drop)]
pub(crate) struct Service {
    pub(crate) alloc: Global,
    pub(crate) root: Root,
    pub(crate) store: Store,
}

impl Model for Service {
    ghost use Rattle.xcap_machine.specs.ServerStates.{ServerState};
    ghost use Rattle.std.specs.Coded.{codes};
    ghost use Rattle.xml_tree.specs.inner.TreeCodes.{tree_code};
    ghost use Rattle.doc_names.specs.contracts.doc_id.DocId as d;
    ghost use Rattle.edit_ops.specs.contracts.change.Change as c;
    ghost use Rattle.store_core.specs.contracts.limits.Limits as l;

    ghost Value = { ServerState };

    ghost coded = { Prim.hlevel (codes, tree_code, d.the_row.coded, c.the_row.coded, l.the_row.coded) };

    ghost view = { λ s. record { root = s.root; content = s.store.content } };
}

impl Service {
    pub(crate) fn within(
        alloc: Global,
        root: &Root,
        first: u64,
        limits: Limits,
    ) -> Result<Service, AllocError>
        requires positive { 1 ≤ first }
        requires limits_countable { AreCountable limits }
        ensures given_root { IfOk result (λ service. service.root ≡ root.now) }
        ensures without_documents { IfOk result
            (λ service. service.content ≡ first_contents_within limits first) }
    {
        let root = root.copy(alloc)?;
        let store = Store::within(alloc, first, limits)?;
        Ok(Service { alloc, root, store })
    }

    pub(crate) fn root(&self) -> &Root
        ensures exact { result.now ≡ self.now.root }
    {
        &self.root
    }

    pub(crate) fn store(&self) -> &Store
        ensures same_contents { result.now.content ≡ self.now.content }
    {
        &self.store
    }

    // A law: the root is spelled by the grammar.
    pub(crate) fn is_rooted(&self)
        ensures grammar_root { IsRoot self.now.root (authority_of self.now.root)
            (path_of self.now.root) }
    {
        let _text = self.root.text();
        roots_are_spelled_by_the_grammar();
    }

    // A law: the contents represent a valid state.
    pub(crate) fn represents_valid_state(&self)
        ensures valid_state { (m : State) × Represents self.now.content m × IsValidState m }
    {
        self.store.represents_valid_state();
    }

    // Answers a request: it is decided, and then the change is committed, if there is one.
    pub(crate) fn respond(&mut self, request: &Request) -> Result<MachineReply<Edit>, AllocError>
        ensures machine_reply { IfOk result
            (λ answered. AnswersRequest self.old request.now answered.reply self.new
            answered.edit) }
        ensures same_root { self.new.root ≡ self.old.root }
        ensures outside_is_ok { rest_under_root self.old.root request.now.target ≡ None
            → IsOk result }
        ensures err_unchanged { OnErr result (IsUnchanged self.old self.new) }
    {
        let decision = decide(self.alloc, &self.root, &mut self.store, request)?;
        Ok(commit(&mut self.store, decision))
    }

    // The reply to a GET of a stored document, or of an element in one, with its body lent.
    pub(crate) fn lend<'a>(&'a self, request: &Request) -> Result<Option<LentReply<'a>>, AllocError>
        ensures lends_found { IfOk result (λ lent.
            LendsFoundReply self.now.root self.now.content request.now lent) }
    {
        lend_answer(self.alloc, &self.root, &self.store, request)
    }
}

// Commits the change of a decision, if there is one. Does not allocate.
pub(crate) fn commit(store: &mut Store, decision: Decision) -> MachineReply<Edit>
    requires ready { IsReadyFor store.old decision }
    ensures decided_answer { answer_with_edit result.reply result.edit ≡ answer_of decision }
    ensures makes_change { store.new.content
        ≡ content_after_answer store.old.content (answer_of decision).made }
{
    match decision {
        Decision::Stays(reply) => MachineReply { reply, edit: None },
        Decision::Changes { reply, prepared } => {
            let edit = store.commit(prepared);
            MachineReply {
                reply,
                edit: Some(edit),
            }
        }
    }
}

impl Machine for Service {
    ghost use Rattle.xcap_server.specs.inner.ServerSteps.{AnswersRequest};

    type Edit = Edit;

    ghost steps = { AnswersRequest };

    // any number of requests
    ghost takes = { λ _ _. Unit {0} };

    fn answer_reading<'a>(
        &'a self,
        request: &Request,
    ) -> Result<Option<LentReply<'a>>, AllocError> {
        self.lend(request)
    }

    fn answer(&mut self, request: &Request) -> Result<MachineReply<Edit>, AllocError> {
        self.respond(request)
    }

    ghost takes_fewer = { λ _ _ _. tt };
}
