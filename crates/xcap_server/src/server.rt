//! The server: the documents under a root, which connections read and change.
ghost use Rattle.std.specs.Prelude.{◌≡◌, ◌≤◌, None, IsOk, IfOk, OnErr};
ghost use Rattle.xcap_uri.specs.Targets.{rest_under_root};
ghost use Rattle.store_core.specs.State.{State};
ghost use Rattle.store_core.specs.Contents.{HasDocumentsOf, Represents};
ghost use Rattle.store_core.specs.Contents.{first_contents, first_contents_within};
ghost use Rattle.store_core.specs.ValidStates.{AreCountable, IsValidState};
ghost use Rattle.xcap_machine.specs.WriteEffects.{DeleteTargetIsGone, EditKeepsKeyAddresses};
ghost use Rattle.xcap_machine.specs.WriteEffects.{PutTargetExists};
ghost use Rattle.xcap_machine.specs.WriteEffects.{RepeatedPutPreservesTrees};
ghost use Rattle.xcap_machine.specs.Machine.{StandardStep, ValidStep};
ghost use Rattle.xcap_machine.specs.SubscriberVersions.{UpdatesAllSubscribers};
ghost use Rattle.http_serve.specs.ServedPorts.{ServesPort};
ghost use Rattle.http_serve.specs.ServedStreams.{ServesStream};
ghost use Rattle.http_serve.specs.ReplyBytes.{StepsInBytes};
ghost use Rattle.xcap_get.specs.LentReplies.{LendsFoundReply};

use crate::service::Service;
use crate::standard_server::StandardServer;
use edit_ops::Edit;
use http_serve::{
    CloseReason, ConnectionBuffers, MachineReply, ServeSummary, serve_stream, serve_streams,
};
use http_wire::{LentReply, Request};
use std::alloc::{AllocError, Global};
use std::marker::Model;
use store_core::{Limits, Store};
use watchers::Watchers;
use xcap_io::{Port, Sink, Source};
use xcap_uri::Root;

/// A server of documents under a root, with the buffers of its connections, which it serves one
/// after the other. Contracts see the root, and the contents of the store.
#[derive(Drop)]
pub struct Server {
    pub(crate) service: Service,
    pub(crate) buffers: ConnectionBuffers,
}

impl Model for Server {
    ghost use Rattle.xcap_machine.specs.ServerStates.{ServerState};
    ghost use Rattle.std.specs.Coded.{codes};
    ghost use Rattle.xml_tree.specs.inner.TreeCodes.{tree_code};
    ghost use Rattle.doc_names.specs.contracts.doc_id.DocId as d;
    ghost use Rattle.edit_ops.specs.contracts.change.Change as c;
    ghost use Rattle.store_core.specs.contracts.limits.Limits as l;

    ghost Value = { ServerState };

    ghost coded = { Prim.hlevel (codes, tree_code, d.the_row.coded, c.the_row.coded, l.the_row.coded) };

    ghost view = { λ s. s.service };
}

impl Server {
    /// A server without documents under this root and the default limits, whose first change gets
    /// the number `first`. It reserves the memory of all its connections, except for their
    /// requests, replies and documents, which are allocated from `alloc` later.
    ///
    /// # Errors
    /// `AllocError` when out of memory.
    pub fn new(alloc: Global, root: &Root, first: u64) -> Result<Server, AllocError>
        requires positive { 1 ≤ first }
        ensures given_root { IfOk result (λ server. server.root ≡ root.now) }
        ensures without_documents { IfOk result
            (λ server. server.content ≡ first_contents first) }
    {
        Server::within(alloc, root, first, Limits::usual())
    }

    /// A server without documents under this root, as `new` makes it, under these limits.
    ///
    /// # Errors
    /// `AllocError` when out of memory.
    pub fn within(
        alloc: Global,
        root: &Root,
        first: u64,
        limits: Limits,
    ) -> Result<Server, AllocError>
        requires positive { 1 ≤ first }
        requires limits_countable { AreCountable limits }
        ensures given_root { IfOk result (λ server. server.root ≡ root.now) }
        ensures without_documents { IfOk result
            (λ server. server.content ≡ first_contents_within limits first) }
    {
        let buffers = ConnectionBuffers::new(alloc)?;
        let service = Service::within(alloc, root, first, limits)?;
        Ok(Server { service, buffers })
    }

    /// The root. Does not allocate.
    pub fn root(&self) -> &Root
        ensures exact { result.now ≡ self.now.root }
    {
        self.service.root()
    }

    /// The documents. Does not allocate.
    pub fn store(&self) -> &Store
        ensures same_contents { result.now.content ≡ self.now.content }
    {
        self.service.store()
    }
}

/// Answers a request as the standards say (RFC 4825, section 8; `standard_step`), and one for this
/// server's own targets as `machine_step` says. After a PUT that made a change, its address
/// selects exactly what its body is parsed as, and the same request, made again, if it has no
/// condition fields, leaves every tree unchanged and gets 200, or 507 where no number is left for
/// a change.
/// After a DELETE that made a change, its address selects nothing. A change preserves what key
/// addresses select, where it moves it, except for keys that it writes itself. A subscriber with a
/// version of a document that applies the diff document of the feed since its tag then has exactly
/// the document's version. A request whose target is outside the root doesn't allocate.
///
/// # Errors
/// `AllocError` when out of memory; the server is then as before.
pub fn answer(server: &mut Server, request: &Request) -> Result<MachineReply<Edit>, AllocError>
    ensures standard_step { IfOk result
        (λ answered. (m : State) → HasDocumentsOf server.old.content m
        → (next : State)
        × StandardStep server.old.root m request.now answered.reply next answered.edit
        × HasDocumentsOf server.new.content next) }
    ensures machine_step { IfOk result
        (λ answered. (m : State) → IsValidState m → Represents server.old.content m
        → (next : State) × ValidStep server.old.root m request.now answered.reply next answered.edit
        × Represents server.new.content next) }
    ensures put_is_there { IfOk result (λ answered.
        PutTargetExists server.old.root server.old.content request.now answered.edit
        server.new.content) }
    ensures deleted_is_gone { IfOk result (λ answered.
        DeleteTargetIsGone server.old.root request.now answered.edit server.new.content) }
    ensures second_put_unchanged { IfOk result (λ answered.
        RepeatedPutPreservesTrees server.old.root request.now answered.edit server.new.content) }
    ensures key_addresses_stay { IfOk result (λ answered.
        EditKeepsKeyAddresses server.old.content answered.edit server.new.content) }
    ensures subscribers_hold_it { IfOk result (λ answered. (m : State) → IsValidState m
        → Represents server.old.content m
        → UpdatesAllSubscribers server.old.root m request.now answered.reply) }
    ensures closes_as_asked { IfOk result (λ answered. answered.reply.closes ≡ request.now.closes) }
    ensures outside_is_ok { rest_under_root server.old.root request.now.target ≡ None
        → IsOk result }
    ensures same_root { server.new.root ≡ server.old.root }
    ensures err_unchanged { OnErr result (server.new.content ≡ server.old.content) }
{
    server.service.is_rooted();
    server.service.represents_valid_state();
    server.service.respond(request)
}

/// The reply to a GET of a stored document, or of an element in one, where that has status 200: its
/// body is lent by the server, and takes no memory. None exactly for other requests and replies.
///
/// # Errors
/// `AllocError` when out of memory for the target and the conditions of the request.
pub fn answer_reading<'a>(
    server: &'a Server,
    request: &Request,
) -> Result<Option<LentReply<'a>>, AllocError>
    ensures lends_found { IfOk result (λ lent.
        LendsFoundReply server.now.root server.now.content request.now lent) }
{
    server.service.lend(request)
}

/// Serves a connection: each request is read and answered, watchers are notified where it made a
/// change, and the reply is written, in this order, until a reply closes the connection, its bytes
/// end, or a read or a write fails. Bytes that are no request get their fixed reply, and a request
/// for which memory runs out gets the fixed 503; both close. After a read that failed there is no
/// further reply. Does not allocate before the first request. The answers are as the standards say
/// (`standard_session`), also those for this server's own targets are the machine's, and every
/// state on the way is valid (`machine_session`).
pub fn serve_connection<L: Source + Sink, W: Watchers<Edit>>(
    server: &mut Server,
    line: &mut L,
    watchers: &mut W,
) -> CloseReason
    ensures standard_session { (m : State) → HasDocumentsOf server.old.content m
        → (next : State) × HasDocumentsOf server.new.content next
        × ServesStream (StepsInBytes (StandardStep server.old.root)) W.keeps result
        (record { machine = m; stream = L.state line.old; watchers = watchers.old })
        (record { machine = next; stream = L.state line.new; watchers = watchers.new }) }
    ensures machine_session { (m : State) → IsValidState m → Represents server.old.content m
        → (next : State) × IsValidState next × Represents server.new.content next
        × ServesStream (StepsInBytes (ValidStep server.old.root)) W.keeps result
        (record { machine = m; stream = L.state line.old; watchers = watchers.old })
        (record { machine = next; stream = L.state line.new; watchers = watchers.new }) }
    ensures same_root { server.new.root ≡ server.old.root }
{
    serve_stream(&mut server.service, &mut server.buffers, line, watchers)
}

/// Serves the next connections of a port, at most `count`, as `serve_connection` does, one
/// after the other. Every state on the way is valid.
pub fn serve_port<P: Port, W: Watchers<Edit>>(
    server: &mut Server,
    port: &mut P,
    count: u64,
    watchers: &mut W,
) -> ServeSummary
    ensures machine_session { (m : State) → IsValidState m → Represents server.old.content m
        → (next : State) × IsValidState next × Represents server.new.content next
        × ServesPort (StepsInBytes (ValidStep server.old.root)) W.keeps
        (record { most = count; served = result })
        (record { machine = m; stream = P.state port.old; watchers = watchers.old })
        (record { machine = next; stream = P.state port.new; watchers = watchers.new }) }
    ensures same_root { server.new.root ≡ server.old.root }
{
    serve_streams(
        &mut server.service,
        &mut server.buffers,
        port,
        count,
        watchers,
    )
}

impl StandardServer for Server {
    ghost use Rattle.store_core.specs.Contents.{Represents};
    ghost use Rattle.store_core.specs.ValidStates.{IsValidState};
    ghost use Rattle.xcap_machine.specs.Machine.{ValidStep};

    ghost root = { λ server. server.root };

    ghost represents = { λ server m. IsValidState m × Represents server.content m };

    // every state on the way is valid
    ghost own_step = { ValidStep };

    fn serve_port<P: Port, W: Watchers<Edit>>(
        &mut self,
        port: &mut P,
        count: u64,
        watchers: &mut W,
    ) -> ServeSummary {
        serve_streams(&mut self.service, &mut self.buffers, port, count, watchers)
    }
}
