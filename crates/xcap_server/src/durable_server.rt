//! The server with a log of changes, to which each change is appended before it is made.
ghost use Rattle.std.specs.Prelude.{◌≡◌, ◌<◌, ◌-◌, ◌^◌, IfOk, OnErr, true};
ghost use Rattle.change_log.specs.LogContents.{next_number};
ghost use Rattle.change_log.specs.LogStates.{kept_contents};
ghost use Rattle.change_records.specs.Records.{IsRecordable, is_writing};
ghost use Rattle.logged_state.specs.DurableAnswers.{FindsChange};
ghost use Rattle.request_checks.specs.Methods.{method_of};
ghost use Rattle.store_core.specs.Contents.{Represents};
ghost use Rattle.store_core.specs.State.{State};
ghost use Rattle.store_core.specs.ValidStates.{IsValidState};
ghost use Rattle.xcap_server.specs.DurableSteps.{AnswersDurably};

use crate::server::Server;
use change_log::ChangeLog;
use edit_ops::Edit;
use http_serve::MachineReply;
use http_wire::Request;
use logged_state::DurableMachine;
use std::alloc::{AllocError, Global};
use store_core::Store;
use xcap_uri::Root;

impl Server {
    /// A server under this root with the documents of this store. It reserves the memory of all
    /// its connections, as `new` does.
    ///
    /// # Errors
    /// `AllocError` when out of memory.
    pub fn with_store(alloc: Global, root: &Root, store: Store) -> Result<Server, AllocError>
        ensures given_root { IfOk result (λ server. server.root ≡ root.now) }
        ensures same_contents { IfOk result (λ server. server.content ≡ store.content) }
    {
        let mut server = Server::new(alloc, root, 1)?;
        server.service.store = store;
        Ok(server)
    }
}

/// Answers a request as `answer` does. If it makes a change, its record is appended to the log
/// first; where it can't be appended, the reply is the 500, and the server is unchanged.
///
/// # Errors
/// `AllocError` when out of memory; nothing has changed then.
pub fn answer_durably<L: ChangeLog>(
    server: &mut Server,
    log: &mut L,
    request: &Request,
) -> Result<MachineReply<Edit>, AllocError>
    requires recordable { is_writing (method_of request.now.method) ≡ true
        → IsRecordable request.now }
    requires is_sound { L.sound log.old }
    requires begun { (L.state log.old).is_begun ≡ true }
    requires numbers_left { next_number (kept_contents (L.state log.old)) < 2 ^ 64 - 1 }
    ensures machine_reply { IfOk result (λ answered.
        (m : State) → IsValidState m → Represents server.old.content m
        → AnswersDurably m (record { machine = server.old; log = L.state log.old })
        (record { request = request.now; reply = answered.reply; edit = answered.edit })
        (record { machine = server.new; log = L.state log.new })) }
    ensures any_moment { FindsChange (L.state log.old) request.now (L.state log.new) }
    ensures closes_as_asked { IfOk result (λ answered. answered.reply.closes ≡ request.now.closes) }
    ensures err_unchanged { OnErr result ((server.new ≡ server.old) × (log.new ≡ log.old)) }
    ensures still_begun { (L.state log.new).is_begun ≡ true }
    ensures still_sound { L.sound log.new }
{
    server.service.answer_durably(log, request)
}
