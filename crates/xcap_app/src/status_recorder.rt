// A server that records the status of each reply.
ghost use Rattle.std.specs.Prelude.{◌≡◌, ◌≤◌, ◌<◌, [], ◌∷◌, ◌++◌, length, count_by, ◌==◌, IfOk};
ghost use Rattle.xcap_app.specs.SampleRequests.{root_text};
ghost use Rattle.xcap_app.specs.SampleCommand.{summary_of};
ghost use Rattle.xcap_app.specs.inner.RecorderSteps.{new_recorder_state};

use crate::sample_summary::Summary;
use edit_ops::Edit;
use http_serve::{Machine, MachineReply};
use http_wire::{LentReply, Request};
use std::alloc::{AllocError, Global};
use std::marker::Model;
use xcap_server::{Server, answer};
use xcap_uri::{Root, read_root};

// A server, and the statuses of its replies, in order, whose memory was reserved before.
#[derive(Drop)]
pub(crate) struct StatusRecorder {
    server: Server,
    room: Vec<u16>,
    len: usize,
}

impl Model for StatusRecorder {
    ghost use Rattle.std.specs.Prelude.{◌≤◌, length, take};
    ghost use Rattle.xcap_app.specs.inner.RecorderSteps.{RecorderState};
    ghost use Rattle.std.specs.Coded.{codes};
    ghost use Rattle.xml_tree.specs.inner.TreeCodes.{tree_code};
    ghost use Rattle.doc_names.specs.contracts.doc_id.DocId as d;
    ghost use Rattle.edit_ops.specs.contracts.change.Change as c;
    ghost use Rattle.store_core.specs.contracts.limits.Limits as l;

    ghost Value = { RecorderState };

    ghost coded = { Prim.hlevel (codes, tree_code, d.the_row.coded, c.the_row.coded, l.the_row.coded) };

    ghost view = { λ n. record {
      server = n.server;
      statuses = take n.len n.room.items;
      room = length n.room.items;
    } };

    ghost invariant = { λ n. n.len ≤ length n.room.items };
}

// The root of the server.
#[tactic(auto, unfolding(crate::specs::SampleRequests::root_text, xcap_uri::specs::Roots::root_of))]
fn sample_root(alloc: Global) -> Result<Root, AllocError>
    ensures ok { IfOk result (λ root. root ≡ root_text) }
{
    match read_root(alloc, "http://xcap.example.com/xcap")? {
        Some(root) => Ok(root),
        None => unreachable!(),
    }
}

// The number of statuses that are this one.
fn count_status(statuses: &[u16], status: u16) -> usize
    ensures exact { result ≡ count_by (λ s. s == status) statuses.now }
{
    statuses.iter().filter(|s| **s == status).count()
}

impl StatusRecorder {
    // A server without documents, and a buffer for `room` statuses.
    pub(crate) fn new(alloc: Global, room: usize) -> Result<StatusRecorder, AllocError>
        ensures is_new { IfOk result (λ noting. noting ≡ new_recorder_state room) }
    {
        let root = sample_root(alloc)?;
        let room = vec![in alloc; 0; room]?;
        let server = Server::new(alloc, &root, 1)?;
        Ok(StatusRecorder {
            server,
            room,
            len: 0,
        })
    }

    // Records a status.
    fn record_status(&mut self, status: u16)
        requires room_left { length self.old.statuses < self.old.room }
        ensures exact { self.new ≡ record self.old { statuses = self.old.statuses ++ status ∷ [] } }
    {
        self.room[self.len] = status;
        self.len += 1;
    }

    // The summary of `requests` requests, whose replies have the recorded statuses.
    pub(crate) fn summary(&self, requests: u64) -> Summary
        ensures exact { result ≡ summary_of requests self.now.statuses self.now.server.content }
    {
        let statuses = &self.room[..self.len];
        let created = count_status(statuses, 201) as u64;
        let changed = count_status(statuses, 200) as u64;
        let store = self.server.store();
        Summary {
            requests,
            created,
            changed,
            refused: requests.saturating_sub(created).saturating_sub(changed),
            documents: store.count() as u64,
            bytes: store.total(),
            last: store.last_number(),
        }
    }
}

impl Machine for StatusRecorder {
    ghost use Rattle.xcap_app.specs.inner.RecorderSteps.{AnswersRecording, HasRoomForStatuses};
    ghost use Rattle.xcap_app.specs.inner.RecorderSteps.{has_room_for_fewer};

    type Edit = Edit;

    ghost steps = { AnswersRecording };

    ghost takes = { HasRoomForStatuses };

    // Lends nothing, so that each status is recorded.
    fn answer_reading<'a>(
        &'a self,
        _request: &Request,
    ) -> Result<Option<LentReply<'a>>, AllocError> {
        Ok(None)
    }

    fn answer(&mut self, request: &Request) -> Result<MachineReply<Edit>, AllocError> {
        let answered = answer(&mut self.server, request)?;
        self.record_status(answered.reply.status());
        Ok(answered)
    }

    ghost takes_fewer = { has_room_for_fewer };
}
