//! A peer over a server in memory.
ghost use Rattle.std.specs.Prelude.{◌≡◌, ◌<◌, [], false, length, IfOk};
ghost use Rattle.std.specs.Io.{ReadsAtMost};
ghost use Rattle.xcap_io.specs.StreamStates.{OnlyReads, OnlyWrites};
ghost use Rattle.xcap_io.specs.Connections.{OnlyConnects};
ghost use Rattle.xcap_io.specs.StreamTraffic.{GivesReadBytes, TakesWrittenBytes};
ghost use Rattle.xcap_io.specs.StreamWrites.{WritesSome};
ghost use Rattle.server_peer.specs.Peers.{GivesReplies, ConnectsPeer, ReadsFromPeer, WritesToPeer};
ghost use Rattle.server_peer.specs.Peers.{ServesPending};
ghost use Rattle.server_peer.specs.Peers.{new_peer, peer_line};

use crate::replies::Replies;
use crate::written_bytes::WrittenBytes;
use std::alloc::{AllocError, Global};
use std::marker::Model;
use xcap_io::{AddressHistory, Failed, Line, Peer, Sink, Source, TrafficLog, count_fault};
use xcap_server::Server;

/// A peer whose connections lead to a server in memory. What was written on a connection since the
/// server's last replies is served, as the bytes of one connection of the server, at the first
/// read after it, and then the replies are read. Contracts see the traffic on each connection, and
/// the address of each.
#[derive(Drop)]
pub struct ServerPeer {
    alloc: Global,
    server: Server,
    written: WrittenBytes,
    replies: Replies,
    is_begun: bool,
    given: usize,
    log: TrafficLog,
    addresses: AddressHistory,
    read_faults: u64,
    write_faults: u64,
}

impl Model for ServerPeer {
    ghost use Rattle.std.specs.Prelude.{◌≡◌, ◌≤◌, length, take};
    ghost use Rattle.server_peer.specs.Peers.{PeerOverServer};
    ghost use Rattle.std.specs.Coded.{codes};
    ghost use Rattle.xml_tree.specs.inner.TreeCodes.{tree_code};
    ghost use Rattle.doc_names.specs.contracts.doc_id.DocId as d;
    ghost use Rattle.edit_ops.specs.contracts.change.Change as c;
    ghost use Rattle.store_core.specs.contracts.limits.Limits as l;

    ghost Value = { PeerOverServer };

    ghost coded = { Prim.hlevel (codes, tree_code, d.the_row.coded, c.the_row.coded, l.the_row.coded) };

    ghost view = { λ p. record {
      server = p.server;
      written = p.written;
      replies = p.replies;
      history = p.log.history;
      addresses = p.addresses.texts;
      read_faults = p.read_faults;
      write_faults = p.write_faults;
    } };

    ghost invariant = { λ p. (p.log.history.is_present ≡ p.is_begun)
        × (p.log.history.now.taken ≡ p.written.bytes)
        × (p.log.history.now.given ≡ take p.given p.replies.bytes)
        × (p.given ≤ length p.replies.bytes) };
}

// Buffers for the bytes written and for the replies, of `room` bytes each.
fn new_buffers(alloc: Global, room: usize) -> Result<(WrittenBytes, Replies), AllocError>
    ensures both_empty { IfOk result
        (λ both. (both.0 ≡ record { bytes = []; served = 0; room = room })
        × (both.1 ≡ record { bytes = []; more = false; room = room })) }
{
    let written = WrittenBytes::new(alloc, room)?;
    let replies = Replies::new(alloc, room)?;
    Ok((written, replies))
}

impl ServerPeer {
    /// A peer over this server. It reserves `room` bytes for what is written on a connection and
    /// `room` bytes for the replies, and keeps `alloc`, from which the server's replies are
    /// allocated.
    ///
    /// # Errors
    /// `AllocError` when out of memory.
    pub fn new(alloc: Global, server: Server, room: usize) -> Result<ServerPeer, AllocError>
        ensures ok { IfOk result (λ peer. peer ≡ new_peer server room) }
    {
        let Ok((written, replies)) = new_buffers(alloc, room) else {
            // Dropped by a call, whose proof is made once, rather than at each exit.
            drop(server);
            return Err(AllocError);
        };
        Ok(ServerPeer {
            alloc,
            server,
            written,
            replies,
            is_begun: false,
            given: 0,
            log: TrafficLog::new(),
            addresses: AddressHistory::new(),
            read_faults: 0,
            write_faults: 0,
        })
    }

    /// The server. Does not allocate.
    pub fn server(&self) -> &Server
        ensures exact { result.now ≡ self.now.server }
    {
        &self.server
    }

    // Serves what was written since the server's last replies, if anything was.
    fn serve_pending(&mut self)
        ensures settles_written { ServesPending self.old self.new }
    {
        let asked = self.written.unserved_bytes();
        if asked.is_empty() {
            return;
        }
        self.replies.add(self.alloc, &mut self.server, asked);
        self.written.set_served();
    }

    // Gives the next bytes of the replies.
    fn give_replies(&mut self, buf: &mut [u8]) -> Result<usize, Failed>
        requires { 0 < length buf.old }
        ensures in_bounds { ReadsAtMost result buf.new }
        ensures all_or_prefix { GivesReadBytes (peer_line self.old).inward
            (peer_line self.new).inward result buf.new }
        ensures only_reads { OnlyReads (peer_line self.old) (peer_line self.new) result }
        ensures as_memory_form { GivesReplies self.old self.new (length buf.old) result }
    {
        if self.replies.is_spent(self.given) {
            return Err(count_fault(&mut self.read_faults));
        }
        let left = self.replies.replies_after(self.given);
        let count = buf.len().min(left.len());
        buf[..count].copy_from_slice(&left[..count]);
        self.given += count;
        self.log.record_read(&buf[..count]);
        Ok(count)
    }
}

impl Line for ServerPeer {
    ghost state = { peer_line };
}

impl Source for ServerPeer {
    fn read(&mut self, buf: &mut [u8]) -> Result<usize, Failed>
        requires { 0 < length buf.old }
        ensures in_bounds { ReadsAtMost result buf.new }
        ensures appends_read { GivesReadBytes (peer_line self.old).inward
            (peer_line self.new).inward result buf.new }
        ensures only_reads { OnlyReads (peer_line self.old) (peer_line self.new) result }
        ensures as_memory_form { ReadsFromPeer self.old self.new (length buf.old) result }
    {
        self.serve_pending();
        self.give_replies(buf)
    }
}

impl Sink for ServerPeer {
    fn write(&mut self, piece: &[u8]) -> Result<usize, Failed>
        requires { 0 < length piece.now }
        ensures in_bounds { WritesSome result piece.now }
        ensures appends_written { TakesWrittenBytes (peer_line self.old).taken
            (peer_line self.new).taken result piece.now }
        ensures only_writes { OnlyWrites (peer_line self.old) (peer_line self.new) result }
        ensures as_memory_form { WritesToPeer self.old self.new piece.now result }
    {
        if !self.is_begun {
            return Err(count_fault(&mut self.write_faults));
        }
        let count = self.written.add(piece);
        if count == 0 {
            return Err(count_fault(&mut self.write_faults));
        }
        self.log.record_write(&piece[..count]);
        Ok(count)
    }
}

impl Peer for ServerPeer {
    fn connect(&mut self, address: &str) -> Result<(), Failed>
        ensures only_connects { OnlyConnects (peer_line self.old)
            (peer_line self.new) result address.now }
        ensures never_fails { ConnectsPeer self.old self.new result address.now }
    {
        self.written.clear();
        self.replies.clear();
        self.given = 0;
        self.is_begun = true;
        self.log.record_end();
        self.log.record_begin();
        self.addresses.add(address.as_bytes());
        Ok(())
    }
}
