// The command that follows a document.
ghost use Rattle.std.specs.Prelude.{None};
ghost use Rattle.patch_apply.specs.Views.{replica_view};
ghost use Rattle.client_commands.specs.FollowCommand.{FollowsRounds, FollowsDocument};
ghost use Rattle.client_commands.specs.FollowCommand.{WritesReplica};
ghost use Rattle.client_commands.specs.inner.FollowRounds.{MakesRound};

use crate::command_end::{CommandEnd, write_output};
use crate::output_lines::tag_line;
use crate::requester::Requester;
use client_follower::Follower;
use doc_names::DocId;
use patch_apply::Replica;
use std::alloc::{AllocError, Global};
use tree_print::print_document;
use xcap_io::{Line, Peer, Sink};

// Makes one round, and writes the replica's etag. None where both succeeded.
fn make_round<C: Peer, O: Sink>(
    alloc: Global,
    follower: &mut Follower,
    peer: &mut C,
    output: &mut O,
) -> Option<CommandEnd>
    ensures makes_round { MakesRound follower.old follower.new result
        (record { peer = C.state peer.old; output = O.state output.old })
        (record { peer = C.state peer.new; output = O.state output.new }) }
{
    if let Err(fault) = follower.round(peer) {
        return Some(CommandEnd::Failed(fault));
    }
    let line = match tag_line(alloc, follower.replica()) {
        Ok(line) => line,
        Err(AllocError) => return Some(CommandEnd::OutOfMemory),
    };
    match write_output(output, line.as_bytes()) {
        CommandEnd::Done => None,
        ended => Some(ended),
    }
}

// Writes the document, if the replica has one.
fn write_replica<O: Sink>(alloc: Global, replica: &Replica, output: &mut O) -> CommandEnd
    ensures writes_copy { WritesReplica (replica_view replica.now.held) result (O.state output.old)
        (O.state output.new) }
{
    let Some(held) = &replica.held else {
        return CommandEnd::Done;
    };
    match print_document(alloc, &held.root) {
        Ok(text) => write_output(output, text.as_slice()),
        Err(AllocError) => CommandEnd::OutOfMemory,
    }
}

// Makes `rounds` rounds, and then writes the document.
fn follow_rounds<C: Peer, O: Sink>(
    alloc: Global,
    follower: &mut Follower,
    rounds: u64,
    peer: &mut C,
    output: &mut O,
) -> CommandEnd
    ensures follows_on { FollowsRounds rounds follower.old result
        (record { peer = C.state peer.old; output = O.state output.old })
        (record { peer = C.state peer.new; output = O.state output.new }) }
{
    let mut made = 0;
    'rounds: while made < rounds {
        if let Some(ended) = make_round(alloc, follower, peer, output) {
            return ended;
        }
        made += 1;
    }
    write_replica(alloc, follower.replica(), output)
}

/// Fetches a document and follows it for `rounds` rounds. After each round the replica's etag is
/// written, or a dash where the replica is empty; and in the end the document, if the replica has
/// one.
pub fn follow<C: Peer, O: Sink>(
    alloc: Global,
    requester: &Requester,
    doc: &DocId,
    rounds: u64,
    peer: &mut C,
    output: &mut O,
) -> CommandEnd
    ensures follows_document { FollowsDocument
        (record { requester = requester.now; doc = doc.now; rounds = rounds }) result
        (record { peer = C.state peer.old; output = O.state output.old })
        (record { peer = C.state peer.new; output = O.state output.new }) }
{
    match Follower::start(alloc, peer, &requester.root, requester.user(), doc) {
        Ok(mut follower) => follow_rounds(alloc, &mut follower, rounds, peer, output),
        Err(fault) => CommandEnd::Failed(fault),
    }
}
