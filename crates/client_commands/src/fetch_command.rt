// The commands that make one call and read no input.
ghost use Rattle.client_commands.specs.CommandEnds.{MakesOneCall, delete_call, fetch_call};

use crate::command_end::{CommandEnd, write_output};
use crate::output_lines::status_line;
use crate::requester::Requester;
use client_follower::FollowerFault;
use std::alloc::{AllocError, Global};
use xcap_client::{fetch, remove};
use xcap_io::{Line, Peer, Sink};
use xml_names::Text;

/// Fetches the resource at a path under the root, and writes the body of the response.
pub fn fetch_at<C: Peer, O: Sink>(
    alloc: Global,
    requester: &Requester,
    path: &Text,
    peer: &mut C,
    output: &mut O,
) -> CommandEnd
    ensures one_call { MakesOneCall (fetch_call requester.now path.now) result
        (record { peer = C.state peer.old; output = O.state output.old })
        (record { peer = C.state peer.new; output = O.state output.new }) }
{
    match fetch(
        alloc,
        peer,
        &requester.root,
        requester.user(),
        path.as_str(),
    ) {
        Ok(response) => write_output(output, response.body.as_slice()),
        Err(fault) => CommandEnd::Failed(FollowerFault::from(fault)),
    }
}

/// Removes the resource at a path under the root, and writes the status.
pub fn delete_at<C: Peer, O: Sink>(
    alloc: Global,
    requester: &Requester,
    path: &Text,
    peer: &mut C,
    output: &mut O,
) -> CommandEnd
    ensures one_call { MakesOneCall (delete_call requester.now path.now) result
        (record { peer = C.state peer.old; output = O.state output.old })
        (record { peer = C.state peer.new; output = O.state output.new }) }
{
    let response = match remove(
        alloc,
        peer,
        &requester.root,
        requester.user(),
        path.as_str(),
    ) {
        Ok(response) => response,
        Err(fault) => return CommandEnd::Failed(FollowerFault::from(fault)),
    };
    match status_line(alloc, response.status) {
        Ok(line) => write_output(output, line.as_bytes()),
        Err(AllocError) => CommandEnd::OutOfMemory,
    }
}
