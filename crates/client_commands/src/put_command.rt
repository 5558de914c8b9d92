// The command that puts its input.
ghost use Rattle.client_commands.specs.CommandEnds.{MakesOneCall};
ghost use Rattle.client_commands.specs.PutCommand.{PutsFromInput, put_call};

use crate::command_end::{CommandEnd, write_output};
use crate::output_lines::put_line;
use crate::requester::Requester;
use crate::{InputFault, read_text};
use client_follower::FollowerFault;
use http_wire::MAX_BODY_BYTES;
use std::alloc::{AllocError, Global};
use xcap_client::put;
use xcap_io::{Line, Peer, Sink, Source};
use xml_names::Text;

// Puts a text, and writes the status and the etag.
fn put_text<C: Peer, O: Sink>(
    alloc: Global,
    requester: &Requester,
    path: &Text,
    media: &Text,
    text: &[u8],
    peer: &mut C,
    output: &mut O,
) -> CommandEnd
    ensures one_call { MakesOneCall
        (put_call (record { requester = requester.now; path = path.now; media = media.now })
        text.now) result
        (record { peer = C.state peer.old; output = O.state output.old })
        (record { peer = C.state peer.new; output = O.state output.new }) }
{
    let response = match put(
        alloc,
        peer,
        &requester.root,
        requester.user(),
        path.as_str(),
        media.as_str(),
        text,
    ) {
        Ok(response) => response,
        Err(fault) => return CommandEnd::Failed(FollowerFault::from(fault)),
    };
    match put_line(alloc, &response) {
        Ok(line) => write_output(output, line.as_bytes()),
        Err(AllocError) => CommandEnd::OutOfMemory,
    }
}

/// Reads the input to its end, puts it at a path under the root, and writes the status and the
/// etag. At most as many bytes are put as the body of a request may have.
pub fn put_at<C: Peer, I: Source, O: Sink>(
    alloc: Global,
    requester: &Requester,
    path: &Text,
    media: &Text,
    peer: &mut C,
    input: &mut I,
    output: &mut O,
) -> CommandEnd
    ensures puts_input { PutsFromInput
        (record { requester = requester.now; path = path.now; media = media.now }) result
        (record {
          peer = C.state peer.old;
          input = I.state input.old;
          output = O.state output.old;
        })
        (record {
          peer = C.state peer.new;
          input = I.state input.new;
          output = O.state output.new;
        }) }
{
    match read_text(alloc, input, MAX_BODY_BYTES) {
        Ok(text) => put_text(alloc, requester, path, media, &text, peer, output),
        Err(InputFault::Failed) => CommandEnd::InputFailed,
        Err(InputFault::TooLong) => CommandEnd::TooLarge,
        Err(InputFault::NoMemory) => CommandEnd::OutOfMemory,
    }
}
