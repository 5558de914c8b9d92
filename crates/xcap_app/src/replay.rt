// The command `replay`: the input as one connection, whose replies go to the output.
ghost use Rattle.std.specs.Prelude.{◌≡◌};
ghost use Rattle.store_core.specs.Contents.{Represents, first_contents};
ghost use Rattle.store_core.specs.ValidStates.{IsValidState};
ghost use Rattle.store_core.specs.State.{State};
ghost use Rattle.xcap_app.specs.ReplayCommand.{ReplaysCommand, ServesInput};
ghost use Rattle.xcap_app.specs.inner.ConnectionExits.{exit_of_connection};

use crate::exit::Exit;
use edit_ops::Edit;
use http_serve::CloseReason;
use std::alloc::Global;
use watchers::Watchers;
use xcap_io::{IoPair, Line, Sink, Source};
use xcap_server::{Server, serve_connection};
use xcap_uri::Root;

// How the command ends when its connection ends so.
fn exit_after_connection(ended: CloseReason) -> Exit
    ensures exact { result ≡ exit_of_connection ended }
{
    match ended {
        CloseReason::Closed => Exit::Done,
        CloseReason::ReadFailed => Exit::InputFailed,
        CloseReason::WriteFailed => Exit::OutputFailed,
    }
}

// Serves the input and the output as one connection.
fn serve_pair<I: Source, O: Sink, W: Watchers<Edit>>(
    server: &mut Server,
    input: &mut I,
    output: &mut O,
    watchers: &mut W,
) -> CloseReason
    ensures serves_input { (m : State) → IsValidState m → Represents server.old.content m
        → ServesInput W.keeps server.old.root m result
        (record {
          input = I.state input.old;
          output = O.state output.old;
          watchers = watchers.old;
        })
        (record {
          input = I.state input.new;
          output = O.state output.new;
          watchers = watchers.new;
        }) }
{
    let mut pair = IoPair::new(input, output);
    serve_connection(server, &mut pair, watchers)
}

// Serves the input as one connection, by this server, which is new.
fn replay_with_server<I: Source, O: Sink, W: Watchers<Edit>>(
    server: &mut Server,
    input: &mut I,
    output: &mut O,
    watchers: &mut W,
) -> Exit
    requires { server.old.content ≡ first_contents 1 }
    ensures replays_command { ReplaysCommand W.keeps server.old.root result
        (record {
          input = I.state input.old;
          output = O.state output.old;
          watchers = watchers.old;
        })
        (record {
          input = I.state input.new;
          output = O.state output.new;
          watchers = watchers.new;
        }) }
{
    exit_after_connection(serve_pair(server, input, output, watchers))
}

/// Serves the input as one connection, whose replies go to the output, by a new server of this
/// root. The command ends with the connection, or when out of memory before anything was read.
pub(crate) fn replay<I: Source, O: Sink, W: Watchers<Edit>>(
    alloc: Global,
    root: &Root,
    input: &mut I,
    output: &mut O,
    watchers: &mut W,
) -> Exit
    ensures replays_input { ReplaysCommand W.keeps root.now result
        (record {
          input = I.state input.old;
          output = O.state output.old;
          watchers = watchers.old;
        })
        (record {
          input = I.state input.new;
          output = O.state output.new;
          watchers = watchers.new;
        }) }
{
    let Ok(mut server) = Server::new(alloc, root, 1) else {
        return Exit::OutOfMemory;
    };
    let exit = replay_with_server(&mut server, input, output, watchers);
    // Dropped by a call, whose proof is made once, rather than at each exit.
    drop(server);
    exit
}
