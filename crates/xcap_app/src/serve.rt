// The command `serve`: the connections that come at an address.
ghost use Rattle.std.specs.Prelude.{◌≡◌, [], MatchResult};
ghost use Rattle.store_core.specs.Contents.{first_contents};
ghost use Rattle.store_core.specs.State.{first_state};
ghost use Rattle.xcap_io.specs.Connections.{ListenFailed};
ghost use Rattle.xcap_io.specs.StreamStates.{OnlyWrites};
ghost use Rattle.xcap_io.specs.StreamWrites.{WritesAll};
ghost use Rattle.xcap_app.specs.ServeCommand.{served_line, ServesCommand};
ghost use Rattle.xcap_app.specs.inner.StandardAddresses.{ServesStandardAddress};
ghost use Rattle.xcap_app.specs.inner.CommandOutputs.{PrintsOutput};
ghost use Rattle.xcap_app.specs.inner.ServingEnds.{EndsServing};

use crate::exit::Exit;
use edit_ops::Edit;
use http_serve::{ServeSummary, StopReason};
use itoa::Buffer;
use std::alloc::Global;
use watchers::Watchers;
use xcap_io::{Failed, Line, Port, Sink, WriteBuffer, flush, put};
use xcap_server::{Server, StandardServer};
use xcap_uri::Root;

// Writes the number of connections served.
fn write_served_line<O: Sink>(output: &mut O, connections: u64) -> Result<(), Failed>
    ensures all_or_prefix { WritesAll (O.state output.old).taken (O.state output.new).taken result
        (served_line connections) }
    ensures only_writes { OnlyWrites (O.state output.old) (O.state output.new) result }
{
    let mut digits = Buffer::new();
    let mut write_buffer = WriteBuffer::new();
    put(output, &mut write_buffer, b"served ")?;
    put(
        output,
        &mut write_buffer,
        digits.format(connections).as_bytes(),
    )?;
    put(output, &mut write_buffer, b"\n")?;
    flush(output, &mut write_buffer)
}

// How the command ends after this many connections were served. Does not allocate.
fn print_served_line<O: Sink>(output: &mut O, connections: u64) -> Exit
    ensures prints_count { PrintsOutput (served_line connections) result (O.state output.old)
        (O.state output.new) }
{
    match write_served_line(output, connections) {
        Ok(()) => Exit::Done,
        Err(Failed) => Exit::OutputFailed,
    }
}

/// Listens at the address and serves the connections that come, at most `count`, by this server,
/// which has no documents. It answers as the standards say; what it answers at its own addresses
/// is a parameter, `S.own_step`.
///
/// # Errors
/// `Failed` when the port doesn't listen.
pub(crate) fn serve<S: StandardServer, P: Port, W: Watchers<Edit>>(
    server: &mut S,
    address: &str,
    count: u32,
    port: &mut P,
    watchers: &mut W,
) -> Result<ServeSummary, Failed>
    requires { S.represents server.old (first_state 1) }
    ensures serves_address { MatchResult result
        (λ served. ServesStandardAddress S.own_step W.keeps
        (record { address = address.now; root = S.root server.old; count = count }) served
        (S.represents server.new)
        (record { port = P.state port.old; watchers = watchers.old })
        (record { port = P.state port.new; watchers = watchers.new }))
        (λ failed. ListenFailed (P.state port.old) (P.state port.new)
        × (watchers.new ≡ watchers.old)) }
{
    port.listen(address)?;
    Ok(server.serve_port(port, count as u64, watchers))
}

// How the command ends after this was served. Does not allocate.
fn exit_after_serving<O: Sink>(output: &mut O, served: ServeSummary) -> Exit
    ensures ends_so { EndsServing served result (O.state output.old) (O.state output.new) }
{
    match served.stop {
        StopReason::PortFailed => Exit::NetworkFailed,
        StopReason::Count | StopReason::NoMore => print_served_line(output, served.connections),
    }
}

// Serves by this server, which is new, and prints how many connections.
fn serve_and_print<P: Port, O: Sink, W: Watchers<Edit>>(
    server: &mut Server,
    address: &str,
    count: u32,
    port: &mut P,
    output: &mut O,
    watchers: &mut W,
) -> Exit
    requires { server.old.content ≡ first_contents 1 }
    ensures serves_command { ServesCommand W.keeps
        (record { address = address.now; root = server.old.root; count = count }) result
        (record {
          port = P.state port.old;
          output = O.state output.old;
          watchers = watchers.old;
        })
        (record {
          port = P.state port.new;
          output = O.state output.new;
          watchers = watchers.new;
        }) }
{
    match serve(server, address, count, port, watchers) {
        Ok(served) => exit_after_serving(output, served),
        Err(Failed) => Exit::NetworkFailed,
    }
}

/// Listens at the address and serves the connections that come, at most `count`, by a new server
/// of this root. The command ends with the number of connections on the output, where `count` were
/// served or no more will come; where the network failed; or when out of memory before it listens.
pub(crate) fn run_serve<P: Port, O: Sink, W: Watchers<Edit>>(
    alloc: Global,
    address: &str,
    root: &Root,
    count: u32,
    port: &mut P,
    output: &mut O,
    watchers: &mut W,
) -> Exit
    ensures serves_command { ServesCommand W.keeps
        (record { address = address.now; root = root.now; count = count }) result
        (record {
          port = P.state port.old;
          output = O.state output.old;
          watchers = watchers.old;
        })
        (record {
          port = P.state port.new;
          output = O.state output.new;
          watchers = watchers.new;
        }) }
{
    let Ok(mut server) = Server::new(alloc, root, 1) else {
        return Exit::OutOfMemory;
    };
    serve_and_print(&mut server, address, count, port, output, watchers)
}
