// The command `host`: the connections that come at an address, many at once.
ghost use Rattle.std.specs.Prelude.{◌≡◌, ℕ, ◌≤◌, [], None, length, IfOk, string_bytes};
ghost use Rattle.hall_serve.specs.Seats.{seat_at};
ghost use Rattle.store_core.specs.Contents.{first_contents_within};
ghost use Rattle.store_core.specs.ValidStates.{AreCountable};
ghost use Rattle.xcap_app.specs.HostCommand.{HostsCommand, listening_line};
ghost use Rattle.xcap_app.specs.declared.host_options.HostOptions.{HostOptions as Options};

use crate::exit::Exit;
use crate::host_options::HostOptions;
use crate::messages::write_message;
use edit_ops::Edit;
use hall_serve::{HallStop, Seats};
use halls::Hall;
use host_status::{StatusServer, serve_hall};
use std::alloc::{AllocError, Global};
use watchers::Watchers;
use xcap_io::{Failed, Line, Sink};
use xcap_uri::Root;

fn make_listening_line(alloc: Global, address: &str) -> Result<String, AllocError>
    ensures ok { IfOk result (λ line. string_bytes line ≡ listening_line address.now) }
{
    let mut line = String::from_str(alloc, "listening ")?;
    line.push_str(address)?;
    line.push_str("\n")?;
    Ok(line)
}

// Listens at the address, writes the line, and serves the connections that come by this server,
// which has no documents.
fn host_at<H: Hall, E: Sink, W: Watchers<Edit>>(
    server: &mut StatusServer,
    seats: &mut Seats,
    address: &str,
    line: &str,
    hall: &mut H,
    errors: &mut E,
    watchers: &mut W,
) -> Exit
    requires line_of_address { line.now ≡ listening_line address.now }
    requires no_connections { (H.state hall.old).connections ≡ [] }
    requires all_free { (k : ℕ) → seat_at seats.old k ≡ None }
    ensures hosts_command { (options : Options) (first : ℕ) → 1 ≤ first
        → AreCountable options.limits
        → server.old.content ≡ first_contents_within options.limits first
        → length seats.old ≡ options.connections
        → HostsCommand W.keeps
        (record {
          address = address.now;
          root = server.old.root;
          options = options;
          first = first;
        }) result
        (record {
          hall = H.state hall.old;
          errors = E.state errors.old;
          watchers = watchers.old;
        })
        (record {
          hall = H.state hall.new;
          errors = E.state errors.new;
          watchers = watchers.new;
        }) }
{
    if let Err(Failed) = hall.listen(address) {
        return Exit::NetworkFailed;
    }
    write_message(errors, line.as_bytes());
    let served = serve_hall(server, hall, seats, u64::MAX, u64::MAX, watchers);
    match served.stop {
        HallStop::HallFailed => Exit::NetworkFailed,
        HallStop::Count | HallStop::Over | HallStop::Turns => Exit::Done,
    }
}

// Serves the connections by a new server, where there are seats and a line.
fn host_with_seats<H: Hall, E: Sink, W: Watchers<Edit>>(
    alloc: Global,
    seats: &mut Seats,
    address: &str,
    line: &str,
    root: &Root,
    options: HostOptions,
    first: u64,
    hall: &mut H,
    errors: &mut E,
    watchers: &mut W,
) -> Exit
    requires positive { 1 ≤ first }
    requires limits_countable { AreCountable options.limits }
    requires line_of_address { line.now ≡ listening_line address.now }
    requires no_connections { (H.state hall.old).connections ≡ [] }
    requires all_free { (k : ℕ) → seat_at seats.old k ≡ None }
    requires as_many { length seats.old ≡ options.connections }
    ensures hosts_command { HostsCommand W.keeps
        (record {
          address = address.now;
          root = root.now;
          options = options;
          first = first;
        }) result
        (record {
          hall = H.state hall.old;
          errors = E.state errors.old;
          watchers = watchers.old;
        })
        (record {
          hall = H.state hall.new;
          errors = E.state errors.new;
          watchers = watchers.new;
        }) }
{
    let Ok(mut server) = StatusServer::within(alloc, root, first, options.limits) else {
        return Exit::OutOfMemory;
    };
    let exit = host_at(&mut server, seats, address, line, hall, errors, watchers);
    // Dropped by a call, whose proof is made once, rather than at each exit.
    drop(server);
    exit
}

/// Listens at the address and serves the connections that come, many at once, by a new server of
/// this root and the limits of the options, whose first change gets the number `first`. Once it
/// listens, it says so on `errors`. The command ends where the hall fails, or when out of memory
/// before it listens; or where no connection is to come any more.
pub(crate) fn host<H: Hall, E: Sink, W: Watchers<Edit>>(
    alloc: Global,
    address: &str,
    root: &Root,
    options: HostOptions,
    first: u64,
    hall: &mut H,
    errors: &mut E,
    watchers: &mut W,
) -> Exit
    requires positive { 1 ≤ first }
    requires limits_countable { AreCountable options.limits }
    requires no_connections { (H.state hall.old).connections ≡ [] }
    ensures hosts_command { HostsCommand W.keeps
        (record {
          address = address.now;
          root = root.now;
          options = options;
          first = first;
        }) result
        (record {
          hall = H.state hall.old;
          errors = E.state errors.old;
          watchers = watchers.old;
        })
        (record {
          hall = H.state hall.new;
          errors = E.state errors.new;
          watchers = watchers.new;
        }) }
{
    let Ok(line) = make_listening_line(alloc, address) else {
        return Exit::OutOfMemory;
    };
    let Ok(mut seats) = Seats::new(alloc, options.connections) else {
        return Exit::OutOfMemory;
    };
    host_with_seats(
        alloc,
        &mut seats,
        address,
        line.as_str(),
        root,
        options,
        first,
        hall,
        errors,
        watchers,
    )
}
