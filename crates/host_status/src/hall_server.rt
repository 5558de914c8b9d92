//! The server over a hall: many connections that are open at once.
ghost use Rattle.std.specs.Prelude.{◌≡◌, ℕ, ◌+◌, ◌≤◌, List, length};
ghost use Rattle.hall_serve.specs.Exchanges.{Exchange};
ghost use Rattle.hall_serve.specs.Seats.{MatchesSeats};
ghost use Rattle.hall_serve.specs.ServedHalls.{AnswersKnocks, HasHallStop, HasServed, MakesTurns};
ghost use Rattle.hall_serve.specs.ServedHalls.{ServesOn};
ghost use Rattle.http_serve.specs.ReplyBytes.{StepsInBytes};
ghost use Rattle.store_core.specs.Contents.{Represents};
ghost use Rattle.store_core.specs.ValidStates.{IsValidState};
ghost use Rattle.store_core.specs.State.{State};
ghost use Rattle.host_status.specs.HostSteps.{HostStep};

use crate::status_server::StatusServer;
use edit_ops::Edit;
use hall_serve::{HallSummary, Seats};
use halls::Hall;
use watchers::Watchers;

/// Serves the connections of a hall, of which at most `count` more begin, in at most `turns` turns.
/// There is one order of all requests on all connections, in which the steps of the server
/// (`HostStep`) lead from each valid state to the next, and the watchers are notified of exactly the
/// changes of that order. The connections are served in turns (`turns`) at the seats, as
/// `xcap_server::serve_hall` serves them. Bytes that are no request get their fixed reply, and a
/// request for which memory runs out gets the fixed 503; both close.
pub fn serve_hall<H: Hall, W: Watchers<Edit>>(
    server: &mut StatusServer,
    hall: &mut H,
    seats: &mut Seats,
    count: u64,
    turns: u64,
    watchers: &mut W,
) -> HallSummary
    requires seats_match { MatchesSeats (H.state hall.old) seats.old }
    ensures machine_session { (m : State) (all : List (Exchange Edit)) → IsValidState m
        → Represents server.old.content m → HasServed (H.state hall.old) seats.old all
        → (next : State) × IsValidState next × Represents server.new.content next
        × (server.new.root ≡ server.old.root)
        × ServesOn (StepsInBytes (HostStep server.old.root)) W.keeps all result.memory_failures
        (record {
          machine = m;
          hall = H.state hall.old;
          seats = seats.old;
          watchers = watchers.old;
        })
        (record {
          machine = next;
          hall = H.state hall.new;
          seats = seats.new;
          watchers = watchers.new;
        }) }
    ensures turns { (made : ℕ) × MakesTurns W.keeps
        (length (H.state hall.old).connections + count) made
        (record {
          machine = server.old;
          hall = H.state hall.old;
          seats = seats.old;
          watchers = watchers.old;
        })
        (record {
          machine = server.new;
          hall = H.state hall.new;
          seats = seats.new;
          watchers = watchers.new;
        }) }
    ensures same_number { length seats.new ≡ length seats.old }
    ensures seats_match { MatchesSeats (H.state hall.new) seats.new }
    ensures at_most { result.connections ≤ count }
    ensures knocks { AnswersKnocks (H.state hall.old) (H.state hall.new) }
    ensures connections { length (H.state hall.new).connections
        ≡ length (H.state hall.old).connections + result.connections }
    ensures stop { HasHallStop result.stop count result.connections turns (H.state hall.old)
        (H.state hall.new) }
    ensures same_listening { (H.state hall.new).listening ≡ (H.state hall.old).listening }
{
    hall_serve::serve_hall(server, hall, watchers, seats, count, turns)
}
