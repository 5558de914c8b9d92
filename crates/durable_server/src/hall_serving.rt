//! The server with the log of its changes over a hall: many connections that are open at once.
ghost use Rattle.std.specs.Prelude.{◌≡◌, ℕ, ◌+◌, ◌-◌, ◌*◌, ◌≤◌, List, length};
ghost use Rattle.durable_server.specs.DurableMachines.{CanAnswer};
ghost use Rattle.durable_server.specs.KeptStates.{DurableStep, IsKeptAt, KeptState};
ghost use Rattle.hall_serve.specs.Exchanges.{Exchange};
ghost use Rattle.hall_serve.specs.Seats.{MatchesSeats, requests_left};
ghost use Rattle.hall_serve.specs.ServedHalls.{AnswersKnocks, HasHallStop, HasServed, MakesTurns};
ghost use Rattle.hall_serve.specs.ServedHalls.{ServesOn};
ghost use Rattle.http_serve.specs.ReplyBytes.{StepsInBytes};

use crate::durable_server::DurableServer;
use change_log::ChangeLog;
use edit_ops::Edit;
use hall_serve::{HallSummary, Seats};
use halls::Hall;
use watchers::Watchers;

/// Serves the connections of a hall, of which at most `count` more begin, in at most `turns`
/// turns, as `xcap_server::serve_hall` does. There is one order of all requests on all connections,
/// in which the machine of the root comes from each state that the log keeps to the next; where a
/// change can't be appended the reply is the 500; and a crash at any moment of a request leads a
/// restart to the documents before it, or to one change more.
pub fn serve_hall<L: ChangeLog + Drop, H: Hall, W: Watchers<Edit>>(
    server: &mut DurableServer<L>,
    hall: &mut H,
    seats: &mut Seats,
    count: u64,
    turns: u64,
    watchers: &mut W,
) -> HallSummary
    requires seats_match { MatchesSeats (H.state hall.old) seats.old }
    requires can_answer { CanAnswer (L.sound server.old.log)
        (record { machine = server.old.server; log = L.state server.old.log })
        (requests_left seats.old + count * 1000) }
    ensures machine_session { (root : List ℕ) (kept : KeptState) (all : List (Exchange Edit))
        → IsKeptAt root
        (record { machine = server.old.server; log = L.state server.old.log }) kept
        → HasServed (H.state hall.old) seats.old all
        → (next : KeptState) × IsKeptAt root
        (record { machine = server.new.server; log = L.state server.new.log }) next
        × ServesOn (StepsInBytes (DurableStep root)) W.keeps all result.memory_failures
        (record {
          machine = kept;
          hall = H.state hall.old;
          seats = seats.old;
          watchers = watchers.old;
        })
        (record {
          machine = next;
          hall = H.state hall.new;
          seats = seats.new;
          watchers = watchers.new;
        }) }
    ensures turns { (made : ℕ) × MakesTurns W.keeps
        (length (H.state hall.old).connections + count) made
        (record {
          machine = server.old;
          hall = H.state hall.old;
          seats = seats.old;
          watchers = watchers.old;
        })
        (record {
          machine = server.new;
          hall = H.state hall.new;
          seats = seats.new;
          watchers = watchers.new;
        }) }
    ensures same_number { length seats.new ≡ length seats.old }
    ensures seats_match { MatchesSeats (H.state hall.new) seats.new }
    ensures at_most { result.connections ≤ count }
    ensures knocks { AnswersKnocks (H.state hall.old) (H.state hall.new) }
    ensures connections { length (H.state hall.new).connections
        ≡ length (H.state hall.old).connections + result.connections }
    ensures stop { HasHallStop result.stop count result.connections turns (H.state hall.old)
        (H.state hall.new) }
    ensures same_listening { (H.state hall.new).listening ≡ (H.state hall.old).listening }
    ensures can_answer { CanAnswer (L.sound server.new.log)
        (record { machine = server.new.server; log = L.state server.new.log })
        (requests_left seats.new + (count - result.connections) * 1000) }
{
    hall_serve::serve_hall(server, hall, watchers, seats, count, turns)
}
