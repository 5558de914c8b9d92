// Laws of the definitions that the contracts cite.
ghost use Rattle.std.specs.Prelude.{◌≡◌, ℕ, [], None, List, Option, length, map, ◌<◌};
ghost use Rattle.halls.specs.HallState.{HallState, connection_at};
ghost use Rattle.http_wire.specs.ServedConnections.{ServesEach};
ghost use Rattle.http_serve.specs.FixedReplies.{fixed_reply};
ghost use Rattle.http_serve.specs.ReplyBytes.{StepsInBytes};
ghost use Rattle.hall_serve.specs.Exchanges.{AreExchanges, Exchange, edits};
ghost use Rattle.hall_serve.specs.Seats.{MatchesSeats, SeatState, seat_at};
ghost use Rattle.hall_serve.specs.ServedHalls.{HasServed};
ghost use Rattle.hall_serve.specs.ServedInTurn.{AreInTurn, IsClosedUnbroken, all_closed};
ghost use Rattle.hall_serve.specs.ServedInTurn.{traffic_of};

use http_serve::Machine;

/// A law: where no connection has begun and all seats are free, the seats match the hall, and
/// nothing was answered.
pub fn new_hall_has_served_nothing<M: Machine>()
    ensures seats_match { (hall : HallState) (seats : List (Option SeatState))
        → hall.connections ≡ [] → ((k : ℕ) → seat_at seats k ≡ None) → MatchesSeats hall seats }
    ensures served_nothing { (hall : HallState) (seats : List (Option SeatState))
        → hall.connections ≡ [] → ((k : ℕ) → seat_at seats k ≡ None)
        → HasServed {E = M.Edit} hall seats [] }
{}

/// A law: where the exchanges came on one connection after the other, and each was closed
/// without a failure, the connections were served one after the other, each from the state that the
/// one before left (`ServesEach`). With one seat they always come so.
pub fn connections_in_turn_are_served<M: Machine>()
    ensures one_after_other { (hall : HallState) (seats : List (Option SeatState))
        (machine next : M) (all : List (Exchange M.Edit)) → HasServed hall seats all
        → AreInTurn 0 all → AreExchanges (StepsInBytes M.steps) machine all next
        → ((n : ℕ) → n < length hall.connections → IsClosedUnbroken (connection_at hall n))
        → ServesEach (StepsInBytes M.steps) fixed_reply machine (map traffic_of hall.connections)
        (all_closed hall.connections) next (edits all) }
    ensures one_seat { (hall : HallState) (seats : List (Option SeatState))
        (all : List (Exchange M.Edit)) → length seats ≡ 1 → HasServed hall seats all
        → AreInTurn 0 all }
{}
