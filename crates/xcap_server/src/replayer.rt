// The server as a replayer, which repeats accepted requests.
use crate::server::{Server, answer};
use edit_journal::{ReplayStep, Replayer};
use http_wire::Request;
use std::alloc::AllocError;

impl Replayer for Server {
    ghost use Rattle.xcap_server.specs.ReplayedRequests.{RefusesRequest, ResultsFromRequests};

    ghost stands = { ResultsFromRequests };

    ghost refuses = { RefusesRequest };

    ghost about = { λ s. s.root };

    fn redo(&mut self, request: &Request) -> ReplayStep {
        self.service.represents_valid_state();
        let answered = match answer(self, request) {
            Ok(answered) => answered,
            Err(AllocError) => return ReplayStep::NoMemory,
        };
        match answered.edit {
            Some(_) => ReplayStep::Done,
            None => ReplayStep::Refused,
        }
    }
}
