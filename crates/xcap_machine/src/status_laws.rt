//! No answer of the machine says that memory ran out.
ghost use Rattle.std.specs.Prelude.{◌≢◌, ℕ, List};
ghost use Rattle.store_core.specs.Contents.{StoreContents};
ghost use Rattle.http_wire.specs.declared.request.Request.{Request};
ghost use Rattle.xcap_machine.specs.Answers.{Answer};
ghost use Rattle.xcap_machine.specs.Requests.{IsAnswer};

/// A law: no answer has the status 503. Only a connection sends it, when out of memory.
pub fn no_answer_is_503()
    ensures never_503 { (root : List ℕ) (c : StoreContents) (request : Request) (a : Answer)
        → IsAnswer root c request a → a.reply.status ≢ 503 }
{}
