//! Laws of the parts of a request and of a state that don't influence a change.
ghost use Rattle.std.specs.Prelude.{◌≡◌, ℕ, false, List, Option, Some};
ghost use Rattle.edit_ops.specs.declared.edit.Edit.{Edit};
ghost use Rattle.http_wire.specs.declared.request.Request.{Request};
ghost use Rattle.reply_text.specs.ReplyHeads.{SentReply};
ghost use Rattle.request_checks.specs.Methods.{is_reading, method_of};
ghost use Rattle.change_records.specs.Records.{kept_request};
ghost use Rattle.store_core.specs.Contents.{HasDocumentsOf, StoreContents, contents_of};
ghost use Rattle.store_core.specs.State.{State};
ghost use Rattle.store_core.specs.ValidStates.{IsValidState};
ghost use Rattle.xcap_machine.specs.Answers.{MadeChange};
ghost use Rattle.xcap_machine.specs.Machine.{ValidStep};
ghost use Rattle.xcap_machine.specs.Requests.{IsAnswer};

/// A law: where the machine makes a change on a request, it makes the same change on the request
/// as its record gives it.
pub fn recorded_requests_change_the_same()
    ensures same_change { (root : List ℕ) (contents : StoreContents) (request : Request)
        (reply : SentReply) (made : MadeChange)
        → IsAnswer root contents request (record { reply = reply; made = Some made })
        → (again : SentReply) × IsAnswer root contents (kept_request request)
        (record { reply = again; made = Some made }) }
{}

/// A law: a request that doesn't read, as PUT and DELETE, gets the same reply in each state with
/// the same present documents, etags and next number, and makes the same change; and the states
/// after it have the same present documents, etags and next number again.
pub fn writes_depend_on_documents_alone()
    ensures same_step { (root : List ℕ) (m next n : State) (request : Request)
        (reply : SentReply) (edit : Option Edit)
        → is_reading (method_of request.method) ≡ false
        → ValidStep root m request reply next edit
        → HasDocumentsOf (contents_of m) n → IsValidState n
        → (other : State) × ValidStep root n request reply other edit
        × HasDocumentsOf (contents_of next) other }
{}
