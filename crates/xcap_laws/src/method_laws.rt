//! Laws of requests that read, each the contract of a function that does nothing.
ghost use Rattle.std.specs.Prelude.{◌≡◌, ℕ, List};
ghost use Rattle.http_wire.specs.declared.request.Request.{Request};
ghost use Rattle.request_checks.specs.Methods.{method_of};
ghost use Rattle.request_checks.specs.declared.method.Method.TheVariants.{Get, Head};
ghost use Rattle.store_core.specs.Contents.{StoreContents};
ghost use Rattle.xcap_laws.specs.HeadRequests.{with_method, without_body};
ghost use Rattle.xcap_laws.specs.NotModifiedReplies.{IsUnmodified};
ghost use Rattle.xcap_machine.specs.Answers.{Answer};
ghost use Rattle.xcap_machine.specs.Requests.{IsAnswer};

/// A law: a 304 comes only for GET and HEAD of a document that is there, or of a node of one, and
/// only where the `If-None-Match` of the request names the document's present tag, which the 304
/// has. (`*` names each tag.)
pub fn unmodified_only_for_the_present_tag()
    ensures names_present { (root : List ℕ) (c : StoreContents) (request : Request) (a : Answer)
        → IsAnswer root c request a → a.reply.status ≡ 304 → IsUnmodified root c request a }
{}

/// A law: the answer to a HEAD is the answer to the same GET without its body: same status, same
/// header fields, and no change.
pub fn head_is_get_without_body()
    ensures same_head { (root : List ℕ) (c : StoreContents) (request : Request) (name : List ℕ)
        (a b : Answer) → method_of request.method ≡ Get → method_of name ≡ Head
        → IsAnswer root c request a → IsAnswer root c (with_method name request) b
        → b ≡ without_body a }
{}
