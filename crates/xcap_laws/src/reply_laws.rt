//! Laws of the bytes of replies, each the contract of a function that does nothing.
ghost use Rattle.std.specs.Prelude.{◌≡◌, ℕ, ◌<◌, ◌≤◌, ◌++◌, List, length, Err};
ghost use Rattle.std.specs.List.{AllByRecursion};
ghost use Rattle.http_wire.specs.declared.request.Request.{Request};
ghost use Rattle.reply_text.specs.ReplyHeads.{SentReply, reply_bytes};
ghost use Rattle.request_checks.specs.Methods.{method_of};
ghost use Rattle.request_checks.specs.declared.method.Method.TheVariants.{Get, Head};
ghost use Rattle.store_core.specs.Contents.{StoreContents};
ghost use Rattle.xcap_client.specs.declared.body_length.TheConstants.{MAX_RESPONSE_BODY_BYTES};
ghost use Rattle.xcap_client.specs.Responses.{IsResponseOf};
ghost use Rattle.xcap_client.specs.declared.response_fault.ResponseFault.TheVariants.{TooLong};
ghost use Rattle.xcap_laws.specs.HeadRequests.{with_method};
ghost use Rattle.xcap_laws.specs.ReadReplies.{IsCountableReply, IsHeadOnlyReply, IsReadBackReply};
ghost use Rattle.xcap_laws.specs.ReadReplies.{IsCompleteReply};
ghost use Rattle.xcap_laws.specs.ReadReplies.{joined_bytes};
ghost use Rattle.xcap_machine.specs.Answers.{Answer};
ghost use Rattle.xcap_machine.specs.Requests.{IsAnswer};

/// A law: by the grammar of responses (RFC 9112) the bytes of a reply are that reply, whatever
/// follows them on the connection: its status, its tag, and its body to the last byte. So nothing
/// that is stored or asked makes two responses of one reply. A body beyond the client's limit is
/// refused by its length. The reply to a HEAD, which has the length of a body that isn't sent,
/// is a head alone.
pub fn replies_are_read_back()
    ensures read_back { (reply : SentReply) → IsCompleteReply reply
        → length reply.body ≤ MAX_RESPONSE_BODY_BYTES → IsReadBackReply reply }
    ensures longer_refused { (reply : SentReply) (more : List ℕ) → IsCountableReply reply
        → MAX_RESPONSE_BODY_BYTES < length reply.body
        → IsResponseOf (reply_bytes reply ++ more) (Err (TooLong (length reply.body))) }
    ensures head_alone { (root : List ℕ) (c : StoreContents) (request : Request)
        (name : List ℕ) (a b : Answer) → method_of request.method ≡ Get
        → method_of name ≡ Head → IsAnswer root c request a
        → IsAnswer root c (with_method name request) b → IsHeadOnlyReply b.reply }
{}

/// A law: the bytes of replies, one after the other, are the bytes of no other replies: they part
/// into the same heads and bodies, however they were made (RFC 9112, section 9.3.2).
pub fn joined_replies_part_in_one_way()
    ensures same_replies { (replies others : List SentReply)
        → AllByRecursion IsCountableReply replies → AllByRecursion IsCountableReply others
        → joined_bytes replies ≡ joined_bytes others → replies ≡ others }
{}
