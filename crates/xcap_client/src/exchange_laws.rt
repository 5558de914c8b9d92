// Laws of the definitions that the contracts cite; each is the contract of a function that does
// nothing.
ghost use Rattle.std.specs.Prelude.{◌≡◌, ◌++◌, true, List, Some, Result, ℕ};
ghost use Rattle.xcap_io.specs.StreamStates.{InputState};
ghost use Rattle.xcap_io.specs.StreamTraffic.{HasNothingAfterEnd};
ghost use Rattle.xcap_uri.specs.Roots.{is_root_text};
ghost use Rattle.xcap_client.specs.declared.request.Ask.{Ask};
ghost use Rattle.xcap_client.specs.declared.response_fault.ResponseFault.{ResponseFault};
ghost use Rattle.xcap_client.specs.declared.response.Response.{Response};
ghost use Rattle.xcap_client.specs.ReadFaults.{HoldsByCause};
ghost use Rattle.xcap_client.specs.Requests.{IsLawfulAsk};
ghost use Rattle.xcap_client.specs.Responses.{ReadsAnswer, DecidesNothing, IsResponseOf};
ghost use Rattle.xcap_client.specs.ParsedRequests.{IsSendable, IsParsedAsMeant};

use xcap_uri::roots_are_spelled_by_the_grammar;

/// The bytes of a connection have one meaning: one response, or one fault.
pub fn bytes_say_one_thing()
    ensures at_most_one { (bytes : List ℕ) (a b : Result Response ResponseFault)
        → IsResponseOf bytes a → IsResponseOf bytes b → a ≡ b }
{}

/// Over a stream whose bytes are all known, an answer is the meaning of them all; where a read
/// failed, the bytes given before it didn't decide.
pub fn known_bytes_decide()
    ensures answers_all_bytes { (source source' : InputState) (bytes : List ℕ)
        (result : Result Response ResponseFault)
        → source.left ≡ Some bytes → HasNothingAfterEnd source → ReadsAnswer source source' result
        → HoldsByCause result ((given : List ℕ) × (left : List ℕ) × (bytes ≡ given ++ left)
        × DecidesNothing given) (IsResponseOf bytes) }
{}

/// A server parses the bytes of a request as that request alone, with its method, target, fields
/// and body, and ends the connection after it.
pub fn requests_are_understood()
    ensures understood_as_meant { (root : List ℕ) (ask : Ask) → is_root_text root ≡ true
        → IsLawfulAsk ask → IsSendable root ask → IsParsedAsMeant root ask }
{
    roots_are_spelled_by_the_grammar();
}
