// The status that a program ends with where a call of the client failed, and its message.
ghost use Rattle.std.specs.Prelude.{◌≡◌, IfOk, string_bytes};
ghost use Rattle.client_commands.specs.FaultMessages.{apply_message, fault_message};
ghost use Rattle.client_commands.specs.FaultMessages.{response_message};
ghost use Rattle.client_commands.specs.FaultMessages.{status_of_fault, tag_text};

use client_follower::FollowerFault;
use patch_apply::ApplyFault;
use std::alloc::{AllocError, Global};
use xcap_client::{ClientFault, ResponseFault};
use xml_names::Text;

// The status for the fault of a call.
fn client_status(fault: &ClientFault) -> u8
    ensures exact { result ≡ status_of_fault (FollowerFault.Client fault.now) }
{
    match fault {
        ClientFault::PeerFault => 5,
        ClientFault::Refused(_, _) => 6,
        ClientFault::NoMemory => 7,
        ClientFault::BadResponse(_) => 8,
    }
}

/// The status that a program ends with: 5 where the peer failed, 6 where it refused or a diff
/// document was refused, 7 when out of memory, and 8 where its bytes are no response, or no
/// document or etag where one is due.
pub fn status_of(fault: &FollowerFault) -> u8
    ensures exact { result ≡ status_of_fault fault.now }
{
    match fault {
        FollowerFault::Client(fault) => client_status(fault),
        FollowerFault::BadNotice(_) | FollowerFault::Apply(_) => 6,
        FollowerFault::NoMemory => 7,
        FollowerFault::BadTag | FollowerFault::BadText(_) => 8,
    }
}

// Why there is no response.
fn response_message(alloc: Global, fault: &ResponseFault) -> Result<String, AllocError>
    ensures ok { IfOk result (λ words. string_bytes words ≡ response_message fault.now) }
{
    match fault {
        ResponseFault::ReadFailed => String::from_str(alloc, "network failed\n"),
        ResponseFault::NoMemory => String::from_str(alloc, "out of memory\n"),
        ResponseFault::Head => String::from_str(alloc, "bad response: head\n"),
        ResponseFault::Coding => String::from_str(alloc, "bad response: coding\n"),
        ResponseFault::Length => String::from_str(alloc, "bad response: length\n"),
        ResponseFault::TooLong(n) => format!(in alloc; "bad response: too-long {n}\n"),
        ResponseFault::Short(n, m) => format!(in alloc; "bad response: short {n} {m}\n"),
    }
}

// Why a call gave no successful response.
fn client_message(alloc: Global, fault: &ClientFault) -> Result<String, AllocError>
    ensures ok { IfOk result
        (λ words. string_bytes words ≡ fault_message (FollowerFault.Client fault.now)) }
{
    match fault {
        ClientFault::PeerFault => String::from_str(alloc, "network failed\n"),
        ClientFault::NoMemory => String::from_str(alloc, "out of memory\n"),
        ClientFault::Refused(status, None) => format!(in alloc; "refused {status}\n"),
        ClientFault::Refused(status, Some(name)) => {
            format!(in alloc; "refused {status} {}\n", name.as_str())
        }
        ClientFault::BadResponse(fault) => response_message(alloc, fault),
    }
}

// An etag, or a dash.
fn tag_or_dash(held: &Option<Text>) -> &str
    ensures exact { result.now ≡ tag_text held.now }
{
    match held {
        Some(tag) => tag.as_str(),
        None => "-",
    }
}

// Why a diff document can't be applied.
fn apply_message(alloc: Global, fault: &ApplyFault) -> Result<String, AllocError>
    ensures ok { IfOk result (λ words. string_bytes words ≡ apply_message fault.now) }
{
    match fault {
        ApplyFault::WrongDocument => String::from_str(alloc, "notice: wrong-document\n"),
        ApplyFault::WrongTag { held, wanted } => {
            format!(in alloc;
                "notice: wrong-tag {} {}\n",
                tag_or_dash(held),
                wanted.as_str()
            )
        }
        ApplyFault::Unlocated(n) => format!(in alloc; "notice: unlocated-node {n}\n"),
        ApplyFault::NamespacePrefix(n) => {
            format!(in alloc; "notice: invalid-namespace-prefix {n}\n")
        }
        ApplyFault::Directive(n) => format!(in alloc; "notice: invalid-patch-directive {n}\n"),
        ApplyFault::RootOperation(n) => {
            format!(in alloc; "notice: invalid-root-element-operation {n}\n")
        }
        ApplyFault::NodeTypes(n) => format!(in alloc; "notice: invalid-node-types {n}\n"),
        ApplyFault::Whitespace(n) => {
            format!(in alloc; "notice: invalid-whitespace-directive {n}\n")
        }
    }
}

/// The message for the stream of errors, on one line.
///
/// # Errors
/// `AllocError` when out of memory.
pub fn words_of(alloc: Global, fault: &FollowerFault) -> Result<String, AllocError>
    ensures ok { IfOk result (λ words. string_bytes words ≡ fault_message fault.now) }
{
    match fault {
        FollowerFault::Client(fault) => client_message(alloc, fault),
        FollowerFault::BadTag => String::from_str(alloc, "bad response: tag\n"),
        FollowerFault::BadText(_) => String::from_str(alloc, "bad response: text\n"),
        FollowerFault::BadNotice(_) => String::from_str(alloc, "notice: not-a-diff\n"),
        FollowerFault::Apply(fault) => apply_message(alloc, fault),
        FollowerFault::NoMemory => String::from_str(alloc, "out of memory\n"),
    }
}
