// The commands of the client, run.
ghost use Rattle.std.specs.Prelude.{◌≡◌, ◌∷◌, ◌++◌, ◌&&◌, IfOk, is_some, option_map};
ghost use Rattle.doc_names.specs.Usages.{usage_of};
ghost use Rattle.xcap_uri.specs.Roots.{slash};
ghost use Rattle.client_commands.specs.CommandEnds.{delete_call, fetch_call};
ghost use Rattle.xcap_app.specs.ClientCommands.{MeansDocument, RunsCall, RunsFollow, RunsPut};
ghost use Rattle.xcap_app.specs.ClientCommands.{document_to_follow, exit_of_client, is_user_home};

use crate::exit::Exit;
use crate::refusal::Refusal;
use client_commands::{CommandEnd, Requester, delete_at, fetch_at, follow, put_at};
use doc_names::{DocId, Home};
use std::alloc::{AllocError, Global};
use xcap_io::{Line, Peer, Sink, Source};
use xcap_uri::{Root, Target, read_target};
use xml_names::{ReadError, Text};

// How the run ends when a client command ends so.
fn exit_after_call(ended: CommandEnd) -> Exit
    ensures exact { result ≡ exit_of_client ended }
{
    match ended {
        CommandEnd::Done => Exit::Done,
        CommandEnd::InputFailed => Exit::InputFailed,
        CommandEnd::OutputFailed => Exit::OutputFailed,
        CommandEnd::TooLarge => Exit::Refused(Refusal::TooLarge),
        CommandEnd::Failed(fault) => Exit::Client(fault),
        CommandEnd::OutOfMemory => Exit::OutOfMemory,
    }
}

/// Fetches the resource at a path, and writes it.
pub(crate) fn run_fetch<C: Peer, O: Sink>(
    alloc: Global,
    requester: &Requester,
    path: &Text,
    peer: &mut C,
    output: &mut O,
) -> Exit
    ensures runs_command { RunsCall (fetch_call requester.now path.now) result
        (record { peer = C.state peer.old; output = O.state output.old })
        (record { peer = C.state peer.new; output = O.state output.new }) }
{
    exit_after_call(fetch_at(alloc, requester, path, peer, output))
}

/// Removes the resource at a path, and writes the status.
pub(crate) fn run_delete<C: Peer, O: Sink>(
    alloc: Global,
    requester: &Requester,
    path: &Text,
    peer: &mut C,
    output: &mut O,
) -> Exit
    ensures runs_command { RunsCall (delete_call requester.now path.now) result
        (record { peer = C.state peer.old; output = O.state output.old })
        (record { peer = C.state peer.new; output = O.state output.new }) }
{
    exit_after_call(delete_at(alloc, requester, path, peer, output))
}

/// Puts the input at a path, and writes the status and the etag.
pub(crate) fn run_put<C: Peer, I: Source, O: Sink>(
    alloc: Global,
    requester: &Requester,
    path: &Text,
    media: &Text,
    peer: &mut C,
    input: &mut I,
    output: &mut O,
) -> Exit
    ensures runs_command { RunsPut
        (record { requester = requester.now; path = path.now; media = media.now }) result
        (record {
          peer = C.state peer.old;
          input = I.state input.old;
          output = O.state output.old;
        })
        (record {
          peer = C.state peer.new;
          input = I.state input.new;
          output = O.state output.new;
        }) }
{
    exit_after_call(put_at(alloc, requester, path, media, peer, input, output))
}

// Whether a home is a user's.
fn is_user_home(home: &Home) -> bool
    ensures ok { result ≡ is_user_home home.now }
{
    match home {
        Home::Global => false,
        Home::User(_) => true,
    }
}

// Whether a document is under `users` of a usage whose documents are stored.
fn is_stored(doc: &DocId) -> bool
    ensures exact { result ≡ (is_some (usage_of doc.now.auid) && is_user_home doc.now.home) }
{
    doc.auid.stored_usage().is_some() && is_user_home(&doc.home)
}

// The document of a target, where it can be followed.
fn document_to_follow(target: &Target) -> Option<&DocId>
    ensures exact { option_map (λ doc. doc.now) result ≡ document_to_follow target.now }
{
    match target {
        Target::Document(doc) if is_stored(doc) => Some(doc),
        _ => None,
    }
}

// A copy of a document's name, if there is one.
fn copy_doc_id(alloc: Global, doc: Option<&DocId>) -> Result<Option<DocId>, AllocError>
    ensures ok { IfOk result (λ made. made ≡ option_map (λ doc. doc.now) doc.entry) }
{
    match doc {
        Some(doc) => Ok(Some(doc.copy(alloc)?)),
        None => Ok(None),
    }
}

// The target of a text under a root.
fn target_under(alloc: Global, root: &Root, document: &Text) -> Result<Text, AllocError>
    ensures ok { IfOk result (λ target. target ≡ root.now ++ slash ∷ document.now) }
{
    let mut target = Text::from(alloc, root.text())?;
    target.push('/')?;
    target.push_str(document.as_str())?;
    Ok(target)
}

// The document of a target under a root, where it can be followed.
fn find_followed_doc(alloc: Global, root: &Root, target: &Text) -> Result<Option<DocId>, AllocError>
    ensures means_document { IfOk result (λ doc. MeansDocument root.now target.now doc) }
{
    match read_target(alloc, root, target.as_str().as_bytes()) {
        Ok(target) => {
            let doc = copy_doc_id(alloc, document_to_follow(&target));
            // Dropped by a call, whose proof is made once, rather than at each exit.
            drop(target);
            doc
        }
        Err(ReadError::Fault(_)) => Ok(None),
        Err(ReadError::NoMemory) => Err(AllocError),
    }
}

// The document of a text after a root and a slash, where it can be followed.
fn read_followed_doc(
    alloc: Global,
    root: &Root,
    document: &Text,
) -> Result<Option<DocId>, AllocError>
    ensures means_document { IfOk result
        (λ doc. MeansDocument root.now (root.now ++ slash ∷ document.now) doc) }
{
    let target = target_under(alloc, root, document)?;
    find_followed_doc(alloc, root, &target)
}

/// Follows the document that a text names.
pub(crate) fn run_follow<C: Peer, O: Sink>(
    alloc: Global,
    requester: &Requester,
    document: &Text,
    rounds: u64,
    peer: &mut C,
    output: &mut O,
) -> Exit
    ensures runs_command { RunsFollow
        (record { requester = requester.now; document = document.now; rounds = rounds }) result
        (record { peer = C.state peer.old; output = O.state output.old })
        (record { peer = C.state peer.new; output = O.state output.new }) }
{
    match read_followed_doc(alloc, &requester.root, document) {
        Ok(Some(doc)) => exit_after_call(follow(alloc, requester, &doc, rounds, peer, output)),
        Ok(None) => Exit::Usage,
        Err(AllocError) => Exit::OutOfMemory,
    }
}
