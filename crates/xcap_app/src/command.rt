// The commands of the command line.
use crate::host_options::HostOptions;
use client_commands::Requester;
use doc_names::Usage;
use xcap_uri::Root;
use xml_names::Text;

/// A command, with its arguments.
#[derive(Drop)]
pub enum Command {
    /// Serves the input as one connection, whose replies go to the output, by a server of this
    /// root.
    Replay {
        root: Root,
    },
    /// Serves the connections that come at an address, at most `count`, by a server of this root.
    Serve {
        address: Text,
        root: Root,
        count: u32,
    },
    /// Serves the connections that come at an address, at most `count`, by a server of this root
    /// that restarts from the journal on the input, and writes a journal to the output.
    Keep {
        address: Text,
        root: Root,
        count: u32,
    },
    /// Serves the connections that come at an address, many at once, by a server of this root.
    Host {
        address: Text,
        root: Root,
        options: HostOptions,
    },
    /// Reads the input as a document of this usage.
    Check {
        usage: Usage,
    },
    /// Makes a sample of this many requests on a server in memory.
    Sample {
        requests: u32,
    },
    /// Fetches the resource at this path from a server.
    Fetch {
        requester: Requester,
        path: Text,
    },
    /// Puts the input at this path, with this media type.
    Put {
        requester: Requester,
        path: Text,
        media: Text,
    },
    /// Removes the resource at this path.
    Delete {
        requester: Requester,
        path: Text,
    },
    /// Follows the document that this text names under the root, for `rounds` rounds.
    Follow {
        requester: Requester,
        document: Text,
        rounds: u64,
    },
}
