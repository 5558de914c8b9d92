//! The program's one call: it reads the words of the command line and runs the command that they
//! spell.
//! Promises upward a status, and for each status what the command did and the cause of its end
//! (`RunsCommand`; for the status 0 over real sockets and streams `DoesCommand`); nothing else is
//! read, written, begun or reported.
//! The commands are the project's own; they follow RFC 4825.
//! Whether a word is a root is found by reading it, which allocates: so words that spell no
//! command may end with 7.
#![tactic(auto)]

mod arguments;
mod check;
mod check_verdict;
mod client_arguments;
mod client_runs;
mod command;
mod command_line;
mod entry_point;
mod exit;
mod host;
mod host_options;
mod host_words;
mod journal_refusal;
mod keep;
mod known_port;
mod messages;
mod refusal;
mod replay;
mod sample;
mod sample_connections;
mod sample_requests;
mod sample_run;
mod sample_summary;
mod serve;
mod status_recorder;
mod system;

pub use command::Command;
pub use command_line::{CommandLine, connections_of_host};
pub use entry_point::run;
pub use exit::Exit;
pub use host_options::{HostFault, HostOptions};
pub use journal_refusal::JournalRefusal;
pub use refusal::Refusal;
pub use sample_summary::Summary;
pub use system::{run_on_system, start};
