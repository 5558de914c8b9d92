//! The client's commands: the calls that they make, the text that they read, and what they write.
//! Promises upward that a text is all that the input gave to its end (`GaveText`); that a command
//! makes its calls and no others, and writes exactly the output that the responses determine
//! (`MakesOneCall`, `PutsFromInput`, `FollowsDocument`); and that each way to end has its cause,
//! and its message (`status_of`, `words_of`).
//! The commands are the project's own; they follow RFC 4825, section 7, and RFC 5875.
#![tactic(auto)]

mod command_end;
mod fetch_command;
mod follow_command;
mod inputs;
mod messages;
mod output_lines;
mod put_command;
mod requester;

pub use command_end::CommandEnd;
pub use fetch_command::{delete_at, fetch_at};
pub use follow_command::follow;
pub use inputs::{InputFault, read_text};
pub use messages::{status_of, words_of};
pub use put_command::put_at;
pub use requester::Requester;
