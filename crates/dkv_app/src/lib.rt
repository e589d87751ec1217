//! The top calls: what the program does with the words that it is given, over any source, sink, error
//! output, files and random bytes.
//!
//! The layer above may rely on this: the exit status and the error line are those of how the command
//! ended; `create` and `check` print what their clauses say of the files; the output of `pipe` is what
//! `dkv_pipe` says of the frames that were read, and that of `generate` the workload of its number;
//! stopped at any moment, the files stand as those clauses say; and words that name no command run
//! nothing. `run_here` is the program over the system's own streams, files and random bytes, which
//! tell nothing.
#![tactic(auto)]

mod checking;
mod command;
mod creating;
mod generating;
mod here;
mod ids;
mod opening;
mod options;
mod piping;
mod program;
mod report;
mod status;
mod tells;
mod top;

pub use command::{Command, CommandError, read_command};
pub use here::run_here;
pub use ids::new_id;
pub use options::{MAX_TRAIL, MIN_TRAIL, Options};
pub use program::{NoWords, run_program};
pub use status::{Ended, Status};
pub use tells::{tell_created, tell_database};
pub use top::run_once;
