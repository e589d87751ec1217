//! The program `denokv`: `create` makes a database in a folder, `check` tells what stands in one, and `pipe`
//! answers frames from the standard input on the standard output, over one of them or a new one in memory.
#![tactic(auto)]

use dkv_app::run_here;
use std::process::ExitCode;

fn main(rt: HostRuntime) -> ExitCode {
    run_here(&rt)
}
