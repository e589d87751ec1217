//! The program `denokv` once more, whose stored run shows the exit status of an input that ends within a
//! frame.
#![tactic(auto)]

use dkv_app::run_here;
use std::process::ExitCode;

fn main(rt: HostRuntime) -> ExitCode {
    run_here(&rt)
}
