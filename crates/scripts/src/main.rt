//! Does the script of the standard input, as `otm run` does, and nothing else. So it is built in less time.
//!
//! `otm_kit::run_program` tells what is printed where, and the exit statuses.
#![tactic(auto)]

use otm_kit::run_program;
use std::process::ExitCode;

fn main(rt: HostRuntime) -> ExitCode {
    run_program(&rt)
}
