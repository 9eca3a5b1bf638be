//! The program that `scripts/show-run` calls: it prints the pictures of a run. What it does is the library's, `run_picture`.
#![tactic(auto)]

use std::process::ExitCode;

fn main(rt: HostRuntime) -> ExitCode {
    ExitCode::from(run_picture::start(&rt, &mut rt.stderr()))
}
