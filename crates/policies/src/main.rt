//! The program `policies`. What it does is the library's, `policies_cli`.
#![tactic(auto)]

use std::process::ExitCode;

fn main(rt: HostRuntime) -> ExitCode {
    ExitCode::from(policies_cli::start(&rt, &mut rt.stderr()))
}
