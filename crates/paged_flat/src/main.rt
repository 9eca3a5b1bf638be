//! The program `paged` for its commands that need no paged memory: it is built soon, while the whole program takes longer. What it does
//! is the library's, `flat_commands`, which the whole program calls too.
#![tactic(auto)]

use std::process::ExitCode;

fn main(rt: HostRuntime) -> ExitCode {
    ExitCode::from(flat_commands::start(&rt, &mut rt.stderr()))
}
