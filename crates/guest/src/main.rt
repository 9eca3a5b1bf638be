//! The program `guest`. What it does is the libraries': `guest_cli`, for `record` `run_recorder`, and for `explore` `record_commands`.
#![tactic(auto)]

use guest_cli::run_guest;
use guest_frames::PagedMachine;
use image_files::begin;
use record_commands::explore_program;
use run_recorder::record_program;
use std::io::IsTerminal;
use std::process::ExitCode;

fn main(rt: HostRuntime) -> ExitCode {
    let mut err = rt.stderr();
    let (words, mut out) = match begin(&rt, "guest", &mut err) {
        Ok(begun) => begun,
        Err(status) => return ExitCode::from(status),
    };
    let words = words.as_slice();
    let first = match words.first() {
        Some(first) => first.as_str(),
        None => "",
    };
    ExitCode::from(match first {
        "record" => record_program(&rt, words, rt.stdin(), &mut out, &mut err),
        "explore" => {
            let is_watched = err.is_terminal();
            explore_program(&rt, words, rt.stdin(), &mut out, &mut err, is_watched)
        }
        _ => run_guest(&rt, &PagedMachine, words, rt.stdin(), &mut out, &mut err),
    })
}
