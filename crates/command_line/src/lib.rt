//! The command line of the program `paged`: the request that the words after the program's name make.
#![tactic(auto)]

mod commands;
mod request;
mod requests;
mod values;
mod words;

pub use request::{
    AsmRequest, ClockRequest, DebugRequest, DriveRequest, FlatRequest, Request, RunRequest,
    Threading, UsageError,
};
pub use words::read_request;
