//! The command line of the program `policies`: what its words ask for, or why they ask for nothing.
#![tactic(auto)]

mod access_choice;
mod columns;
mod commands;
mod fault;
mod frame_lists;
mod guest_requests;
mod options;
mod percents;
mod policy_choice;
mod policy_names;
mod policy_parts;
mod request;
mod requests;
mod trace_formats;
mod trace_requests;

pub use fault::RequestFault;
pub use policy_names::PolicyWords;
pub use request::{
    CurveRequest, GuestRequest, MissesRequest, PoliciesRequest, ReplayRequest, TotalsRequest,
    TraceRequest, WriteBacksRequest,
};
pub use requests::read_request;
