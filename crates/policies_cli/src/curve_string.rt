//! The string that a curve is of.

ghost use Rattle.std.specs.Prelude.{IfOk, IfSome};
ghost use Rattle.trace_files.specs.ReferenceAnswers.{ArePages, IsSample};
ghost use Rattle.whole_strings.specs.Sampling.{is_sampled};
ghost use Rattle.policies_cli.specs.Replays.{OfFile};

use crate::teller::Teller;
use crate::wrong::Wrong;
use clock_policy::Key;
use policies_requests::CurveRequest;
use std::io::Write;
use std::num::NonZeroU32;
use std::rt::Files;
use trace_files::{open_trace, read_sample, read_whole};

/// The pages of the whole trace that is asked for. The progress of the reading is reported meanwhile.
#[tactic(auto, using(crate::proofs::Opened::of_file))]
pub(crate) fn curve_string<'a, R: Files + AllocGlobal, E: Write>(
    rt: &R,
    request: &CurveRequest<'a>,
    err: &mut E,
) -> Result<Vec<Key>, Wrong<'a>>
    ensures { IfOk result (λ string. OfFile R.File.remaining request.now.format (λ trace. IfSome
        trace (ArePages string.items))) }
{
    let mut trace = open_trace(rt, request.trace, request.format)?;
    let mut teller = Teller::new(err, request.is_told);
    let read = read_whole(rt.alloc(), &mut trace, &mut teller);
    teller.erase();
    Ok(read?)
}

/// The references of a trace to one page in so many, and how many it has to any. The progress of the reading is reported meanwhile.
#[tactic(auto, using(crate::proofs::Opened::of_file))]
pub(crate) fn curve_sample<'a, R: Files + AllocGlobal, E: Write>(
    rt: &R,
    request: &CurveRequest<'a>,
    one_in: NonZeroU32,
    err: &mut E,
) -> Result<(Vec<Key>, u64), Wrong<'a>>
    ensures { IfOk result (λ read. OfFile R.File.remaining request.now.format (λ trace. IfSome trace
        (IsSample (is_sampled one_in.value) read.0.items read.1))) }
{
    let mut trace = open_trace(rt, request.trace, request.format)?;
    let mut teller = Teller::new(err, request.is_told);
    let read = read_sample(rt.alloc(), &mut trace, one_in, &mut teller);
    teller.erase();
    Ok(read?)
}
