//! Which references of guests are asked for.

ghost use Rattle.std.specs.Prelude.{IfOk};
ghost use Rattle.clap.specs.Matches.{found_of};
ghost use Rattle.clap.specs.Walk.{rows_of};
ghost use Rattle.policies_requests.specs.Options.{AsksAccesses};

use crate::fault::RequestFault;
use crate::options::is_given;
use clap::ArgMatches;
use guest_strings::AccessKinds;

/// The references that the words ask for: all where they name none.
pub(crate) fn accesses<'a>(matches: &ArgMatches<'a>) -> Result<AccessKinds, RequestFault<'a>>
    ensures { IfOk result (AsksAccesses (rows_of (found_of matches.now))) }
{
    match (is_given(matches, "data"), is_given(matches, "instructions")) {
        (false, false) => Ok(AccessKinds::All),
        (true, false) => Ok(AccessKinds::Data),
        (false, true) => Ok(AccessKinds::Instructions),
        (true, true) => Err(RequestFault::Together(
            "data",
            "instructions",
            "without either all references are played",
        )),
    }
}
