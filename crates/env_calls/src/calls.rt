//! The environment calls that are served, by their numbers.

ghost use Rattle.std.specs.Prelude.{◌≡◌};
ghost use Rattle.env_calls.specs.Calls.{call_of};

/// The calls, by what they do.
#[derive(Clone, Copy, Debug, PartialEq, Eq)]
pub enum Call {
    /// Copies bytes of the input to memory.
    Read,
    /// Writes bytes of memory to the output.
    Write,
    /// Ends the hart, and with the last live one the process.
    EndHart,
    /// Ends the process.
    EndProcess,
    /// Lets other harts have their turn.
    Yield,
    /// Moves the break up.
    Break,
    /// Starts a hart.
    Spawn,
    /// Answers the hart's number.
    HartNumber,
}

impl Call {
    /// The call of a number, if there is one.
    #[tactic(auto, unfolding(crate::specs::Calls::call_of))]
    pub fn from_number(number: u32) -> Option<Call>
        ensures { result ≡ call_of number }
    {
        match number {
            63 => Some(Call::Read),
            64 => Some(Call::Write),
            93 => Some(Call::EndHart),
            94 => Some(Call::EndProcess),
            124 => Some(Call::Yield),
            214 => Some(Call::Break),
            1024 => Some(Call::Spawn),
            1025 => Some(Call::HartNumber),
            _ => None,
        }
    }
}
