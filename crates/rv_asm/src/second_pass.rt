//! The second pass: item by item to the words of the text and the bytes of the data.

ghost use Rattle.std.specs.Prelude.{◌≡◌, IfOk, IfErr};
ghost use Rattle.rv_asm.specs.Steps.{Fails};
ghost use Rattle.rv_asm.specs.SecondPass.{second_pass};

use crate::fault::AsmError;
use crate::program::Program;
use crate::sections::Sections;
use std::alloc::Global;

/// The sections of a program.
#[tactic(auto, using(crate::proofs::SecondSteps::put_next, crate::proofs::SecondSteps::put_end, crate::proofs::SecondSteps::size_next, crate::proofs::SecondSteps::put_length), unfolding(crate::specs::SecondPass::second_pass))]
pub(crate) fn fill_sections(alloc: Global, program: &Program<'_>) -> Result<Sections, AsmError>
    ensures sections { IfOk result (λ sections. second_pass program.now.items ≡ Ok sections) }
    ensures refusal { IfErr result (Fails (second_pass program.now.items)) }
{
    let mut sections = Sections::new(alloc);
    let items = program.items();
    for item in items {
        sections = sections.with_item(program, item)?;
    }
    Ok(sections)
}
