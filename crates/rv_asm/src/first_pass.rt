//! The first pass: line by line to the items of a program.

ghost use Rattle.std.specs.Prelude.{◌≡◌, IfOk, IfErr, map};
ghost use Rattle.asm_lines.specs.Faults.{RefusesLine};
ghost use Rattle.asm_lines.specs.Forms.{line_value};
ghost use Rattle.asm_statements.specs.Effects.{effect_value};
ghost use Rattle.rv_asm.specs.Steps.{Fails};
ghost use Rattle.rv_asm.specs.Program.{section_of_label};
ghost use Rattle.rv_asm.specs.FirstPass.{first_pass, with_line, with_form, with_reading};
ghost use Rattle.rv_asm.specs.FirstPass.{with_labels, with_items, with_effect};
ghost use Rattle.rv_asm.specs.LineEffects.{effect_of_name};
ghost use Rattle.rv_asm.specs.declared.item.Item.TheVariants.{InText, InData};

use crate::fault::AsmError;
use crate::item::Item;
use crate::program::Program;
use asm_lines::{LineRefusal, Operand, SourceLine, Span, scan_line};
use asm_statements::{CodePart, Effect, Section, read_statement};
use asm_values::Datum;
use std::alloc::Global;
use text_lines::next_line;

/// The program of a source.
#[tactic(auto, using(crate::proofs::FirstLoops::lines_go_on, crate::proofs::FirstLoops::lines_end), unfolding(crate::specs::FirstPass::first_pass))]
pub(crate) fn read_source<'a>(alloc: Global, source: &'a [u8]) -> Result<Program<'a>, AsmError>
    ensures program { IfOk result (λ program. first_pass source.now ≡ Ok program) }
    ensures refusal { IfErr result (Fails (first_pass source.now)) }
{
    let mut program = Program::new(alloc);
    let mut line = 0;
    let mut rest = source;
    while let Some((text, below)) = next_line(rest) {
        line += 1;
        program = match with_line(alloc, line, program, text) {
            Ok(more) => more,
            Err(refusal) => return Err(AsmError::on_line(line, refusal)),
        };
        rest = below;
    }
    Ok(program)
}

/// The program with one more line. Faults come in the order of their kinds.
#[tactic(auto, unfolding(crate::specs::FirstPass::with_line))]
fn with_line<'a>(
    alloc: Global,
    line: usize,
    program: Program<'a>,
    text: &'a [u8],
) -> Result<Program<'a>, LineRefusal>
    ensures program { IfOk result (λ more. with_line line program.entry text.now ≡ Ok more) }
    ensures refusal { IfErr result (RefusesLine (with_line line program.entry text.now)) }
{
    let form = scan_line(alloc, text)?;
    with_form(alloc, line, program, form)
}

/// The program with one more line of this form.
fn with_form<'a>(
    alloc: Global,
    line: usize,
    program: Program<'a>,
    form: SourceLine<'a>,
) -> Result<Program<'a>, LineRefusal>
    ensures program { IfOk result (λ more. with_form line program.entry
        (line_value form.entry) ≡ Ok more) }
    ensures refusal { IfErr result (RefusesLine (with_form line program.entry
        (line_value form.entry))) }
{
    let SourceLine {
        labels,
        name,
        operands,
    } = form;
    let effect = read_effect(alloc, program.section(), name, operands.as_slice())?;
    with_reading(line, program, labels, effect)
}

/// The program with a line's labels, and then after what the line does.
fn with_reading<'a>(
    line: usize,
    program: Program<'a>,
    labels: Vec<Span<'a>>,
    effect: Effect<'a>,
) -> Result<Program<'a>, LineRefusal>
    ensures program { IfOk result (λ more. with_reading line program.entry labels.entry.items
        (effect_value effect.entry) ≡ Ok more) }
    ensures refusal { IfErr result (RefusesLine (with_reading line program.entry
        labels.entry.items (effect_value effect.entry))) }
{
    let program = with_labels(program, labels)?;
    with_effect(line, program, effect)
}

/// What a line does: a line with no statement stays in its section.
fn read_effect<'a>(
    alloc: Global,
    section: Section,
    name: Option<Span<'a>>,
    operands: &[Operand<'a>],
) -> Result<Effect<'a>, LineRefusal>
    ensures effect { IfOk result (λ effect. effect_of_name section operands.now name.entry ≡
        Ok (effect_value effect)) }
    ensures refusal { IfErr result (RefusesLine (effect_of_name section operands.now name.entry)) }
{
    match name {
        Some(name) => read_statement(alloc, section, name.bytes(), operands),
        None => Ok(Effect::Enter(section)),
    }
}

/// The program with a line's labels.
#[tactic(auto, using(crate::proofs::FirstLoops::labels_go_on, crate::proofs::FirstLoops::labels_end))]
fn with_labels<'a>(
    mut program: Program<'a>,
    labels: Vec<Span<'a>>,
) -> Result<Program<'a>, LineRefusal>
    ensures program { IfOk result (λ more. with_labels program.entry labels.entry.items ≡ Ok more) }
    ensures refusal { IfErr result (RefusesLine (with_labels program.entry labels.entry.items)) }
{
    for name in labels {
        program = program.with_label(name)?;
    }
    Ok(program)
}

/// The program after what a line does.
fn with_effect<'a>(
    line: usize,
    program: Program<'a>,
    effect: Effect<'a>,
) -> Result<Program<'a>, LineRefusal>
    ensures program { IfOk result (λ more. with_effect line program.entry
        (effect_value effect.entry) ≡ Ok more) }
    ensures refusal { IfErr result (RefusesLine (with_effect line program.entry
        (effect_value effect.entry))) }
{
    match effect {
        Effect::Enter(section) => Ok(program.entered(section)),
        Effect::Text(parts) => with_text(line, program, parts),
        Effect::Data(parts) => with_data(line, program, parts),
    }
}

/// The program with more parts of its text.
#[tactic(auto, using(crate::proofs::FirstLoops::items_go_on, crate::proofs::FirstLoops::items_end))]
fn with_text<'a>(
    line: usize,
    mut program: Program<'a>,
    parts: Vec<CodePart<'a>>,
) -> Result<Program<'a>, LineRefusal>
    ensures program { IfOk result (λ more. with_items program.entry
        (map (InText line) parts.entry.items) ≡ Ok more) }
    ensures refusal { IfErr result (RefusesLine (with_items program.entry
        (map (InText line) parts.entry.items))) }
{
    for code in parts {
        program = program.with_code(line, code)?;
    }
    Ok(program)
}

/// The program with more parts of its data.
#[tactic(auto, using(crate::proofs::FirstLoops::items_go_on, crate::proofs::FirstLoops::items_end))]
fn with_data<'a>(
    line: usize,
    mut program: Program<'a>,
    parts: Vec<Datum<'a>>,
) -> Result<Program<'a>, LineRefusal>
    ensures program { IfOk result (λ more. with_items program.entry
        (map (InData line) parts.entry.items) ≡ Ok more) }
    ensures refusal { IfErr result (RefusesLine (with_items program.entry
        (map (InData line) parts.entry.items))) }
{
    for datum in parts {
        program = program.with_datum(line, datum)?;
    }
    Ok(program)
}
