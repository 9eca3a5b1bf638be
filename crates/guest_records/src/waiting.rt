//! Harts that wait: they yield, or go round a loop that changes nothing.

ghost use Rattle.std.specs.Prelude.{◌≡◌};

use flat_machine::FlatProcess;
use rv_exec::{Regs, amo_word};
use rv_isa::{AmoKind, Insn, decode};

/// The instruction that calls.
const ECALL: u32 = 0x73;

/// The register that has the number of a call, and the numbers of the calls that change nothing: a yield, and one for the hart's number.
const CALL_NUMBER: u8 = 17;

const YIELD: u32 = 124;

const HART_NUMBER: u32 = 1025;

/// Whether the next instruction of a hart is a yield.
pub(crate) fn is_yield(process: &mut FlatProcess, hart: u32) -> bool
    ensures same { process.new ≡ process.old }
{
    let pc = match process.regs(hart) {
        Some(regs) if regs.x(CALL_NUMBER) == YIELD => regs.pc(),
        _ => return false,
    };
    match process.fetch(pc) {
        Ok(word) => word == ECALL,
        Err(_) => false,
    }
}

/// Whether the next instruction of a hart leaves memory, the other harts and the output as they are.
pub(crate) fn changes_nothing(process: &mut FlatProcess, hart: u32) -> bool
    ensures same { process.new ≡ process.old }
{
    let regs = match process.regs(hart) {
        Some(regs) => *regs,
        None => return false,
    };
    match process.fetch(regs.pc()) {
        Ok(word) => word_changes_nothing(process, &regs, word),
        Err(_) => false,
    }
}

/// Whether an instruction changes nothing but the registers of its hart, which has these.
fn word_changes_nothing(process: &FlatProcess, regs: &Regs, word: u32) -> bool {
    match decode(word) {
        Some(insn) => insn_changes_nothing(process, regs, insn),
        None => false,
    }
}

fn insn_changes_nothing(process: &FlatProcess, regs: &Regs, insn: Insn) -> bool {
    match insn {
        Insn::Store { .. } => false,
        Insn::StoreConditional { .. } => false,
        Insn::Ebreak => false,
        Insn::Ecall => is_quiet(regs.x(CALL_NUMBER)),
        Insn::Amo { kind, rs1, rs2, .. } => {
            let (address, operand) = (regs.read(rs1), regs.read(rs2));
            stores_the_same(process, kind, address, operand)
        }
        _ => true,
    }
}

/// Whether an atomic operation stores the word that is there.
fn stores_the_same(process: &FlatProcess, kind: AmoKind, address: u32, operand: u32) -> bool {
    match process.memory().load_to_replace(address) {
        Ok(old) => amo_word(kind, old, operand) == old,
        Err(_) => false,
    }
}

/// Whether the call of a number changes nothing but a register.
fn is_quiet(call: u32) -> bool {
    call == YIELD || call == HART_NUMBER
}

/// Watches a hart for a loop that changes nothing: at times its registers are noted, and from then on its next steps are looked at.
#[derive(Clone, Copy)]
pub(crate) struct LoopWatch {
    noted: Option<Regs>,
}

/// A hart is watched for so many steps. The next constant is the number of steps from the start of one watch to the next.
const WATCHED: u32 = 64;

const BETWEEN: u32 = 256;

impl LoopWatch {
    pub(crate) fn new() -> Self {
        LoopWatch { noted: None }
    }

    /// Whether a hart that has done so many steps of its turn is where it was, and nothing has changed in between.
    pub(crate) fn is_round(&mut self, process: &mut FlatProcess, hart: u32, done: u32) -> bool
        ensures same { process.new ≡ process.old }
    {
        let place = done % BETWEEN;
        if place > WATCHED {
            return false;
        }
        if place == 0 {
            self.note(process, hart);
        } else if self.is_noted(process, hart) {
            return true;
        }
        self.go_on(process, hart);
        false
    }

    /// Notes the registers of a hart.
    pub(crate) fn note(&mut self, process: &FlatProcess, hart: u32) {
        self.noted = match process.regs(hart) {
            Some(regs) => Some(*regs),
            None => None,
        };
    }

    /// Whether the registers of a hart are those that are noted.
    pub(crate) fn is_noted(&self, process: &FlatProcess, hart: u32) -> bool {
        match (&self.noted, process.regs(hart)) {
            (Some(noted), Some(regs)) => *noted == *regs,
            _ => false,
        }
    }

    /// Forgets what is noted where the next step changes something.
    fn go_on(&mut self, process: &mut FlatProcess, hart: u32)
        ensures same { process.new ≡ process.old }
    {
        if self.noted.is_some() && !changes_nothing(process, hart) {
            self.noted = None;
        }
    }
}
