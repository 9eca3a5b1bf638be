//! Laws of the instruction table: a word has at most one instruction, and an instruction at most one word.

ghost use Rattle.std.specs.Prelude.{◌≡◌, ℕ, ◌^◌, ◌<◌};
ghost use Rattle.rv_isa.specs.declared.instruction.Insn.{Insn};
ghost use Rattle.rv_isa.specs.Table.{Agrees, insn_of};

/// A word stands for one instruction.
#[tactic(auto, using(crate::proofs::TableLaws::agrees_with_one))]
pub fn one_instruction()
    ensures { (word : ℕ) (first second : Insn) → Agrees word first → Agrees word second →
        first ≡ second }
{}

/// An instruction has one word.
#[tactic(auto, using(crate::proofs::FormatLaws::agrees_once))]
pub fn one_word()
    ensures { (first second : ℕ) (insn : Insn) → first < 2 ^ 32 → second < 2 ^ 32
        → Agrees first insn → Agrees second insn → first ≡ second }
{}

/// Looking a word up in the table finds the instruction that it agrees with.
#[tactic(auto, using(crate::proofs::TableLaws::lookup_found, crate::proofs::TableLaws::lookup_only))]
pub fn table_lookup()
    ensures found { (word : ℕ) (insn : Insn) → insn_of word ≡ Some insn → Agrees word insn }
    ensures only { (word : ℕ) (insn : Insn) → Agrees word insn → insn_of word ≡ Some insn }
{}
