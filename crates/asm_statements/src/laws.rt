//! Laws on what statements do, in the subject's own words.

ghost use Rattle.std.specs.Prelude.{◌≡◌, ℕ, ◌+◌, ◌*◌, ◌%◌, ◌^◌, ◌<◌, ℤ, pos, negsuc, ◌+ℤ◌, ◌⊎◌, List, [], ◌∷◌, codes};
ghost use Rattle.std.specs.Int.{w32, cast_unsigned};
ghost use Rattle.rv_isa.specs.Operands.{IsImmediate};
ghost use Rattle.rv_isa.specs.Split.{low_part, high_part};
ghost use Rattle.asm_values.specs.Ranges.{bits_within};
ghost use Rattle.asm_lines.specs.declared.operand.Operand.TheVariants.{Number, Name, Indexed};
ghost use Rattle.asm_statements.specs.SameStatements.{DoesTheSame};

/// What `li` and `la` load: `lui` of the high part and `addi` of the low part, which fits, leave the word, and the word of
/// a number that `li` takes is the number modulo 2^32.
#[tactic(auto, using(rv_isa::proofs::SplitLaws::parts_make_word, asm_values::proofs::RangeLaws::word_is_number))]
pub fn loaded_word()
    ensures parts { (word : ℕ) → word < 2 ^ 32
        → (high_part word * 4096 + cast_unsigned w32 (low_part word)) % 2 ^ 32 ≡ word }
    ensures fits { (word : ℕ) → IsImmediate (low_part word) }
    ensures number { (n : ℤ) (word : ℕ) → bits_within w32 (negsuc 0x7FFF_FFFF) 0xFFFF_FFFF n ≡
        Ok word
        → (pos word ≡ n) ⊎ (pos word ≡ n +ℤ pos (2 ^ 32)) }
{}

/// Pseudo-instructions do the same as the instructions that the assembly programmer's manual gives for them, whatever their operands'
/// names. [`loaded_word`] covers `li` and `la`.
pub fn pseudo_instructions_are_instructions()
    ensures nop { DoesTheSame (codes "nop") [] (codes "addi") (Name (codes "zero") ∷
        Name (codes "zero") ∷ Number (pos 0) ∷ []) }
    ensures mv { (rd rs1 : List ℕ) → DoesTheSame (codes "mv") (Name rd ∷ Name rs1 ∷ [])
        (codes "addi") (Name rd ∷ Name rs1 ∷ Number (pos 0) ∷ []) }
    ensures j { (target : List ℕ) → DoesTheSame (codes "j") (Name target ∷ []) (codes "jal")
        (Name (codes "zero") ∷ Name target ∷ []) }
    ensures call { (target : List ℕ) → DoesTheSame (codes "call") (Name target ∷ []) (codes "jal")
        (Name (codes "ra") ∷ Name target ∷ []) }
    ensures jr { (rs1 : List ℕ) → DoesTheSame (codes "jr") (Name rs1 ∷ []) (codes "jalr")
        (Name (codes "zero") ∷ Indexed (pos 0) rs1 ∷ []) }
    ensures ret { DoesTheSame (codes "ret") [] (codes "jalr") (Name (codes "zero") ∷
        Indexed (pos 0) (codes "ra") ∷ []) }
    ensures beqz { (rs1 target : List ℕ) → DoesTheSame (codes "beqz") (Name rs1 ∷ Name target ∷ [])
        (codes "beq") (Name rs1 ∷ Name (codes "zero") ∷ Name target ∷ []) }
    ensures bnez { (rs1 target : List ℕ) → DoesTheSame (codes "bnez") (Name rs1 ∷ Name target ∷ [])
        (codes "bne") (Name rs1 ∷ Name (codes "zero") ∷ Name target ∷ []) }
{}
