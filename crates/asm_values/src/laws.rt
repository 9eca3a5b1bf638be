//! A law on texts, in the subject's own words.

ghost use Rattle.std.specs.Prelude.{◌≡◌, ℕ, List};
ghost use Rattle.asm_values.specs.Escapes.{ReadsEscapes};
ghost use Rattle.asm_values.specs.Directives.{unescaped};

/// What stands between quotes is read to the bytes for which it stands.
#[tactic(auto, using(crate::proofs::EscapeLaws::text_reads))]
pub fn escapes_stand_for_their_bytes()
    ensures { (text bytes : List ℕ) → ReadsEscapes text bytes → unescaped text ≡ bytes }
{}
