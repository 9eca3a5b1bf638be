//! Laws on tokens and numbers, in the language's own terms.

ghost use Rattle.std.specs.Str.Parse.{IsNumeral, digits_value};
ghost use Rattle.std.specs.Prelude.{◌≡◌, ◌≤◌, pos, neg_ℤ, ℕ, List, [], ◌∷◌, ◌++◌, Some};
ghost use Rattle.asm_lines.specs.Numbers.{number_of, too_large};
ghost use Rattle.asm_lines.specs.Bytes.{class_of};
ghost use Rattle.asm_lines.specs.Tokens.{tokens_of, followed, word_token};
ghost use Rattle.asm_lines.specs.Spellings.{AllOfNames, EndsNames, IsText};
ghost use Rattle.asm_lines.specs.declared.bytes.ByteClass.TheVariants.{Word};
ghost use Rattle.asm_lines.specs.declared.token.Token.TheVariants as token;

/// A word reaches to the first byte that may not stand in a name.
#[tactic(auto, using(crate::proofs::TokenLaws::word_reads))]
pub fn words_reach_to_their_end()
    ensures { (first : ℕ) (word rest : List ℕ) → class_of first ≡ Word → AllOfNames word →
        EndsNames rest
        → tokens_of (first ∷ word ++ rest) ≡ followed (word_token (first ∷ word)) (tokens_of rest) }
{}

/// A text reaches to the first quote that no backslash escapes.
#[tactic(auto, using(crate::proofs::TokenLaws::text_reads))]
pub fn texts_reach_to_their_quote()
    ensures { (text rest : List ℕ) → IsText text
        → tokens_of (34 ∷ text ++ 34 ∷ rest) ≡ followed (Some (token.Text text)) (tokens_of rest) }
{}

/// Spaces and tabs may stand before every token, and a comment reaches to the end of the line.
#[tactic(auto, using(crate::proofs::TokenLaws::space_reads, crate::proofs::TokenLaws::tab_reads, crate::proofs::TokenLaws::comment_reads))]
pub fn blanks_and_comments_give_no_tokens()
    ensures space { (rest : List ℕ) → tokens_of (32 ∷ rest) ≡ tokens_of rest }
    ensures tab { (rest : List ℕ) → tokens_of (9 ∷ rest) ≡ tokens_of rest }
    ensures comment { (rest : List ℕ) → tokens_of (35 ∷ rest) ≡ Some [] }
{}

/// Digits stand for their value where a field may hold it: decimal ones, behind a minus for its negative, and hexadecimal
/// ones behind `0x`.
#[tactic(auto, using(crate::proofs::NumberLaws::decimal_reads, crate::proofs::NumberLaws::negative_reads, crate::proofs::NumberLaws::hexadecimal_reads))]
pub fn numbers_stand_for_their_value()
    ensures decimal { (digits : List ℕ) → IsNumeral 10 digits → digits_value 10 digits ≤ too_large
        → number_of digits ≡ Some (pos (digits_value 10 digits)) }
    ensures negative { (digits : List ℕ) → IsNumeral 10 digits → digits_value 10 digits ≤ too_large
        → number_of (45 ∷ digits) ≡ Some (neg_ℤ (pos (digits_value 10 digits))) }
    ensures hexadecimal { (digits : List ℕ) → IsNumeral 16 digits →
        digits_value 16 digits ≤ too_large
        → number_of (48 ∷ 120 ∷ digits) ≡ Some (pos (digits_value 16 digits)) }
{}
