//! Multiplication and division of words (unprivileged manual, "M" Extension for Integer Multiplication and Division).
ghost use Rattle.std.specs.Prelude.{◌≡◌, pos, ◌*◌, ◌/◌, ◌^◌, ◌*ℤ◌};
ghost use Rattle.rv_exec.specs.Arithmetic.{signed_word, high_word, quotient};
ghost use Rattle.rv_exec.specs.Arithmetic.{remainder as remainder_of, unsigned_quotient};
ghost use Rattle.rv_exec.specs.Arithmetic.{unsigned_remainder};

/// The high word of the product of two signed words.
#[inline]
#[tactic(auto, using(crate::proofs::ArithmeticLaws::product_fits))]
pub fn multiply_high(a: u32, b: u32) -> u32
    ensures { result ≡ high_word (signed_word a *ℤ signed_word b) }
{
    upper_word(i64::from(a.cast_signed()) * i64::from(b.cast_signed()))
}

/// The high word of the product of a signed word and an unsigned one.
#[inline]
#[tactic(auto, using(crate::proofs::ArithmeticLaws::mixed_product_fits))]
pub fn multiply_high_mixed(a: u32, b: u32) -> u32
    ensures { result ≡ high_word (signed_word a *ℤ pos b) }
{
    upper_word(i64::from(a.cast_signed()) * i64::from(b))
}

/// The high word of the product of two unsigned words.
#[inline]
#[tactic(auto, using(crate::proofs::ArithmeticLaws::unsigned_product_fits))]
pub fn multiply_high_unsigned(a: u32, b: u32) -> u32
    ensures { result ≡ a * b / 2 ^ 32 }
{
    (u64::from(a) * u64::from(b) / 0x1_0000_0000) as u32
}

/// The high word of the 64 bits of a product.
#[inline]
#[tactic(auto, unfolding(crate::specs::Arithmetic::high_word))]
fn upper_word(product: i64) -> u32
    ensures { result ≡ high_word product }
{
    (product.cast_unsigned() / 0x1_0000_0000) as u32
}

/// The quotient of two signed words, rounded toward zero; by zero all its bits are set.
#[inline]
#[tactic(auto, unfolding(crate::specs::Arithmetic::quotient))]
pub fn divide(a: u32, b: u32) -> u32
    ensures { result ≡ quotient a b }
{
    if b == 0 {
        u32::MAX
    } else {
        // The one quotient that is no signed word, of -2^31 by -1, wraps.
        a.cast_signed()
            .wrapping_div(b.cast_signed())
            .cast_unsigned()
    }
}

/// The quotient of two unsigned words; by zero all its bits are set.
#[inline]
#[tactic(auto, unfolding(crate::specs::Arithmetic::unsigned_quotient))]
pub fn divide_unsigned(a: u32, b: u32) -> u32
    ensures { result ≡ unsigned_quotient a b }
{
    if b == 0 { u32::MAX } else { a / b }
}

/// What the division of two signed words leaves, with the dividend's sign; by zero the dividend.
#[inline]
#[tactic(auto, unfolding(crate::specs::Arithmetic::remainder))]
pub fn remainder(a: u32, b: u32) -> u32
    ensures { result ≡ remainder_of a b }
{
    if b == 0 {
        a
    } else {
        a.cast_signed()
            .wrapping_rem(b.cast_signed())
            .cast_unsigned()
    }
}

/// What the division of two unsigned words leaves; by zero the dividend.
#[inline]
#[tactic(auto, unfolding(crate::specs::Arithmetic::unsigned_remainder))]
pub fn remainder_unsigned(a: u32, b: u32) -> u32
    ensures { result ≡ unsigned_remainder a b }
{
    if b == 0 { a } else { a % b }
}
