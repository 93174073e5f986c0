//! Sums and differences. Those of words take the low 32 bits of their operands and sign-extend what they give.

ghost use Rattle.std.specs.Prelude.{◌≡◌};
ghost use Rattle.mips3_alu.specs.Arithmetic as law;

use crate::numbers::{integer_of, integer_of_word, low_word, register_of, register_of_word};
use r4_words::sext32;

/// ADD: the sum of words, and none where it overflows.
#[tactic(auto, unfolding(crate::specs::Arithmetic::sum_if_fits, crate::specs::Arithmetic::fits))]
pub fn alu_add(a: u64, b: u64) -> Option<u64>
    ensures { result ≡ law.sum_if_fits 32 a b }
{
    let sum = integer_of_word(a).checked_add(integer_of_word(b))?;
    Some(register_of_word(sum))
}

/// SUB: the difference of words, and none where it overflows.
#[tactic(auto, unfolding(crate::specs::Arithmetic::difference_if_fits, crate::specs::Arithmetic::fits))]
pub fn alu_sub(a: u64, b: u64) -> Option<u64>
    ensures { result ≡ law.difference_if_fits 32 a b }
{
    let difference = integer_of_word(a).checked_sub(integer_of_word(b))?;
    Some(register_of_word(difference))
}

/// DADD: the sum of doublewords, and none where it overflows.
#[tactic(auto, unfolding(crate::specs::Arithmetic::sum_if_fits, crate::specs::Arithmetic::fits))]
pub fn alu_dadd(a: u64, b: u64) -> Option<u64>
    ensures { result ≡ law.sum_if_fits 64 a b }
{
    let sum = integer_of(a).checked_add(integer_of(b))?;
    Some(register_of(sum))
}

/// DSUB: the difference of doublewords, and none where it overflows.
#[tactic(auto, unfolding(crate::specs::Arithmetic::difference_if_fits, crate::specs::Arithmetic::fits))]
pub fn alu_dsub(a: u64, b: u64) -> Option<u64>
    ensures { result ≡ law.difference_if_fits 64 a b }
{
    let difference = integer_of(a).checked_sub(integer_of(b))?;
    Some(register_of(difference))
}

/// ADDU: the low 32 bits of the sum.
#[tactic(auto, using(crate::proofs::Reductions::sum_32))]
pub fn alu_addu(a: u64, b: u64) -> u64
    ensures { result ≡ law.sum 32 a b }
{
    sext32(low_word(a).wrapping_add(low_word(b)))
}

/// SUBU: the low 32 bits of the difference.
#[tactic(auto, using(crate::proofs::Reductions::difference_32))]
pub fn alu_subu(a: u64, b: u64) -> u64
    ensures { result ≡ law.difference 32 a b }
{
    sext32(low_word(a).wrapping_sub(low_word(b)))
}

/// DADDU: the low 64 bits of the sum.
#[tactic(auto, using(crate::proofs::Reductions::sum_64))]
pub fn alu_daddu(a: u64, b: u64) -> u64
    ensures { result ≡ law.sum 64 a b }
{
    a.wrapping_add(b)
}

/// DSUBU: the low 64 bits of the difference.
#[tactic(auto, using(crate::proofs::Reductions::difference_64))]
pub fn alu_dsubu(a: u64, b: u64) -> u64
    ensures { result ≡ law.difference 64 a b }
{
    a.wrapping_sub(b)
}
