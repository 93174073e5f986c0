//! Products: the high half in HI and the low half in LO. Those of words take the low 32 bits of their operands and
//! sign-extend both halves.

ghost use Rattle.std.specs.Prelude.{◌≡◌, pos};
ghost use Rattle.mips3_alu.specs.Arithmetic as law;

use crate::numbers::{integer_of, integer_of_word, low_word};
use crate::registers::Halves;
use r4_words::sext32;

// The halves of 64 bits, each a word.
#[tactic(auto, unfolding(crate::specs::Arithmetic::reduced))]
fn words_of(product: u64) -> Halves
    ensures { result ≡ law.halves 32 (pos product) }
{
    Halves {
        hi: sext32((product >> 32) as u32),
        lo: sext32(low_word(product)),
    }
}

// The halves of 128 bits.
#[tactic(auto, unfolding(crate::specs::Arithmetic::reduced))]
fn doublewords_of(product: u128) -> Halves
    ensures { result ≡ law.halves 64 (pos product) }
{
    Halves {
        hi: (product >> 64) as u64,
        lo: (product & 0xffff_ffff_ffff_ffff) as u64,
    }
}

/// MULT: the product of words as integers.
pub fn alu_mult(a: u64, b: u64) -> Halves
    ensures { result ≡ law.product 32 a b }
{
    let product = i64::from(integer_of_word(a)) * i64::from(integer_of_word(b));
    words_of(product.cast_unsigned())
}

/// MULTU: the product of words as whole numbers.
#[tactic(auto, unfolding(crate::specs::Arithmetic::product_unsigned, crate::specs::Arithmetic::unsigned))]
pub fn alu_multu(a: u64, b: u64) -> Halves
    ensures { result ≡ law.product_unsigned 32 a b }
{
    words_of(u64::from(low_word(a)) * u64::from(low_word(b)))
}

/// DMULT: the product of doublewords as integers.
pub fn alu_dmult(a: u64, b: u64) -> Halves
    ensures { result ≡ law.product 64 a b }
{
    let product = i128::from(integer_of(a)) * i128::from(integer_of(b));
    doublewords_of(product.cast_unsigned())
}

/// DMULTU: the product of doublewords as whole numbers.
#[tactic(auto, unfolding(crate::specs::Arithmetic::product_unsigned, crate::specs::Arithmetic::unsigned))]
pub fn alu_dmultu(a: u64, b: u64) -> Halves
    ensures { result ≡ law.product_unsigned 64 a b }
{
    doublewords_of(u128::from(a) * u128::from(b))
}
