//! Quotients: the quotient, rounded towards zero, in LO and the remainder in HI. Those of words take the low 32 bits
//! of their operands and sign-extend both. By zero, LO has all ones and HI the dividend; the least integer by -1 gives
//! itself and the remainder 0.

ghost use Rattle.std.specs.Prelude.{◌≡◌, ◌-◌, ◌^◌};
ghost use Rattle.mips3_alu.specs.Arithmetic as law;

use crate::numbers::{integer_of, integer_of_word, low_word, register_of, register_of_word};
use crate::registers::Halves;
use r4_words::sext32;

// What goes to HI and LO where the divisor is zero.
fn by_zero(dividend: u64) -> Halves
    ensures hi { result.hi ≡ dividend }
    ensures lo { result.lo ≡ 2 ^ 64 - 1 }
{
    Halves {
        hi: dividend,
        lo: u64::MAX,
    }
}

/// DIV: the quotient of words as integers.
pub fn alu_div(a: u64, b: u64) -> Halves
    ensures { result ≡ law.division 32 a b }
{
    let (dividend, divisor) = (integer_of_word(a), integer_of_word(b));
    if divisor == 0 {
        return by_zero(register_of_word(dividend));
    }
    Halves {
        hi: register_of_word(dividend.wrapping_rem(divisor)),
        lo: register_of_word(dividend.wrapping_div(divisor)),
    }
}

/// DIVU: the quotient of words as whole numbers.
#[tactic(auto, unfolding(crate::specs::Arithmetic::division_unsigned, crate::specs::Arithmetic::unsigned, crate::specs::Arithmetic::reduced))]
pub fn alu_divu(a: u64, b: u64) -> Halves
    ensures { result ≡ law.division_unsigned 32 a b }
{
    let (dividend, divisor) = (low_word(a), low_word(b));
    if divisor == 0 {
        return by_zero(sext32(dividend));
    }
    Halves {
        hi: sext32(dividend % divisor),
        lo: sext32(dividend / divisor),
    }
}

/// DDIV: the quotient of doublewords as integers.
pub fn alu_ddiv(a: u64, b: u64) -> Halves
    ensures { result ≡ law.division 64 a b }
{
    let (dividend, divisor) = (integer_of(a), integer_of(b));
    if divisor == 0 {
        return by_zero(register_of(dividend));
    }
    Halves {
        hi: register_of(dividend.wrapping_rem(divisor)),
        lo: register_of(dividend.wrapping_div(divisor)),
    }
}

/// DDIVU: the quotient of doublewords as whole numbers.
#[tactic(auto, unfolding(crate::specs::Arithmetic::division_unsigned, crate::specs::Arithmetic::unsigned, crate::specs::Arithmetic::reduced))]
pub fn alu_ddivu(a: u64, b: u64) -> Halves
    ensures { result ≡ law.division_unsigned 64 a b }
{
    if b == 0 {
        return by_zero(a);
    }
    Halves {
        hi: a % b,
        lo: a / b,
    }
}
