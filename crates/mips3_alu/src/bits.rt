//! The operations on bits, and the comparisons that give a register. All 64 bits count.

ghost use Rattle.std.specs.Prelude.{◌≡◌, bit_and, bit_or, bit_xor};
ghost use Rattle.mips3_alu.specs.Arithmetic as law;

use crate::numbers::integer_of;

/// AND: the bits that both have.
pub fn alu_and(a: u64, b: u64) -> u64
    ensures { result ≡ bit_and a b }
{
    a & b
}

/// OR: the bits that one of them has.
pub fn alu_or(a: u64, b: u64) -> u64
    ensures { result ≡ bit_or a b }
{
    a | b
}

/// XOR: the bits that exactly one of them has.
pub fn alu_xor(a: u64, b: u64) -> u64
    ensures { result ≡ bit_xor a b }
{
    a ^ b
}

/// NOR: the bits that neither has.
#[tactic(auto, unfolding(crate::specs::Arithmetic::nor))]
pub fn alu_nor(a: u64, b: u64) -> u64
    ensures { result ≡ law.nor a b }
{
    !(a | b)
}

/// SLT: 1 where `a` is less than `b` as an integer, else 0.
#[tactic(auto, unfolding(crate::specs::Arithmetic::less))]
pub fn alu_slt(a: u64, b: u64) -> u64
    ensures { result ≡ law.one_where (law.less a b) }
{
    u64::from(integer_of(a) < integer_of(b))
}

/// SLTU: 1 where `a` is less than `b` as a whole number, else 0.
#[tactic(auto, unfolding(crate::specs::Arithmetic::less_unsigned, crate::specs::Arithmetic::unsigned))]
pub fn alu_sltu(a: u64, b: u64) -> u64
    ensures { result ≡ law.one_where (law.less_unsigned a b) }
{
    u64::from(a < b)
}
