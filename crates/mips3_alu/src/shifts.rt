//! Shifts. Those of words take the low 32 bits of the value and sign-extend what they give.

ghost use Rattle.std.specs.Prelude.{◌≡◌, ◌<◌};
ghost use Rattle.mips3_alu.specs.Arithmetic as law;

use crate::numbers::{integer_of, integer_of_word, low_word, register_of, register_of_word};
use r4_words::sext32;

/// SLL: a word shifted to the left.
#[tactic(auto, using(crate::proofs::Reductions::shifted_left_32))]
pub fn alu_sll(value: u64, amount: u32) -> u64
    requires { amount < 32 }
    ensures { result ≡ law.shifted_left 32 value amount }
{
    sext32(low_word(value) << amount)
}

/// SRL: a word shifted to the right, with zeros before it.
#[tactic(auto, using(crate::proofs::Reductions::shifted_right_logical_32))]
pub fn alu_srl(value: u64, amount: u32) -> u64
    requires { amount < 32 }
    ensures { result ≡ law.shifted_right_logical 32 value amount }
{
    sext32(low_word(value) >> amount)
}

/// SRA: a word shifted to the right, with copies of its sign before it.
pub fn alu_sra(value: u64, amount: u32) -> u64
    requires { amount < 32 }
    ensures { result ≡ law.shifted_right_arithmetic 32 value amount }
{
    register_of_word(integer_of_word(value) >> amount)
}

/// DSLL: a doubleword shifted to the left.
#[tactic(auto, using(crate::proofs::Reductions::shifted_left_64))]
pub fn alu_dsll(value: u64, amount: u32) -> u64
    requires { amount < 64 }
    ensures { result ≡ law.shifted_left 64 value amount }
{
    value << amount
}

/// DSRL: a doubleword shifted to the right, with zeros before it.
#[tactic(auto, using(crate::proofs::Reductions::shifted_right_logical_64))]
pub fn alu_dsrl(value: u64, amount: u32) -> u64
    requires { amount < 64 }
    ensures { result ≡ law.shifted_right_logical 64 value amount }
{
    value >> amount
}

/// DSRA: a doubleword shifted to the right, with copies of its sign before it.
pub fn alu_dsra(value: u64, amount: u32) -> u64
    requires { amount < 64 }
    ensures { result ≡ law.shifted_right_arithmetic 64 value amount }
{
    register_of(integer_of(value) >> amount)
}
