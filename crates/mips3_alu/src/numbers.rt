// A register's number in the machine's types, and back.
ghost use Rattle.std.specs.Prelude.{◌≡◌, ◌%◌, ◌^◌, FitsSigned};
ghost use Rattle.std.specs.Int.{w32, w64, cast_unsigned};
ghost use Rattle.mips3_alu.specs.Arithmetic as law;

use r4_words::sext32;

// The low 32 bits of a register.
pub fn low_word(register: u64) -> u32
    ensures { result ≡ register % 2 ^ 32 }
{
    (register & 0xffff_ffff) as u32
}

// The integer of the low 32 bits.
#[tactic(auto, unfolding(crate::specs::Arithmetic::signed, crate::specs::Arithmetic::unsigned))]
pub fn integer_of_word(register: u64) -> i32
    ensures { result ≡ law.signed 32 register }
{
    low_word(register).cast_signed()
}

// The integer of all 64 bits.
#[tactic(auto, unfolding(crate::specs::Arithmetic::signed, crate::specs::Arithmetic::unsigned))]
pub fn integer_of(register: u64) -> i64
    ensures { result ≡ law.signed 64 register }
{
    register.cast_signed()
}

// The register for a word, sign-extended.
#[tactic(auto, unfolding(crate::specs::Arithmetic::reduced))]
pub fn register_of_word(z: i32) -> u64
    ensures { result ≡ law.reduced 32 z }
{
    sext32(z.cast_unsigned())
}

// The register for an integer of 64 bits.
#[tactic(auto, unfolding(crate::specs::Arithmetic::reduced))]
pub fn register_of(z: i64) -> u64
    ensures { result ≡ law.reduced 64 z }
{
    z.cast_unsigned()
}
