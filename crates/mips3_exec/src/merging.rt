//! What a load makes of the bytes that it read, and what a store makes of a register.

ghost use Rattle.std.specs.Prelude.{◌≡◌, ◌<◌, ◌≤◌, ◌+◌, ◌-◌, ◌*◌, ◌/◌, ◌%◌, ◌^◌, IsTrue};
ghost use Rattle.mips3_table.specs.declared.operations.Signedness.TheVariants as sign;
ghost use Rattle.mips3_table.specs.Instructions.{IsInst};
ghost use Rattle.mips3_exec.specs.Accesses as law;
ghost use Rattle.mips3_exec.specs.Effects.{operation_of as operation_at, loaded_of, stored_of};

use crate::accesses::{moved, offset};
use crate::operands::low_word;
use mips3_table::{Inst, Operation, Signedness, Size, Width, operation_of};
use r4_words::{sext16, sext32};

// 256 to the power of a number of bytes.
#[tactic(auto, using(crate::proofs::Positions::power_is, crate::proofs::Pieces::some_bytes))]
fn power(count: u8) -> u64
    requires { count < 8 }
    ensures value { result ≡ 256 ^ count }
    ensures some { 0 < result }
{
    1 << (8 * u32::from(count))
}

// The low bytes of a value.
fn low_bytes(count: u8, value: u64) -> u64
    requires { count ≤ 8 }
    ensures { result ≡ value % 256 ^ count }
{
    if count < 8 {
        value % power(count)
    } else {
        value
    }
}

// A word or a doubleword as a register.
#[tactic(auto, unfolding(mips3_alu::specs::Arithmetic::reduced))]
fn as_register(width: Width, value: u64) -> u64
    ensures { result ≡ law.as_register sign.Signed (8 * law.bytes_of_width width) value }
{
    match width {
        Width::Word => sext32(low_word(value)),
        Width::Double => value,
    }
}

// The bytes of a whole unit as a register.
#[tactic(auto, unfolding(mips3_alu::specs::Arithmetic::reduced, mips3_alu::specs::Arithmetic::unsigned))]
fn extended(size: Size, signedness: Signedness, bytes: u64) -> u64
    requires { bytes < 256 ^ law.bytes_of_size size }
    ensures { result ≡ law.as_register signedness (8 * law.bytes_of_size size) bytes }
{
    match (signedness, size) {
        (Signedness::Unsigned, _) => bytes,
        (Signedness::Signed, Size::Byte) if bytes < 0x80 => bytes,
        (Signedness::Signed, Size::Byte) => bytes + 0xffff_ffff_ffff_ff00,
        (Signedness::Signed, Size::Half) => sext32(sext16(bytes as u16)),
        (Signedness::Signed, Size::Wide(width)) => as_register(width, bytes),
    }
}

// Bytes above so many low bytes of a register.
fn above(low: u8, old: u64, bytes: u64) -> u64
    requires { low < 8 }
    ensures { result ≡ (bytes * 256 ^ low % 2 ^ 64 + old % 256 ^ low) % 2 ^ 64 }
{
    bytes
        .wrapping_mul(power(low))
        .wrapping_add(old % power(low))
}

// So many bytes below the high bytes of a register.
fn below(count: u8, old: u64, bytes: u64) -> u64
    requires { count ≤ 8 }
    ensures { result ≡ (old - old % 256 ^ count + bytes) % 2 ^ 64 }
{
    (old - low_bytes(count, old)).wrapping_add(bytes)
}

#[tactic(auto, using(crate::proofs::Positions::loads))]
fn loaded_by(operation: Operation, old: u64, va: u32, bytes: u64) -> u64
    requires load { IsTrue (law.is_load operation) }
    requires fits { bytes < 256 ^ (law.moved operation va).size }
    ensures { result ≡ law.loaded_by operation old va bytes }
{
    match operation {
        Operation::Load(size, signedness) => extended(size, signedness, bytes),
        Operation::LoadLinked(width) => as_register(width, bytes),
        Operation::LoadLeft(width) => as_register(width, above(offset(width, va), old, bytes)),
        Operation::LoadRight(width) => as_register(width, below(offset(width, va) + 1, old, bytes)),
        _ => unreachable!(),
    }
}

#[tactic(auto, using(crate::proofs::Positions::stores))]
fn stored_by(operation: Operation, value: u64, va: u32) -> u64
    requires store { IsTrue (law.is_store operation) }
    ensures { result ≡ law.stored_by operation value va }
{
    let size = moved(operation, va).size;
    match operation {
        Operation::Store(_) | Operation::StoreConditional(_) | Operation::StoreRight(_) => {
            low_bytes(size, value)
        }
        Operation::StoreLeft(width) => low_bytes(size, value / power(offset(width, va))),
        _ => unreachable!(),
    }
}

/// The register after a load at an address, by what it was and the number of the bytes read there, the first of them the
/// most significant.
#[tactic(auto, unfolding(crate::specs::Effects::loaded_of))]
pub fn loaded(inst: &Inst, old: u64, va: u32, bytes: u64) -> u64
    requires inst { IsInst inst.now }
    requires load { IsTrue (law.is_load (operation_at inst.now)) }
    requires fits { bytes < 256 ^ (law.moved (operation_at inst.now) va).size }
    ensures { result ≡ loaded_of inst.now old va bytes }
{
    loaded_by(operation_of(inst.row), old, va, bytes)
}

/// The number of the bytes that a store writes at an address, the first of them the most significant.
#[tactic(auto, unfolding(crate::specs::Effects::stored_of), using(crate::proofs::Positions::stored_fits))]
pub fn stored(inst: &Inst, value: u64, va: u32) -> u64
    requires inst { IsInst inst.now }
    requires store { IsTrue (law.is_store (operation_at inst.now)) }
    ensures value { result ≡ stored_of inst.now value va }
    ensures fits { result < 256 ^ (law.moved (operation_at inst.now) va).size }
{
    stored_by(operation_of(inst.row), value, va)
}
