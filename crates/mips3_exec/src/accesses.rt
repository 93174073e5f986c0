//! The bytes that an operation moves.

ghost use Rattle.std.specs.Prelude.{◌≡◌, ◌≤◌, ◌%◌};
ghost use Rattle.mips3_exec.specs.Accesses as law;

use mips3_table::{Operation, Size, Width};

/// The bytes that an access touches: the lowest address, and how many.
#[derive(Clone, Copy)]
pub struct Reach {
    pub first: u32,
    pub size: u8,
}

// How many bytes a width has.
fn bytes_of_width(width: Width) -> u8
    ensures { result ≡ law.bytes_of_width width }
{
    match width {
        Width::Word => 4,
        Width::Double => 8,
    }
}

// How many bytes a size has.
fn bytes_of_size(size: Size) -> u8
    ensures { result ≡ law.bytes_of_size size }
{
    match size {
        Size::Byte => 1,
        Size::Half => 2,
        Size::Wide(width) => bytes_of_width(width),
    }
}

/// How far an address is behind the beginning of its aligned word or doubleword.
pub fn offset(width: Width, va: u32) -> u8
    ensures value { result ≡ va % law.bytes_of_width width }
    ensures most { result ≤ 7 }
{
    match width {
        Width::Word => (va % 4) as u8,
        Width::Double => (va % 8) as u8,
    }
}

// From an address on to the end of its word or doubleword.
fn left(width: Width, va: u32) -> Reach
    ensures first { result.first ≡ (law.left (law.bytes_of_width width) va).first }
    ensures size { result.size ≡ (law.left (law.bytes_of_width width) va).size }
{
    Reach {
        first: va,
        size: bytes_of_width(width) - offset(width, va),
    }
}

// From the beginning of the word or doubleword up to an address.
fn right(width: Width, va: u32) -> Reach
    ensures first { result.first ≡ (law.right (law.bytes_of_width width) va).first }
    ensures size { result.size ≡ (law.right (law.bytes_of_width width) va).size }
{
    let offset = offset(width, va);
    Reach {
        first: va - u32::from(offset),
        size: offset + 1,
    }
}

/// The bytes that an operation moves at an address.
pub fn moved(operation: Operation, va: u32) -> Reach
    ensures first { result.first ≡ (law.moved operation va).first }
    ensures size { result.size ≡ (law.moved operation va).size }
{
    match operation {
        Operation::Load(size, _) | Operation::Store(size) => Reach {
            first: va,
            size: bytes_of_size(size),
        },
        Operation::LoadLinked(width) | Operation::StoreConditional(width) => Reach {
            first: va,
            size: bytes_of_width(width),
        },
        Operation::LoadLeft(width) | Operation::StoreLeft(width) => left(width, va),
        Operation::LoadRight(width) | Operation::StoreRight(width) => right(width, va),
        _ => Reach { first: va, size: 1 },
    }
}

/// Whether an access is aligned as its operation wants, by the bytes that it touches.
pub fn is_aligned(first: u32, size: u8) -> bool
    ensures { result ≡ law.begins_aligned first size }
{
    match size {
        2 => first % 2 == 0,
        4 => first % 4 == 0,
        8 => first % 8 == 0,
        _ => true,
    }
}
