//! What a name or a number of a source stands for.

ghost use Rattle.std.specs.Prelude.{◌≡◌, ◌<◌, ◌≤◌, ◌+◌, ◌*◌, ◌^◌, length, bytes_eq, position, IfSome};
ghost use Rattle.r4_words.specs.Texts.{number_after};
ghost use Rattle.mips_text.specs.Forms as forms;
ghost use Rattle.mips_text.specs.Names as names;
ghost use Rattle.mips_text.specs.Values as values;

use crate::lexing::{byte_at, is_hexadecimal, rest_from};
use crate::names::{cp0_name, register_name};
use mips3_table::reads;
use r4_words::{read_dec, value_of_digit};

fn named_register(text: &[u8]) -> Option<u8>
    ensures value { result ≡ position (bytes_eq text.now) names.register_names }
    ensures small { IfSome result (λ register. register < 32) }
{
    for register in 0..32 {
        let name = register_name(register);
        let is_it = reads(text, name);
        if is_it {
            return Some(register);
        }
    }
    None
}

fn named_cp0_register(text: &[u8]) -> Option<u8>
    ensures value { result ≡ position (bytes_eq text.now) names.cp0_names }
    ensures small { IfSome result (λ register. register < 32) }
{
    for register in 0..32 {
        let name = cp0_name(register);
        let is_it = reads(text, name);
        if is_it {
            return Some(register);
        }
    }
    None
}

/// The register that a text names by this byte and its number.
fn numbered(first: u8, text: &[u8]) -> Option<u8>
    ensures value { result ≡ names.numbered first text.now }
    ensures small { IfSome result (λ register. register < 32) }
{
    if byte_at(text, 0) != first {
        return None;
    }
    match read_dec(rest_from(text, 1)) {
        Some(number) if number < 32 => Some(number as u8),
        _ => None,
    }
}

/// The general register that a name stands for: one of `zero` to `ra`, `fp` for `s8`, or `$0` to `$31`.
#[tactic(auto, unfolding(crate::specs::Names::register_of))]
pub fn register_of(text: &[u8]) -> Option<u8>
    ensures value { result ≡ names.register_of text.now }
    ensures small { IfSome result (λ register. register < 32) }
{
    if reads(text, "fp") {
        return Some(30);
    }
    match named_register(text) {
        Some(register) => Some(register),
        None => numbered(b'$', text),
    }
}

/// The register of coprocessor 0 that a name stands for: one of `Index` to `ErrorEPC`, or `c0` to `c31`.
#[tactic(auto, unfolding(crate::specs::Names::cp0_register_of))]
pub fn cp0_register_of(text: &[u8]) -> Option<u8>
    ensures value { result ≡ names.cp0_register_of text.now }
    ensures small { IfSome result (λ register. register < 32) }
{
    match named_cp0_register(text) {
        Some(register) => Some(register),
        None => numbered(b'c', text),
    }
}

/// The number of decimal digits, None from 2 ^ 32 on.
fn decimal(digits: &[u8]) -> Option<u32>
    ensures { result ≡ values.small (number_after 10 0 digits.now) }
{
    let mut number: u64 = 0;
    for code in digits {
        number = number * 10 + u64::from(value_of_digit(*code));
        if number >= 0x1_0000_0000 {
            return None;
        }
    }
    Some(number as u32)
}

/// The number of hexadecimal digits, None from 2 ^ 32 on.
fn hexadecimal(digits: &[u8]) -> Option<u32>
    ensures { result ≡ values.small (number_after 16 0 digits.now) }
{
    let mut number: u64 = 0;
    for code in digits {
        number = number * 16 + u64::from(value_of_digit(*code));
        if number >= 0x1_0000_0000 {
            return None;
        }
    }
    Some(number as u32)
}

/// The number of digits without a sign, None from 2 ^ 32 on.
fn magnitude_of(text: &[u8]) -> Option<u32>
    ensures { result ≡ values.small (values.magnitude_of text.now) }
{
    if is_hexadecimal(text) {
        hexadecimal(rest_from(text, 2))
    } else {
        decimal(text)
    }
}

/// The number of a Number token's text. None where its magnitude is 2 ^ 32 or more, which is outside of every field.
#[tactic(auto, using(crate::proofs::Numbers::bounded_negative), unfolding(crate::specs::Values::number_of))]
pub fn number_of(text: &[u8]) -> Option<i64>
    ensures { result ≡ values.bounded (values.number_of text.now) }
{
    if byte_at(text, 0) == b'-' {
        Some(-i64::from(magnitude_of(rest_from(text, 1))?))
    } else {
        Some(i64::from(magnitude_of(text)?))
    }
}
