//! The text of each kind of operand, appended to a line.

ghost use Rattle.std.specs.Prelude.{◌≡◌, ◌<◌, ◌≤◌, ◌+◌, ◌^◌, ◌++◌, length};
ghost use Rattle.arrayvec.specs.ArrayVec.{array_vec_len};
ghost use Rattle.mips_text.specs.Names as names;
ghost use Rattle.mips_text.specs.Values.{hex_digits_of, hex_text, signed_text};
ghost use Rattle.mips_text.specs.Printed.{based_text};

use crate::names::{cp0_name, register_name};
use r4_words::{Line, put_dec, put_hex, put_text};

/// Appends the name of a general register.
pub fn put_register(register: u8, line: &mut Line)
    requires register { register < 32 }
    requires room { array_vec_len line.old ≤ 100 }
    ensures items { line.new.items ≡ line.old.items ++ names.register_name register }
    ensures len { array_vec_len line.new ≤ array_vec_len line.old + 4 }
{
    put_text(register_name(register).as_bytes(), line);
}

/// Appends the name of a register of coprocessor 0.
pub fn put_cp0_register(register: u8, line: &mut Line)
    requires register { register < 32 }
    requires room { array_vec_len line.old ≤ 100 }
    ensures items { line.new.items ≡ line.old.items ++ names.cp0_name register }
    ensures len { array_vec_len line.new ≤ array_vec_len line.old + 8 }
{
    put_text(cp0_name(register).as_bytes(), line);
}

/// Appends hexadecimal digits without a leading zero.
#[tactic(auto, using(crate::proofs::Digits::hex_digit_by_digit))]
fn push_hex(value: u32, line: &mut Line)
    requires { array_vec_len line.old + length (hex_digits_of value) ≤ 128 }
    ensures items { line.new.items ≡ line.old.items ++ hex_digits_of value }
    ensures len { array_vec_len line.new ≡ array_vec_len line.old + length (hex_digits_of value) }
{
    if value >= 16 {
        push_hex(value / 16, line);
    }
    put_hex(u64::from(value), 1, line);
}

/// Appends a number without a sign in hexadecimal, `0x` and its digits.
#[tactic(auto, using(crate::proofs::Digits::hex_digit_counts), unfolding(crate::specs::Values::hex_text))]
pub fn put_hexadecimal(value: u32, line: &mut Line)
    requires { array_vec_len line.old ≤ 100 }
    ensures items { line.new.items ≡ line.old.items ++ hex_text value }
    ensures len { array_vec_len line.new ≤ array_vec_len line.old + 10 }
{
    put_text(b"0x", line);
    push_hex(value, line);
}

/// Appends 16 bits in two's complement in decimal.
#[tactic(auto, using(std::proofs::lemmas::Grind::common_steps), unfolding(crate::specs::Values::signed_text))]
pub fn put_signed(half: u32, line: &mut Line)
    requires half { half < 2 ^ 16 }
    requires room { array_vec_len line.old ≤ 100 }
    ensures items { line.new.items ≡ line.old.items ++ signed_text half }
    ensures len { array_vec_len line.new ≤ array_vec_len line.old + 21 }
{
    if half < 0x8000 {
        put_dec(u64::from(half), line);
    } else {
        put_text(b"-", line);
        put_dec(u64::from(0x10000 - half), line);
    }
}

/// Appends an offset and its base, `off(base)`.
#[tactic(auto, using(std::proofs::lemmas::Grind::common_steps), unfolding(crate::specs::Printed::based_text))]
pub fn put_based(offset: u32, base: u8, line: &mut Line)
    requires offset { offset < 2 ^ 16 }
    requires base { base < 32 }
    requires room { array_vec_len line.old ≤ 72 }
    ensures items { line.new.items ≡ line.old.items ++ based_text offset base }
    ensures len { array_vec_len line.new ≤ array_vec_len line.old + 27 }
{
    put_signed(offset, line);
    put_text(b"(", line);
    put_register(base, line);
    put_text(b")", line);
}
