//! Numbers that lie in a range, as bits.

ghost use Rattle.std.specs.Prelude.{◌≡◌, ◌<◌, ◌≤◌, ◌^◌, pos, IfSome};
ghost use Rattle.mips_text.specs.Forms as forms;
ghost use Rattle.mips_text.specs.Values as values;
ghost use Rattle.mips_asm.specs.StatementsOf.{IsNarrow, low_bits_of};

use mips_text::{Range, number_of};

/// So large a power of two.
fn power(width: u8) -> i64
    requires { width ≤ 32 }
    ensures value { result ≡ pos (2 ^ width) }
    ensures some { 0 < 2 ^ width }
    ensures most { 2 ^ width ≤ 2 ^ 32 }
{
    1i64 << width
}

/// Whether a number lies in a range.
fn contains(range: Range, number: i64) -> bool
    requires { IsNarrow range }
    ensures { result ≡ forms.in_range range number }
{
    match range {
        Range::Unsigned(width) => 0 <= number && number <= power(width) - 1,
        Range::WithSign(width) => {
            let half = power(width - 1);
            -half <= number && number <= half - 1
        }
        Range::EitherSign(width) => { -power(width - 1) <= number && number <= power(width) - 1 }
    }
}

fn width_of(range: Range) -> u8
    requires { IsNarrow range }
    ensures value { result ≡ forms.width_of range }
    ensures small { result ≤ 32 }
{
    match range {
        Range::Unsigned(width) | Range::WithSign(width) | Range::EitherSign(width) => width,
    }
}

/// So many low bits of a number in two's complement.
fn low_bits(width: u8, number: i64) -> u32
    requires { width ≤ 32 }
    ensures { result ≡ low_bits_of width number }
{
    number.rem_euclid(power(width)) as u32
}

/// The bits of a number that lies in a range, a negative one in two's complement.
#[tactic(auto, using(crate::proofs::Bounds::bits_there, crate::proofs::Bounds::no_bits))]
fn bits_of(range: Range, number: i64) -> Option<u32>
    requires { IsNarrow range }
    ensures { result ≡ forms.bits_in range number }
{
    if contains(range, number) {
        Some(low_bits(width_of(range), number))
    } else {
        None
    }
}

/// The bits of the number of a text, where it lies in a range.
#[tactic(auto, using(crate::proofs::Bounds::far_outside, crate::proofs::Bounds::small_bits))]
pub fn bits_in(range: Range, text: &[u8]) -> Option<u32>
    requires { IsNarrow range }
    ensures value { result ≡ forms.bits_in range (values.number_of text.now) }
    ensures small { IfSome result (λ bits. bits < 2 ^ forms.width_of range) }
{
    bits_of(range, number_of(text)?)
}

/// Whether the number of a text lies in a range.
#[tactic(auto, using(crate::proofs::Bounds::some_in_range))]
pub fn is_in_range(range: Range, text: &[u8]) -> bool
    requires { IsNarrow range }
    ensures { result ≡ forms.in_range range (values.number_of text.now) }
{
    bits_in(range, text).is_some()
}
