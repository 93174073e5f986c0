// Numbers and texts written into a line of bounded room.
ghost use Rattle.std.specs.Prelude.{◌≡◌, ℕ, ◌<◌, ◌≤◌, ◌+◌, ◌*◌, ◌/◌, ◌%◌, ◌^◌, ◌++◌, ◌∷◌, [], length};
ghost use Rattle.arrayvec.specs.ArrayVec.{array_vec_len};
ghost use Rattle.r4_words.specs.Texts.{digit_of, hex_of, dec_of};

use arrayvec::ArrayVec;

/// A line of text under construction, of at most 128 bytes.
pub type Line = ArrayVec<u8, 128>;

/// Appends a text.
pub fn put_text(text: &[u8], line: &mut Line)
    requires { array_vec_len line.old + length text.now ≤ 128 }
    ensures items { line.new.items ≡ line.old.items ++ text.now }
    ensures len { array_vec_len line.new ≡ array_vec_len line.old + length text.now }
{
    match line.try_extend_from_slice(text) {
        Ok(()) => {}
        Err(_) => unreachable!(),
    }
}

fn digit(value: u64) -> u8
    requires { value < 16 }
    ensures { result ≡ digit_of value }
{
    if value < 10 {
        b'0' + value as u8
    } else {
        87 + value as u8
    }
}

// The hexadecimal digit of a value that has so many others below it.
#[tactic(auto, using(crate::proofs::Written::div_shifted, crate::proofs::Written::div_shifted_out))]
fn hex_digit(value: u64, below: u32) -> u8
    ensures { result ≡ digit_of (value / 16 ^ below % 16) }
{
    if below < 16 {
        digit((value >> (4 * below)) % 16)
    } else {
        b'0'
    }
}

/// Appends so many low hexadecimal digits of a value, in lower case and the high one first.
pub fn put_hex(value: u64, digits: u32, line: &mut Line)
    requires { array_vec_len line.old + digits ≤ 128 }
    ensures items { line.new.items ≡ line.old.items ++ hex_of digits value }
    ensures len { array_vec_len line.new ≡ array_vec_len line.old + digits }
{
    for place in 0..digits {
        line.push(hex_digit(value, digits - 1 - place));
    }
}

#[tactic(auto, using(crate::proofs::Written::dec_of_small, crate::proofs::Written::dec_of_more, std::proofs::lemmas::Grind::common_steps))]
fn push_dec(value: u64, line: &mut Line)
    requires { array_vec_len line.old + length (dec_of value) ≤ 128 }
    ensures items { line.new.items ≡ line.old.items ++ dec_of value }
    ensures len { array_vec_len line.new ≡ array_vec_len line.old + length (dec_of value) }
{
    if value >= 10 {
        push_dec(value / 10, line);
    }
    line.push(digit(value % 10));
}

/// Appends the decimal digits of a value, without a leading zero; `0` for 0.
#[tactic(auto, using(crate::proofs::Written::length_dec_of))]
pub fn put_dec(value: u64, line: &mut Line)
    requires { array_vec_len line.old + 20 ≤ 128 }
    ensures items { line.new.items ≡ line.old.items ++ dec_of value }
    ensures len { array_vec_len line.new ≤ array_vec_len line.old + 20 }
{
    push_dec(value, line);
}
