// Numbers read from texts.
ghost use Rattle.std.specs.Prelude.{◌≡◌, ◌≢◌, ℕ, ◌<◌, ◌≤◌, ◌^◌, length, IfSome, IfNone, true};
ghost use Rattle.std.specs.List.{list_all};
ghost use Rattle.r4_words.specs.Texts as texts;

/// What the code of a digit stands for: 0-9, A-F or a-f.
pub fn value_of_digit(code: u8) -> u8
    ensures value { result ≡ texts.value_of_digit code }
    ensures small { texts.is_hex_digit code ≡ true → result < 16 }
    ensures decimal { texts.is_digit code ≡ true → result < 10 }
{
    match code {
        0..=b'9' => code.saturating_sub(b'0'),
        58..=b'F' => code - 55,
        _ => code.saturating_sub(87),
    }
}

// Whether each byte is one of 0-9.
fn are_digits(text: &[u8]) -> bool
    ensures { result ≡ list_all texts.is_digit text.now }
{
    text.iter().all(|code| code.is_ascii_digit())
}

// Whether each byte is one of 0-9 and a-f.
fn are_hex_digits(text: &[u8]) -> bool
    ensures { result ≡ list_all texts.is_hex_digit text.now }
{
    text.iter()
        .all(|code| matches!(code, b'0'..=b'9' | b'a'..=b'f'))
}

// The number of at most ten digits.
fn dec_number(text: &[u8]) -> u64
    requires short { length text.now ≤ 10 }
    requires digits { list_all texts.is_digit text.now ≡ true }
    ensures { result ≡ texts.number_of 10 text.now }
{
    let mut number = 0;
    for code in text {
        number = number * 10 + u64::from(*code - b'0');
    }
    number
}

// The number of at most sixteen hexadecimal digits.
fn hex_number(text: &[u8]) -> u64
    requires short { length text.now ≤ 16 }
    requires digits { list_all texts.is_hex_digit text.now ≡ true }
    ensures { result ≡ texts.number_of 16 text.now }
{
    let mut number = 0;
    for code in text {
        number = number * 16 + u64::from(value_of_digit(*code));
    }
    number
}

fn dec_value(text: &[u8]) -> Option<u32>
    ensures { result ≡ texts.read_dec text.now }
{
    if text.is_empty() || text.len() > 10 || !are_digits(text) {
        return None;
    }
    if text[0] == b'0' && text.len() > 1 {
        return None;
    }
    u32::try_from(dec_number(text)).ok()
}

fn hex_value(text: &[u8], digits: usize) -> Option<u64>
    requires { digits ≤ 16 }
    ensures { result ≡ texts.read_hex text.now digits }
{
    if text.len() != digits || !are_hex_digits(text) {
        return None;
    }
    Some(hex_number(text))
}

/// The number of a decimal text: `0`, or 1 to 10 digits without a leading zero, at most 4294967295.
/// None for every other text.
pub fn read_dec(text: &[u8]) -> Option<u32>
    ensures value { result ≡ texts.read_dec text.now }
    ensures some { IfSome result (λ n. text.now ≡ texts.dec_of n) }
    ensures none { IfNone result ((n : ℕ) → n < 2 ^ 32 → text.now ≢ texts.dec_of n) }
    ensures read_back { (n : ℕ) → n < 2 ^ 32 → text.now ≡ texts.dec_of n → result ≡ Some n }
{
    dec_value(text)
}

/// The number of a text of exactly so many hexadecimal digits, 0-9 and a-f. None for every other text.
pub fn read_hex(text: &[u8], digits: usize) -> Option<u64>
    requires { digits ≤ 16 }
    ensures value { result ≡ texts.read_hex text.now digits }
    ensures some { IfSome result (λ n. (text.now ≡ texts.hex_of digits n) × (n < 16 ^ digits)) }
    ensures none { IfNone result ((n : ℕ) → text.now ≢ texts.hex_of digits n) }
    ensures read_back { (n : ℕ) → n < 16 ^ digits → text.now ≡ texts.hex_of digits n → result ≡ Some n }
{
    hex_value(text, digits)
}
