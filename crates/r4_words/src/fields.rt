// Sign extension, and the bit fields of a word.
ghost use Rattle.std.specs.Prelude.{◌≡◌, ℕ, ◌<◌, ◌≤◌};
ghost use Rattle.r4_words.specs.Words as words;

/// The sign extension of a half to 32 bits.
pub fn sext16(half: u16) -> u32
    ensures { result ≡ words.sext16 half }
{
    i32::from(half.cast_signed()).cast_unsigned()
}

/// The sign extension of a word to 64 bits.
pub fn sext32(word: u32) -> u64
    ensures { result ≡ words.sext32 word }
{
    i64::from(word.cast_signed()).cast_unsigned()
}

/// Bits `high..low` of a word, moved down to bit 0.
pub fn field(word: u32, high: u32, low: u32) -> u32
    requires order { low ≤ high }
    requires in_word { high < 32 }
    ensures { result ≡ words.field word high low }
{
    ((u64::from(word) >> low) % (1u64 << (high - low + 1))) as u32
}
