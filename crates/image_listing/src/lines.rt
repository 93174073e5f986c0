//! The line of a word.

ghost use Rattle.std.specs.Prelude.{◌≡◌, ◌≤◌};
ghost use Rattle.arrayvec.specs.ArrayVec.{array_vec_len};
ghost use Rattle.mips_text.specs.Printed.{word_text};
ghost use Rattle.image_listing.specs.Listing as law;

use mips_text::print_word;
use r4_words::{Line, put_hex, put_text};

// The text of a word at an address.
#[tactic(auto, using(crate::proofs::TextLength::length_word_text))]
fn text_line(word: u32, address: u32) -> Line
    ensures text { result.items ≡ word_text word address }
    ensures short { array_vec_len result ≤ 100 }
{
    let mut text = Line::new();
    print_word(word, address, &mut text);
    text
}

/// The line of a word at an address.
#[tactic(auto, unfolding(crate::specs::Listing::word_line))]
pub fn word_line(address: u32, word: u32) -> Line
    ensures text { result.items ≡ law.word_line address word }
{
    let text = text_line(word, address);
    let mut line = Line::new();
    put_hex(u64::from(address), 8, &mut line);
    put_text(b" ", &mut line);
    put_hex(u64::from(word), 8, &mut line);
    put_text(b" ", &mut line);
    put_text(text.as_slice(), &mut line);
    put_text(b"\n", &mut line);
    line
}
