//! An event as a line of text.

ghost use Rattle.std.specs.Prelude.{◌≡◌, ◌≤◌, ◌<◌, ◌+◌, ◌/◌, ◌%◌, [], ◌∷◌, ◌++◌};
ghost use Rattle.arrayvec.specs.ArrayVec.{array_vec_len};
ghost use Rattle.access_trace.specs.Grammar.{IsEvent};
ghost use Rattle.access_trace.specs.Texts as texts;
ghost use Rattle.access_trace.specs.Traces.{newline};
ghost use Rattle.r4_words.specs.Texts.{dec_of, digit_of, hex_of};

use crate::event::Event;
use crate::marks::{attribute, letter, quiet};
use crate::pairs::{dec_pair, hex_pair};
use r4_words::{Line, put_text};

// Appends the low eight hexadecimal digits of a number.
#[inline(always)]
#[tactic(auto, using(crate::proofs::Digits::word_in_pairs))]
fn put_word(value: u64, line: &mut Line)
    requires { array_vec_len line.old + 8 ≤ 128 }
    ensures items { line.new.items ≡ line.old.items ++ hex_of 8 value }
    ensures len { array_vec_len line.new ≡ array_vec_len line.old + 8 }
{
    put_text(&hex_pair(value / 0x100_0000 % 256), line);
    put_text(&hex_pair(value / 0x1_0000 % 256), line);
    put_text(&hex_pair(value / 0x100 % 256), line);
    put_text(&hex_pair(value % 256), line);
}

// Appends the nine hexadecimal digits of a physical address.
#[inline(always)]
fn put_address(value: u64, line: &mut Line)
    requires { array_vec_len line.old + 9 ≤ 128 }
    ensures items { line.new.items ≡ line.old.items ++ hex_of 9 value }
    ensures len { array_vec_len line.new ≡ array_vec_len line.old + 9 }
{
    let [_, high] = hex_pair(value / 0x1_0000_0000 % 256);
    line.push(high);
    put_word(value, line);
}

// Appends the sixteen hexadecimal digits of a doubleword, of which the first eight are often zeros.
#[inline(always)]
#[tactic(auto, using(crate::proofs::Digits::two_words))]
fn put_doubleword(value: u64, line: &mut Line)
    requires { array_vec_len line.old + 16 ≤ 128 }
    ensures items { line.new.items ≡ line.old.items ++ hex_of 16 value }
    ensures len { array_vec_len line.new ≡ array_vec_len line.old + 16 }
{
    put_high(value / 0x1_0000_0000, line);
    put_word(value, line);
}

// Appends the low eight hexadecimal digits of a number, which is often 0.
#[inline(always)]
#[tactic(auto, using(crate::proofs::Digits::hex_of_zero))]
fn put_high(value: u64, line: &mut Line)
    requires { array_vec_len line.old + 8 ≤ 128 }
    ensures items { line.new.items ≡ line.old.items ++ hex_of 8 value }
    ensures len { array_vec_len line.new ≡ array_vec_len line.old + 8 }
{
    if value == 0 {
        return put_text(b"00000000", line);
    }
    put_word(value, line);
}

// Appends the decimal digits of a number below 100.
#[inline(always)]
#[tactic(auto, using(crate::proofs::Digits::digit_behind, crate::proofs::Digits::two_behind))]
fn put_first(value: u64, line: &mut Line)
    requires small { value < 100 }
    requires room { array_vec_len line.old + 2 ≤ 128 }
    ensures items { line.new.items ≡ line.old.items ++ dec_of value }
    ensures len { array_vec_len line.new ≤ array_vec_len line.old + 2 }
{
    if value < 10 {
        line.push(b'0' + value as u8);
        return;
    }
    put_text(&dec_pair(value), line);
}

// Appends the decimal digits of a number below 10000.
#[inline(always)]
#[tactic(auto, using(crate::proofs::Digits::two_more_behind))]
fn put_short(value: u64, line: &mut Line)
    requires small { value < 10000 }
    requires room { array_vec_len line.old + 4 ≤ 128 }
    ensures items { line.new.items ≡ line.old.items ++ dec_of value }
    ensures len { array_vec_len line.new ≤ array_vec_len line.old + 4 }
{
    if value < 100 {
        return put_first(value, line);
    }
    put_first(value / 100, line);
    put_text(&dec_pair(value % 100), line);
}

// Appends four decimal digits, those of a smaller number with zeros before them.
#[inline(always)]
fn put_four(value: u64, line: &mut Line)
    requires small { value < 10000 }
    requires room { array_vec_len line.old + 4 ≤ 128 }
    ensures items { line.new.items ≡ line.old.items ++ (digit_of (value / 100 / 10) ∷ digit_of (value / 100 % 10)
        ∷ digit_of (value % 100 / 10) ∷ digit_of (value % 100 % 10) ∷ []) }
    ensures len { array_vec_len line.new ≡ array_vec_len line.old + 4 }
{
    put_text(&dec_pair(value / 100), line);
    put_text(&dec_pair(value % 100), line);
}

// Appends the decimal digits of a number, four of a long one at once.
#[inline(always)]
#[tactic(auto, using(crate::proofs::Digits::four_more_behind))]
fn put_number(value: u32, line: &mut Line)
    requires { array_vec_len line.old + 10 ≤ 128 }
    ensures items { line.new.items ≡ line.old.items ++ dec_of value }
    ensures len { array_vec_len line.new ≤ array_vec_len line.old + 10 }
{
    let value = u64::from(value);
    if value < 10000 {
        return put_short(value, line);
    }
    put_front(value / 10000, line);
    put_four(value % 10000, line);
}

// Appends the decimal digits of a number that has at most six.
#[inline(always)]
#[tactic(auto, using(crate::proofs::Digits::four_more_behind))]
fn put_front(value: u64, line: &mut Line)
    requires small { value < 1000000 }
    requires room { array_vec_len line.old + 6 ≤ 128 }
    ensures items { line.new.items ≡ line.old.items ++ dec_of value }
    ensures len { array_vec_len line.new ≤ array_vec_len line.old + 6 }
{
    if value < 10000 {
        return put_short(value, line);
    }
    put_first(value / 10000, line);
    put_four(value % 10000, line);
}

// Appends the decimal digits of a size.
#[inline(always)]
fn put_size(value: u8, line: &mut Line)
    requires { array_vec_len line.old + 4 ≤ 128 }
    ensures items { line.new.items ≡ line.old.items ++ dec_of value }
    ensures len { array_vec_len line.new ≤ array_vec_len line.old + 3 }
{
    put_short(u64::from(value), line);
}

// Appends the line of any event.
#[inline(always)]
fn print_line(event: &Event, out: &mut Line)
    requires { array_vec_len out.old ≤ 70 }
    ensures text { out.new.items ≡ out.old.items ++ texts.line_of event.now }
    ensures short { array_vec_len out.new ≤ array_vec_len out.old + 56 }
{
    // Said once, so that no part of the line asks for its room again.
    if out.len() > 70 {
        unreachable!();
    }
    let event = *event;
    put_number(event.tick, out);
    let marks = [
        b' ',
        letter(event.kind),
        b' ',
        attribute(&event),
        b' ',
        quiet(&event),
        b' ',
    ];
    put_text(&marks, out);
    put_word(u64::from(event.va), out);
    out.push(b' ');
    put_address(event.pa, out);
    out.push(b' ');
    put_size(event.size, out);
    out.push(b' ');
    put_doubleword(event.value, out);
}

/// Writes the line of an event of the grammar, without the newline that ends it, into an empty line.
pub fn print_event(event: &Event, out: &mut Line)
    requires event { IsEvent event.now }
    requires empty { array_vec_len out.old ≡ 0 }
    ensures text { out.new.items ≡ texts.line_of event.now }
    ensures read_back { texts.read_line out.new.items ≡ Some event.now }
    ensures short { array_vec_len out.new ≤ 127 }
{
    print_line(event, out);
}

/// Appends the line of an event of the grammar, with the newline that ends it.
#[inline(always)]
pub fn append_event(event: &Event, out: &mut Line)
    requires event { IsEvent event.now }
    requires room { array_vec_len out.old ≤ 70 }
    ensures text { out.new.items ≡ out.old.items ++ (texts.line_of event.now ++ newline ∷ []) }
    ensures short { array_vec_len out.new ≤ 127 }
{
    print_line(event, out);
    out.push(b'\n');
}
